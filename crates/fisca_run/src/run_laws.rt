//! The law of the positions of run files.

ghost use Rattle.std.specs.Prelude.{◌≡◌, ◌<◌, ℕ, List, Some, Ok};
ghost use Rattle.fisca_grid.specs.Grid.{size_of};
ghost use Rattle.fisca_inputs.specs.declared.given.Given.{Given};
ghost use Rattle.fisca_run_file.specs.Positions.{moved_at, situation_with};
ghost use Rattle.fisca_run_file.specs.RunFiles.{RunFile, run_file_of};
ghost use Rattle.fisca_situations.specs.Situations.{Situation};
ghost use Rattle.fisca_symbols.specs.declared.tables.Tables.{Tables};
ghost use Rattle.fisca_yaml.specs.Node.{Node};

/// Law: each position of an accepted run file has a situation. The axes have values there, and the inputs can be shared with these values, since they
/// were shared with others when the file was read.
pub fn positions_have_situations()
    ensures { (tables : Tables) (n : Node) (f : RunFile) (position : ℕ) → run_file_of tables n ≡ Ok f → position < size_of f.groups
        → (moved : List Given) × (s : Situation) × (moved_at tables f position ≡ Some moved) × (situation_with tables f moved ≡ Ok s) }
{}

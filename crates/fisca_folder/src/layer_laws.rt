//! The laws of files that are laid over one another.

ghost use Rattle.std.specs.Prelude.{◌≡◌, ◌≢◌, ℕ, List, [], true, not};
ghost use Rattle.std.specs.List.{filter};
ghost use Rattle.fisca_folder.specs.Layers.{has_path, is_empty, laid_of, Layer, path_below, told_at};
ghost use Rattle.fisca_folder.specs.LayerLaws.{at_path, HaveNone, IsLastWith};

/// Laws, of the files of a rule set with those of reforms laid over. Of a path that a reform has, the files are those of the last that has it, but for the empty ones;
/// of any other, they are those of the rule set's own folder. Without a reform all are those, and each path is told as it is; with one, a path is told in the last folder that has it.
pub fn layers_are_laid_over()
    ensures last { (rules layer : Layer) (layers : List Layer) (path : List ℕ) → IsLastWith path layers layer → at_path path (laid_of rules layers).files ≡ filter (λ file. not (is_empty file)) (at_path path layer.files) }
    ensures others { (rules : Layer) (layers : List Layer) (path : List ℕ) → HaveNone path layers → at_path path (laid_of rules layers).files ≡ at_path path rules.files }
    ensures alone { (rules : Layer) (path : List ℕ) → ((laid_of rules []).files ≡ rules.files) × (told_at (laid_of rules []).told path ≡ path) }
    ensures told_last { (rules layer : Layer) (layers : List Layer) (path : List ℕ) → IsLastWith path layers layer → told_at (laid_of rules layers).told path ≡ path_below layer.name path }
    ensures told_others { (rules : Layer) (layers : List Layer) (path : List ℕ) → layers ≢ [] → HaveNone path layers → has_path path rules.files ≡ true → told_at (laid_of rules layers).told path ≡ path_below rules.name path }
{}

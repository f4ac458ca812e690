//! Laws of listings.

ghost use Rattle.std.specs.Prelude.{◌≡◌, ℕ, List, length};
ghost use Rattle.fisca_forms.specs.LineForms.{Form};
ghost use Rattle.fisca_rule_files.specs.Listing.{listed_row, listing};
ghost use Rattle.fisca_params.specs.Source.{Source};
ghost use Rattle.fisca_rules.specs.Rules.{Rules};
ghost use Rattle.fisca_writer.specs.Lines.{AtEnd};
ghost use Rattle.fisca_writer.specs.Ranges.{no_limit, range_end, range_lines};

/// Law: each variable has its line, in order, and there is no other.
pub fn each_variable_has_its_line()
    ensures lines { (form : Form) (modules : List Source) (r : Rules) → range_lines (listed_row form modules r) (length r.variables) 0 no_limit ≡ listing form modules r }
    ensures end { (form : Form) (modules : List Source) (r : Rules) → range_end (listed_row form modules r) (length r.variables) 0 no_limit ≡ AtEnd }
{}

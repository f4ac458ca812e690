//! The paths of files that belong to a rule set.

ghost use Rattle.std.specs.Prelude.{◌≡◌, codes, option_map, option_and_then};
ghost use Rattle.fisca_folder.specs.Steps.RulePaths as spec;
ghost use Rattle.fisca_params.specs.Paths.{after_start};
ghost use Rattle.fisca_params.specs.Steps.Paths.{without_ending};

use fisca_params::is_parameter_path;

/// Whether the path is that of a module: `entities.py`, or a file below the folder `variables` whose name ends in `.py`.
pub fn is_module(path: &str) -> bool
    ensures { result ≡ spec.is_module path.now }
{
    path == "entities.py" || variables_path(path).is_some()
}

/// The path of a module below the folder `variables`, without its ending. None of any other file.
fn variables_path(path: &str) -> Option<&str>
    ensures { option_map (λ p. p.now) result ≡ option_and_then (without_ending (codes ".py")) (after_start (codes "variables/") path.now) }
{
    path.strip_prefix("variables/")?.strip_suffix(".py")
}

/// Whether a file of this path belongs to a rule set: as a parameter file, or as a module. Others are ignored.
pub fn is_rule_path(path: &str) -> bool
    ensures { result ≡ spec.is_rule_path path.now }
{
    is_parameter_path(path) || is_module(path)
}

//! The trees of the texts that commands read.

ghost use Rattle.std.specs.Prelude.{◌≡◌, Some, IfOk, IfErr};
ghost use Rattle.fisca_grid_run.specs.Yaml.{IsYamlRefused};
ghost use Rattle.fisca_yaml.specs.Grouping.{document};
ghost use Rattle.fisca_yaml.specs.Views.{node};

use fisca_rule_files::Refusal;
use fisca_yaml::{Tree, YamlKind, read};
use std::alloc::Global;

/// The tree of a text. `Yaml` exactly where it has none, with the line and the kind that `fisca_yaml::read` tells; `Memory` only where memory was refused.
pub fn read_tree(alloc: Global, text: &str) -> Result<Tree<'_>, Refusal>
    ensures ok { IfOk result (λ tree. document text.now ≡ Some (node tree)) }
    ensures err { IfErr result (IsYamlRefused text.now) }
{
    match read(alloc, text) {
        Ok(tree) => Ok(tree),
        Err(fault) if fault.kind == YamlKind::Memory => Err(Refusal::Memory),
        Err(fault) => Err(Refusal::Yaml(fault)),
    }
}

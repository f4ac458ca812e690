//! The tests of a file whose names have a text.

ghost use Rattle.std.specs.Prelude.{◌≡◌, option_map};
ghost use Rattle.fisca_run.specs.Named as spec;
ghost use Rattle.fisca_yaml.specs.Views.{node};

use fisca_yaml::Tree;
use std::alloc::Global;

/// Whether a test has a name with this text in it.
fn is_named(test: &Tree<'_>, text: &str) -> bool
    ensures { result ≡ spec.is_named text.now (node test.now) }
{
    match test.get("name") {
        None => false,
        Some(name) => match name.as_text() {
            None => false,
            Some(name) => name.contains(text),
        },
    }
}

/// The tests of a file whose names have this text, if there is one, and all where there is none; what is one test of another name becomes a file of none. It
/// takes no memory. This project's own rule.
pub fn named<'a>(alloc: Global, tree: Tree<'a>, name: Option<&str>) -> Tree<'a>
    ensures { node result ≡ spec.named (option_map (λ text. text.now) name.entry) (node tree.entry) }
{
    let Some(text) = name else {
        return tree;
    };
    match tree {
        Tree::List(items) => {
            let mut items = items;
            items.retain(|item| is_named(&item.value, text));
            Tree::List(items)
        }
        Tree::Map(entries) => {
            let test = Tree::Map(entries);
            if is_named(&test, text) {
                test
            } else {
                Tree::List(Vec::new(alloc))
            }
        }
        Tree::Null | Tree::Scalar { .. } => Tree::List(Vec::new(alloc)),
    }
}

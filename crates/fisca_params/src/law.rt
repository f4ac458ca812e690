//! Laws of parameter trees.

ghost use Rattle.std.specs.Prelude.{◌≡◌, ℕ, List, Ok, Some};
ghost use Rattle.fisca_params.specs.Steps.Files.{tree_of};
ghost use Rattle.fisca_params.specs.Fits.{AllFit};
ghost use Rattle.fisca_params.specs.Places.{EachReachedOnce, EachStands, SomeFileSays, walk};
ghost use Rattle.fisca_params.specs.Source.{Source};
ghost use Rattle.fisca_params.specs.Tree.{TreeNode, content_at};
ghost use Rattle.fisca_params.specs.declared.content.Content.{Content};

/// What the parameter files of an accepted rule set say stands in its tree where their paths say: the names of a path lead
/// from the root through folders to the node of the file; it is the parameter, the scale or the branch that the file's map
/// is, and below a branch stands each of its children under its key.
pub fn files_stand_at_their_paths()
    ensures { (files : List Source) (tree : List TreeNode) → tree_of files ≡ Ok tree → EachStands tree files }
{}

/// Nothing else stands there: what the names of a path lead to is the root, or is what some file says of that path.
pub fn nothing_else_stands()
    ensures { (files : List Source) (tree : List TreeNode) → tree_of files ≡ Ok tree → (names : List (List ℕ)) (place : ℕ) (content : Content) → walk tree 0 names ≡ Some place → content_at tree place ≡ Some content → SomeFileSays files names content }
{}

/// Each node is reached by one path: names lead from the root to it, and no other names do.
pub fn each_node_is_reached_once()
    ensures { (files : List Source) (tree : List TreeNode) → tree_of files ≡ Ok tree → EachReachedOnce tree }
{}

/// Files that fit make a tree: parameter files that have documents, whose maps are parameters, scales or branches, and of
/// whose names none stands in another's way.
pub fn files_that_fit_make_a_tree()
    ensures { (files : List Source) → AllFit files → (tree : List TreeNode) × (tree_of files ≡ Ok tree) }
{}

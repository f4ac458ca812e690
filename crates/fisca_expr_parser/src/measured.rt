//! Expressions with their heights.

ghost use Rattle.std.specs.Prelude.{◌≡◌};
ghost use Rattle.fisca_ast.specs.Tree.{height as height_of_tree, height_all as height_of_series, height_of as height_of_argument};
ghost use Rattle.fisca_ast.specs.Views.{tree, series_view, argument_view};

use fisca_ast::{Argument, Arguments, Expr};

/// An expression and its height.
#[derive(Drop)]
pub struct Measured<'a> {
    pub expr: Expr<'a>,
    pub height: usize,
    ghost right: { height ≡ height_of_tree (tree expr) },
}

/// What stands between brackets, and its height.
#[derive(Drop)]
pub struct MeasuredArguments<'a> {
    pub arguments: Arguments<'a>,
    pub height: usize,
    ghost right: { height ≡ height_of_series (series_view arguments) },
}

/// An argument and its height.
#[derive(Drop)]
pub struct MeasuredArgument<'a> {
    pub argument: Argument<'a>,
    pub height: usize,
    ghost right: { height ≡ height_of_argument (argument_view argument) },
}

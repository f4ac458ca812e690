//! Expressions.

use crate::slice::Slice;

/// What stands between two operands.
#[derive(Clone, Copy, Debug, PartialEq, Eq)]
pub enum Operator {
    /// `|`
    Or,
    /// `&`
    And,
    /// `+`
    Add,
    /// `-`
    Subtract,
    /// `*`
    Multiply,
    /// `/`
    Divide,
}

/// How two operands are compared.
#[derive(Clone, Copy, Debug, PartialEq, Eq)]
pub enum Comparison {
    /// `<`
    Less,
    /// `<=`
    LessEqual,
    /// `>`
    Greater,
    /// `>=`
    GreaterEqual,
    /// `==`
    Equal,
    /// `!=`
    NotEqual,
}

/// What stands before an operand.
#[derive(Clone, Copy, Debug, PartialEq, Eq)]
pub enum Prefix {
    /// `+`
    Plus,
    /// `-`
    Minus,
    /// `~`
    Not,
}

/// A pair of brackets that begins an expression.
#[derive(Clone, Copy, Debug, PartialEq, Eq)]
pub enum Delimiter {
    /// `( )`: a value in parentheses, or a tuple.
    Round,
    /// `[ ]`: a list.
    Square,
    /// `{ }`: a map.
    Curly,
}

/// A pair of brackets behind an expression.
#[derive(Clone, Copy, Debug, PartialEq, Eq)]
pub enum Suffix {
    /// `( )`
    Call,
    /// `[ ]`
    Subscript,
}

/// An expression as it is written. What has parts holds them in one box, so that an expression takes little room.
#[cycle(tree)]
#[derive(Drop)]
pub enum Expr<'a> {
    /// A name, or `True` or `False`.
    Name(Slice<'a>),
    /// A number.
    Number(Slice<'a>),
    /// Texts in quotes, side by side.
    Text(Slice<'a>),
    /// What stands in brackets.
    Bracketed(Delimiter, Box<Arguments<'a>>),
    /// An expression, a point and a name.
    Attribute(Box<Access<'a>>),
    /// An expression, and what stands in brackets behind it.
    Applied(Suffix, Box<Application<'a>>),
    /// A prefix and its operand.
    Prefixed(Prefix, Box<Expr<'a>>),
    /// Two operands.
    Binary(Operator, Box<Operands<'a>>),
    /// A comparison.
    Compare(Comparison, Box<Operands<'a>>),
}

/// An expression, and the name behind it.
#[cycle(tree)]
#[derive(Drop)]
pub struct Access<'a> {
    /// The expression.
    pub front: Expr<'a>,
    /// The name.
    pub name: Slice<'a>,
}

/// An expression, and what stands in brackets behind it.
#[cycle(tree)]
#[derive(Drop)]
pub struct Application<'a> {
    /// The expression.
    pub front: Expr<'a>,
    /// What stands in brackets.
    pub behind: Arguments<'a>,
}

/// Two operands.
#[cycle(tree)]
#[derive(Drop)]
pub struct Operands<'a> {
    /// The left one.
    pub left: Expr<'a>,
    /// The right one.
    pub right: Expr<'a>,
}

/// What stands between brackets: each of the first is followed by a comma.
#[cycle(tree)]
#[derive(Drop)]
pub enum Arguments<'a> {
    /// One without a comma, as most brackets have.
    One(Argument<'a>),
    /// What the commas part, and whether one follows the last, if there is one.
    Several(Vec<Argument<'a>>, bool),
}

/// One of what stands between brackets.
#[cycle(tree)]
#[derive(Drop)]
pub enum Argument<'a> {
    /// An expression alone.
    Positional(Expr<'a>),
    /// `NAME=expression`. In a box, since it is rare: so the others take less room.
    Keyword(Slice<'a>, Box<Expr<'a>>),
    /// `expression: expression`, in a map, in boxes as well.
    Entry(Box<Expr<'a>>, Box<Expr<'a>>),
}

//! What marks do before and behind expressions.

ghost use Rattle.std.specs.Prelude.{◌≡◌};
ghost use Rattle.fisca_expr_parser.specs.Steps.Marks as spec;

use fisca_ast::{Comparison, Delimiter, Operator, Prefix, Suffix};
use fisca_lexer::Mark;

/// What a mark behind an expression does.
#[derive(Clone, Copy, PartialEq, Eq)]
pub(crate) enum Joint {
    /// A name follows.
    Access,
    /// Brackets follow.
    Applied(Suffix),
    /// Another operand follows.
    Operates(Operator),
    /// The expression ends.
    Ends,
}

/// What a mark begins.
#[derive(Clone, Copy, PartialEq, Eq)]
pub(crate) enum Beginning {
    /// An expression in brackets.
    Opens(Delimiter),
    /// An operand behind a prefix.
    Sign(Prefix),
    /// No expression.
    Nothing,
}

/// Whether two marks are one.
#[tactic(auto, unfolding(crate::specs::Steps::Marks::same_mark))]
pub(crate) fn same_mark(a: Mark, b: Mark) -> bool
    ensures { result ≡ spec.same_mark a b }
{
    a == b
}

/// What a mark does behind an expression.
pub(crate) fn joint_of(mark: Mark) -> Joint
    ensures { result ≡ spec.joint_of mark }
{
    match mark {
        Mark::Dot => Joint::Access,
        Mark::Open => Joint::Applied(Suffix::Call),
        Mark::OpenList => Joint::Applied(Suffix::Subscript),
        Mark::Bar => Joint::Operates(Operator::Or),
        Mark::Ampersand => Joint::Operates(Operator::And),
        Mark::Plus => Joint::Operates(Operator::Add),
        Mark::Minus => Joint::Operates(Operator::Subtract),
        Mark::Star => Joint::Operates(Operator::Multiply),
        Mark::Slash => Joint::Operates(Operator::Divide),
        _ => Joint::Ends,
    }
}

/// How tightly an operator binds.
pub(crate) fn binds(operator: Operator) -> usize
    ensures { result ≡ spec.binds operator }
{
    match operator {
        Operator::Or => 1,
        Operator::And => 2,
        Operator::Add | Operator::Subtract => 3,
        Operator::Multiply | Operator::Divide => 4,
    }
}

/// How tightly what follows joins.
pub(crate) fn tightness(joint: Joint) -> usize
    ensures { result ≡ spec.tightness joint }
{
    match joint {
        Joint::Access | Joint::Applied(_) => 6,
        Joint::Operates(operator) => binds(operator),
        Joint::Ends => 0,
    }
}

/// What a mark begins.
pub(crate) fn beginning_of(mark: Mark) -> Beginning
    ensures { result ≡ spec.beginning_of mark }
{
    match mark {
        Mark::Open => Beginning::Opens(Delimiter::Round),
        Mark::OpenList => Beginning::Opens(Delimiter::Square),
        Mark::OpenMap => Beginning::Opens(Delimiter::Curly),
        Mark::Plus => Beginning::Sign(Prefix::Plus),
        Mark::Minus => Beginning::Sign(Prefix::Minus),
        Mark::Tilde => Beginning::Sign(Prefix::Not),
        _ => Beginning::Nothing,
    }
}

/// The comparison of a mark.
pub(crate) fn comparison_of(mark: Mark) -> Option<Comparison>
    ensures { result ≡ spec.comparison_of mark }
{
    match mark {
        Mark::Less => Some(Comparison::Less),
        Mark::LessEqual => Some(Comparison::LessEqual),
        Mark::Greater => Some(Comparison::Greater),
        Mark::GreaterEqual => Some(Comparison::GreaterEqual),
        Mark::EqualEqual => Some(Comparison::Equal),
        Mark::NotEqual => Some(Comparison::NotEqual),
        _ => None,
    }
}

/// The mark that closes brackets.
pub(crate) fn closing_mark(bracket: Delimiter) -> Mark
    ensures { result ≡ spec.closing_mark bracket }
{
    match bracket {
        Delimiter::Round => Mark::Close,
        Delimiter::Square => Mark::CloseList,
        Delimiter::Curly => Mark::CloseMap,
    }
}

/// The brackets that stand behind an expression.
pub(crate) fn bracket_of(suffix: Suffix) -> Delimiter
    ensures { result ≡ spec.bracket_of suffix }
{
    match suffix {
        Suffix::Call => Delimiter::Round,
        Suffix::Subscript => Delimiter::Square,
    }
}

//! What a module declares.

use crate::slice::Slice;
use crate::tree::Expr;
use fisca_time::Instant;

/// A name and a value beside it: a declaration, an attribute or a local.
#[derive(Drop)]
pub struct Assignment<'a> {
    /// The line on which it begins.
    pub line: usize,
    /// The name.
    pub name: Slice<'a>,
    /// The value, as it is written.
    pub value: Expr<'a>,
}

/// A member of an Enum, or its `__order__`.
#[derive(Drop)]
pub struct Member<'a> {
    /// The line on which it begins.
    pub line: usize,
    /// The name.
    pub name: Slice<'a>,
    /// The text in quotes behind it.
    pub text: Slice<'a>,
}

/// `class NAME(Enum):`
#[derive(Drop)]
pub struct EnumClass<'a> {
    /// The line on which it begins.
    pub line: usize,
    /// The name.
    pub name: Slice<'a>,
    /// What it has, from top to bottom.
    pub members: Vec<Member<'a>>,
}

/// The names between the parentheses of a formula.
#[derive(Drop)]
pub struct Signature<'a> {
    /// What stands for the entity.
    pub entity: Slice<'a>,
    /// What stands for the period.
    pub period: Slice<'a>,
    /// What stands for the parameters, if it is there.
    pub parameters: Option<Slice<'a>>,
}

/// `return EXPRESSION`
#[derive(Drop)]
pub struct Returned<'a> {
    /// The line on which it begins.
    pub line: usize,
    /// The expression.
    pub value: Expr<'a>,
}

/// `def formula(..):` and its body.
#[derive(Drop)]
pub struct Formula<'a> {
    /// The line on which it begins.
    pub line: usize,
    /// From when on it is in force.
    pub start: Instant,
    /// The names of its arguments.
    pub signature: Signature<'a>,
    /// Its locals, from top to bottom.
    pub locals: Vec<Assignment<'a>>,
    /// What it returns.
    pub returned: Returned<'a>,
}

/// What a variable has.
#[derive(Drop)]
pub enum ClassLine<'a> {
    /// An attribute.
    Attribute(Assignment<'a>),
    /// A formula.
    Formula(Box<Formula<'a>>),
}

/// `class NAME(Variable):`
#[derive(Drop)]
pub struct VariableClass<'a> {
    /// The line on which it begins.
    pub line: usize,
    /// The name.
    pub name: Slice<'a>,
    /// Its attributes and formulas, from top to bottom.
    pub items: Vec<ClassLine<'a>>,
}

/// A statement of a module that declares something.
#[derive(Drop)]
pub enum Statement<'a> {
    /// `NAME = build_entity(..)`
    Entity(Assignment<'a>),
    /// `entities = [NAME, ..]`
    Entities(Assignment<'a>),
    /// An Enum.
    Enum(EnumClass<'a>),
    /// A variable.
    Variable(VariableClass<'a>),
}

/// What a text declares, from top to bottom. Names, numbers and texts are pieces of the text.
#[derive(Drop)]
pub struct Module<'a> {
    /// Its statements; imports and texts that stand alone are left out.
    pub statements: Vec<Statement<'a>>,
}

//! Tokens.

/// An operator or a sign of punctuation.
#[derive(Clone, Copy, Debug, PartialEq, Eq)]
pub enum Mark {
    /// `(`
    Open,
    /// `)`
    Close,
    /// `[`
    OpenList,
    /// `]`
    CloseList,
    /// `{`
    OpenMap,
    /// `}`
    CloseMap,
    /// `,`
    Comma,
    /// `:`
    Colon,
    /// `.`
    Dot,
    /// `=`
    Equal,
    /// `==`
    EqualEqual,
    /// `!=`
    NotEqual,
    /// `<`
    Less,
    /// `<=`
    LessEqual,
    /// `>`
    Greater,
    /// `>=`
    GreaterEqual,
    /// `|`
    Bar,
    /// `&`
    Ampersand,
    /// `+`
    Plus,
    /// `-`
    Minus,
    /// `*`
    Star,
    /// `/`
    Slash,
    /// `~`
    Tilde,
    /// `**`
    Power,
    /// `//`
    WholeDivision,
    /// An operator and `=` written together, as `+=`.
    Augmented,
}

/// What a token is.
#[derive(Clone, Copy, Debug, PartialEq, Eq)]
pub enum Class {
    /// ASCII letters, digits and `_`, of which the first is no digit.
    Word,
    /// A decimal literal.
    Number,
    /// A text in quotes, its prefix included.
    Quoted,
    /// A mark.
    Mark(Mark),
}

/// A token of a text: its slice is what stands there from `start` up to `end`. No text is longer than 1 MiB, so places and
/// lines are kept in 32 bits each: a token takes 24 bytes.
#[derive(Clone, Copy, Debug, PartialEq, Eq)]
pub struct Token {
    /// The place of its first byte.
    pub start: u32,
    /// The place behind its last byte.
    pub end: u32,
    /// The line of its first byte, counted from 1.
    pub line: u32,
    /// What it is.
    pub class: Class,
    /// How many spaces stand before it, where it is the first on its line outside brackets.
    pub indent: Option<u32>,
}

/// What stands in front of a text.
#[derive(Clone, Copy, Debug, PartialEq, Eq)]
pub(crate) enum Form {
    /// A token.
    Token(Class),
    /// Spaces.
    Spaces,
    /// Spaces and tabs, a tab at least.
    Tabs,
    /// A comment.
    Comment,
    /// A line feed, perhaps behind a carriage return.
    LineEnd,
}

/// What stands in front of a text, how long it is, and how many line feeds it has.
#[derive(Clone, Copy, Debug, PartialEq, Eq)]
pub(crate) struct Piece {
    pub form: Form,
    pub length: usize,
    pub lines: usize,
}

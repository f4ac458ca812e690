//! What stands on one line of an explanation.

ghost use Rattle.std.specs.Prelude.{◌≡◌, [], string_bytes};
ghost use Rattle.fisca_explain.specs.LineTexts as spec;

use std::alloc::Global;

/// What a line is of.
#[derive(Clone, Copy, Debug, PartialEq, Eq)]
pub(crate) enum Kind {
    /// A key.
    Key,
    /// A parameter that a formula read.
    Parameter,
    /// A scale that a formula read.
    Scale,
}

impl Kind {
    /// Its word for readers.
    pub(crate) fn word(self) -> &'static str
        ensures { result.now ≡ spec.kind_word self }
    {
        match self {
            Kind::Key => "",
            Kind::Parameter => "parameter ",
            Kind::Scale => "scale ",
        }
    }

    /// What stands before its period or day.
    pub(crate) fn before_period(self) -> &'static str
        ensures { result.now ≡ spec.before_period self }
    {
        match self {
            Kind::Key => " ",
            Kind::Parameter | Kind::Scale => " on ",
        }
    }
}

/// What a value comes from, as a line tells it.
#[derive(Clone, Copy, Debug, PartialEq, Eq)]
pub(crate) enum Source {
    /// Nothing: the variable has no value at the period.
    Unfit,
    /// An input at the key's own period.
    Given,
    /// An input at a longer period.
    Shared,
    /// A default beside other members' inputs.
    Beside,
    /// The variable's default.
    Default,
    /// The variable's default, since it is neutralised.
    Neutral,
    /// The formula in force.
    Formula,
    /// It was explained above.
    Above,
    /// A value of a parameter.
    Parameter,
    /// The brackets of a scale.
    Scale,
}

impl Source {
    /// Its word for machines.
    pub(crate) fn word(self) -> &'static str
        ensures { result.now ≡ spec.source_word self }
    {
        match self {
            Source::Unfit => "unfit",
            Source::Given => "given",
            Source::Shared => "shared",
            Source::Beside => "beside",
            Source::Default => "default",
            Source::Neutral => "neutralised",
            Source::Formula => "formula",
            Source::Above => "above",
            Source::Parameter => "parameter",
            Source::Scale => "scale",
        }
    }

    /// Its words for readers.
    pub(crate) fn phrase(self) -> &'static str
        ensures { result.now ≡ spec.source_phrase self }
    {
        match self {
            Source::Unfit => "no value at this period",
            Source::Given => "input",
            Source::Shared => "input",
            Source::Beside => "default beside inputs of others",
            Source::Default => "default",
            Source::Neutral => "neutralised",
            Source::Formula => "formula",
            Source::Above => "above",
            Source::Parameter => "in force",
            Source::Scale => "by its brackets",
        }
    }

    /// What stands before the period of an input, or before the day from which on a formula or a value is in force.
    pub(crate) fn before_since(self) -> &'static str
        ensures { result.now ≡ spec.before_since self }
    {
        match self {
            Source::Shared => " of ",
            Source::Unfit
            | Source::Given
            | Source::Beside
            | Source::Default
            | Source::Neutral
            | Source::Formula
            | Source::Above
            | Source::Parameter
            | Source::Scale => " since ",
        }
    }
}

/// What stands on one line of an explanation, as texts; one that says nothing is empty.
#[derive(Drop)]
pub(crate) struct Line {
    /// How many keys stand above it.
    pub(crate) depth: usize,
    /// What it is of.
    pub(crate) kind: Kind,
    /// The variable, or the path of the parameter.
    pub(crate) name: String,
    /// The member.
    pub(crate) member: String,
    /// The period, or the day on which the parameter is read.
    pub(crate) period: String,
    /// The base of a scale.
    pub(crate) base: String,
    /// The value.
    pub(crate) value: String,
    /// Whether the value stands without quotes in JSON.
    pub(crate) is_bare: bool,
    /// Why there is none.
    pub(crate) fault: &'static str,
    /// What the value comes from.
    pub(crate) source: Source,
    /// The period of the input, or the day from which on the formula or the value is in force.
    pub(crate) since: String,
    /// The file.
    pub(crate) file: String,
    /// The line in it.
    pub(crate) line: Option<usize>,
    /// What the value is counted in.
    pub(crate) unit: String,
    /// What is told of it.
    pub(crate) label: String,
    /// The law that it follows.
    pub(crate) reference: String,
}

impl Line {
    /// A line on which nothing else stands.
    pub(crate) fn new(alloc: Global, depth: usize, kind: Kind, source: Source) -> Line
        ensures of { (result.depth ≡ depth) × (result.kind ≡ kind) × (result.source ≡ source) }
        ensures blank { (string_bytes result.period ≡ []) × (string_bytes result.value ≡ []) × (result.fault.now ≡ []) }
    {
        Line {
            depth,
            kind,
            name: String::new(alloc),
            member: String::new(alloc),
            period: String::new(alloc),
            base: String::new(alloc),
            value: String::new(alloc),
            is_bare: false,
            fault: "",
            source,
            since: String::new(alloc),
            file: String::new(alloc),
            line: None,
            unit: String::new(alloc),
            label: String::new(alloc),
            reference: String::new(alloc),
        }
    }
}

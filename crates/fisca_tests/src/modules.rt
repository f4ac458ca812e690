//! Modules: what they declare.

use fisca_ast::{
    Assignment, ClassLine, Formula, FormulaFault, FormulaKind, Module, Slice, Statement,
};
use fisca_parser::read_module;
use std::alloc::{AllocError, Global};
use std::test::Fail;

/// The text of a slice.
fn shown<'a>(slice: &Slice<'a>) -> &'a str {
    slice.as_str()
}

/// Writes a name and its line.
fn show_assignment(alloc: Global, assignment: &Assignment<'_>) -> Result<String, AllocError> {
    let name = shown(&assignment.name);
    let line = assignment.line;
    format!(in alloc; "{name}@{line}")
}

/// Writes when a formula starts, its arguments, its locals and where it returns.
fn show_formula(alloc: Global, formula: &Formula<'_>) -> Result<String, AllocError> {
    let line = formula.line;
    let year = formula.start.year();
    let month = formula.start.month();
    let day = formula.start.day();
    let entity = shown(&formula.signature.entity);
    let period = shown(&formula.signature.period);
    let parameters = match &formula.signature.parameters {
        Some(name) => shown(name),
        None => "-",
    };
    let mut text = format!(in alloc;
        "{year}-{month}-{day}@{line}({entity} {period} {parameters})"
    )?;
    for local in &formula.locals {
        let shown = show_assignment(alloc, local)?;
        text.push_str(" ")?;
        text.push_str(shown.as_str())?;
    }
    let returned = formula.returned.line;
    let end = format!(in alloc; " return@{returned}")?;
    text.push_str(end.as_str())?;
    Ok(text)
}

fn show_item(alloc: Global, item: &ClassLine<'_>) -> Result<String, AllocError> {
    match item {
        ClassLine::Attribute(attribute) => show_assignment(alloc, attribute),
        ClassLine::Formula(formula) => show_formula(alloc, formula),
    }
}

fn show_statement(alloc: Global, statement: &Statement<'_>) -> Result<String, AllocError> {
    match statement {
        Statement::Entity(assignment) => {
            let shown = show_assignment(alloc, assignment)?;
            format!(in alloc; "entity {shown}; ")
        }
        Statement::Entities(assignment) => {
            let shown = show_assignment(alloc, assignment)?;
            format!(in alloc; "list {shown}; ")
        }
        Statement::Enum(class) => {
            let name = shown(&class.name);
            let line = class.line;
            let mut text = format!(in alloc; "enum {name}@{line}")?;
            for member in &class.members {
                let name = shown(&member.name);
                let line = member.line;
                let label = shown(&member.text);
                let part = format!(in alloc; " {name}@{line}={label}")?;
                text.push_str(part.as_str())?;
            }
            text.push_str("; ")?;
            Ok(text)
        }
        Statement::Variable(class) => {
            let name = shown(&class.name);
            let line = class.line;
            let mut text = format!(in alloc; "variable {name}@{line}")?;
            for item in &class.items {
                let part = show_item(alloc, item)?;
                text.push_str(" ")?;
                text.push_str(part.as_str())?;
            }
            text.push_str("; ")?;
            Ok(text)
        }
    }
}

/// Writes what a text declares.
fn show_module(alloc: Global, source: &str) -> Result<String, FormulaFault> {
    let module: Module = read_module(alloc, source)?;
    let mut text = String::new(alloc);
    for statement in &module.statements {
        let part = show_statement(alloc, statement)?;
        text.push_str(part.as_str())?;
    }
    Ok(text)
}

/// The entities of the example, as its file has them.
const ENTITIES: &str =
    "\"\"\"The entities.\"\"\"\n\nfrom openfisca_core.entities import build_entity\n\nHousehold = build_entity(\n    key=\"household\",\n    roles=[\n        {\n            \"key\": \"parent\",\n            \"subroles\": [\"first_parent\", \"second_parent\"],\n        },\n    ],\n)\n\nPerson = build_entity(\n    key=\"person\",\n    is_person=True,\n)\n\nentities = [Household, Person]\n";

/// Texts and what they declare.
const MODULES: [(&str, &str); 24] = [
    ("", ""),
    ("# nothing\n\n", ""),
    (
        "import a\nfrom b import (c,\n  d)\n\"text\"\n'a' \"b\"\n",
        "",
    ),
    // An import with an open bracket goes on to the end.
    ("from a import (b\nclass c(Enum):\n", ""),
    (
        ENTITIES,
        "entity Household@5; entity Person@15; list entities@20; ",
    ),
    (
        "entities = []\nentities = [a, b,]",
        "list entities@1; list entities@2; ",
    ),
    (
        "class A(Enum):\n    __order__ = \"a b\"\n    \"text\"\n    a = \"x\" 'y'\n    pass\n",
        "enum A@1 __order__@2=\"a b\" a@4=\"x\" 'y'; ",
    ),
    (
        "class A(Enum):\n  pass\nclass B(Variable):\n  pass",
        "enum A@1; variable B@3; ",
    ),
    ("class A(\n  Enum\n):\n    a = 'b'", "enum A@1 a@4='b'; "),
    (
        "class s(Variable):\n    value_type = float\n    entity = Person\n    reference = (\"a\", \"b\")\n",
        "variable s@1 value_type@2 entity@3 reference@4; ",
    ),
    (
        "class s(Variable):\n    definition_period = DateUnit.DAY\n    set_input = x\n",
        "variable s@1 definition_period@2 set_input@3; ",
    ),
    (
        "class s(Variable):\n    def formula(a, b):\n        return 1\n    label = 'x'\n",
        "variable s@1 1-1-1@2(a b -) return@3 label@4; ",
    ),
    (
        "class s(Variable):\n  def formula_2016(a, b, c,):\n     'text'\n     x = a\n     y = (x +\n  1)\n     return y\n",
        "variable s@1 2016-1-1@2(a b c) x@4 y@5 return@7; ",
    ),
    (
        "class s(Variable):\n  def formula_2016_12(a, b,):\n     return 1",
        "variable s@1 2016-12-1@2(a b -) return@3; ",
    ),
    (
        "class s(Variable):\n  def formula_2016_02_29(a, b):\n     return 1\nclass t(Variable):\n\n  # text\n  pass",
        "variable s@1 2016-2-29@2(a b -) return@3; variable t@4; ",
    ),
    ("class None(Enum):\n a = 'b'", "enum None@1 a@2='b'; "),
    ("X = build_entity()", "entity X@1; "),
    ("entities = build_entity(1)", "entity entities@1; "),
    ("X = ((build_entity)())", "entity X@1; "),
    ("entities = ([(a), b])", "list entities@1; "),
    ("class s(Variable):\n x = {'a': 1}\n", "variable s@1 x@2; "),
    (
        "class s(Variable):\n definition_period = weeks\n",
        "variable s@1 definition_period@2; ",
    ),
    (
        "class s(Variable):\n unit = WEEK\n",
        "variable s@1 unit@2; ",
    ),
    (
        "class s(Variable):\r\n unit = 'a'\r\n",
        "variable s@1 unit@2; ",
    ),
];

#[test]
fn modules_declare_their_statements(rt: HostRuntime) -> Result<(), Fail> {
    for (text, wanted) in MODULES {
        let shown = show_module(rt.alloc(), text)?;
        assert_eq!(rt; shown.as_str(), wanted, "in {text:?}");
    }
    Ok(())
}

/// A module in which all that a module has grows: tokens, open indentations, lines, statements, members, items, locals,
/// arguments and operands.
const GROWING: &str =
    "E = build_entity(key='a' 'b', roles=[{'c': ['d', 'e', 'f', 'g', 'h', 'i']}])\nclass C(Enum):\n  a = 'b'\nclass s(Variable):\n  x = (1, 2)\n  def formula(a, b):\n    c = a(b, d=[e]).f[g] * -2 < 3\n    return c | (c & ~c) + 1 - 2\n";

/// Run with `rt try --test --fail-alloc N`, for each N in turn, one growth is refused: the answer is that, and never another
/// fault or half a module.
#[test]
fn a_refused_growth_is_the_fault(rt: HostRuntime) {
    match read_module(rt.alloc(), GROWING) {
        Ok(module) => assert_eq!(rt; module.statements.len(), 3),
        Err(fault) => {
            assert_eq!(rt;
                fault,
                FormulaFault {
                    line: 0,
                    kind: FormulaKind::Memory
                }
            );
        }
    }
}

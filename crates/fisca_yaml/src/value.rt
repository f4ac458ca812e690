//! Values beside a key or a dash.

ghost use Rattle.std.specs.Prelude.{◌≡◌, ◌∷◌, Some, None, Ok, Err, OnOk, true, ◌||◌, IfErr};
ghost use Rattle.fisca_yaml_scalars.specs.Rows.{last_number};
ghost use Rattle.fisca_yaml_scalars.specs.Steps.Rows.{begins, tail};
ghost use Rattle.fisca_yaml_scalars.specs.Scalars.{quoted};
ghost use Rattle.fisca_yaml.specs.Leaves.{quoted_value, plain_value};
ghost use Rattle.fisca_yaml_scalars.specs.Steps.Scalars.{is_quote};
ghost use Rattle.fisca_yaml.specs.Flow.{flow_value};
ghost use Rattle.fisca_yaml_scalars.specs.Deeper.{front, after};
ghost use Rattle.fisca_yaml.specs.Grouping.{alone, ended, on_line, text_block, beside};
ghost use Rattle.fisca_yaml.specs.Steps.Grouping.{is_sign, is_header};
ghost use Rattle.fisca_yaml_scalars.specs.Steps.Openings.{begins_text};
ghost use Rattle.fisca_yaml_scalars.specs.Lines.{row};
ghost use Rattle.fisca_yaml.specs.Views.{node};
ghost use Rattle.fisca_yaml.specs.Answers.{Gives, IsTold};

use crate::fault::{YamlFault, YamlKind, at};
use crate::flow::{Flow, read_flow, refused_kind};
use crate::misfit::{is_open, misplaced};
use crate::tree::{Tree, leaf, quoted_scalar};
use fisca_yaml_scalars::{
    Line, Lines, Text, around, ends_line, is_bracket, is_quote, may_begin, read_quoted, trim_end,
    value_text,
};
use std::alloc::Global;

/// The value that begins and ends on a line: a scalar or a collection in brackets.
pub(crate) fn read_on_line<'a>(
    alloc: Global,
    line: &Line<'a>,
    depth: usize,
) -> Result<Tree<'a>, YamlFault>
    ensures value { Gives node result (on_line depth (row line.now)) }
    ensures told { IfErr result (IsTold line.now.number) }
{
    let bytes = line.content.as_bytes();
    if is_bracket(bytes) {
        return read_bracketed(alloc, line, depth);
    }
    if is_quote(bytes) {
        return read_quoted_value(alloc, line);
    }
    read_plain_value(line)
}

/// A collection in brackets, up to the line's end.
fn read_bracketed<'a>(alloc: Global, line: &Line<'a>, depth: usize) -> Result<Tree<'a>, YamlFault>
    ensures value { Gives node result (ended (flow_value depth line.now.number line.now.content.now)) }
    ensures told { IfErr result (IsTold line.now.number) }
{
    let mut flow = Flow::new(line.content);
    let tree = read_flow(alloc, line.number, &mut flow, depth)?;
    if ends_line(flow.rest()) {
        Ok(tree)
    } else {
        Err(at(line.number, YamlKind::BadFlow))
    }
}

/// A quoted scalar, up to the line's end.
fn read_quoted_value<'a>(alloc: Global, line: &Line<'a>) -> Result<Tree<'a>, YamlFault>
    ensures value { Gives node result (quoted_value line.now.number (quoted line.now.content.now)) }
    ensures told { IfErr result (IsTold line.now.number) }
{
    let Some((text, rest)) = read_quoted(alloc, line.content)? else {
        return Err(at(line.number, YamlKind::BadQuote));
    };
    if ends_line(rest) {
        Ok(quoted_scalar(line.number, text))
    } else {
        Err(at(line.number, YamlKind::BadQuote))
    }
}

/// A plain scalar, up to the line's end or a comment.
fn read_plain_value<'a>(line: &Line<'a>) -> Result<Tree<'a>, YamlFault>
    ensures value { Gives node result (plain_value line.now.number line.now.content.now) }
    ensures told { IfErr result (IsTold line.now.number) }
{
    let bytes = line.content.as_bytes();
    if !may_begin(bytes) {
        return Err(at(line.number, refused_kind(bytes)));
    }
    match value_text(line.content) {
        Some(text) => Ok(leaf(line.number, trim_end(text))),
        None => Err(at(line.number, YamlKind::Unsupported)),
    }
}

/// A value that stands on its line. No line may be deeper than the floor behind it.
pub(crate) fn read_alone<'a>(
    alloc: Global,
    line: &Line<'a>,
    rest: &mut Lines<'a>,
    floor: usize,
    depth: usize,
) -> Result<Tree<'a>, YamlFault>
    ensures value { Gives node result (alone (front floor rest.old) (on_line depth (row line.now))) }
    ensures told { IfErr result (IsTold (last_number (row line.now ∷ rest.old))) }
    ensures rest { OnOk result (rest.new ≡ after floor rest.old) }
{
    let Some(deeper) = rest.next_deeper(floor) else {
        return read_on_line(alloc, line, depth);
    };
    let _value = read_on_line(alloc, line, depth)?;
    let open = is_open(floor, deeper.indent);
    Err(misplaced(alloc, deeper, open, depth))
}

/// A value beside a key or a dash that stands at this indentation.
pub(crate) fn read_beside<'a>(
    alloc: Global,
    line: &Line<'a>,
    rest: &mut Lines<'a>,
    indent: usize,
    floor: usize,
    depth: usize,
) -> Result<Tree<'a>, YamlFault>
    ensures value { Gives node result (beside depth indent (row line.now) (front floor rest.old)) }
    ensures told { IfErr result (IsTold (last_number (row line.now ∷ rest.old))) }
    ensures rest { OnOk result (rest.new ≡ after floor rest.old) }
{
    if line.begins_text() {
        return read_text(alloc, line, rest, indent, floor, depth);
    }
    read_alone(alloc, line, rest, floor, depth)
}

/// What follows the first character, which is ASCII.
fn tail(text: &str) -> &str
    requires { begins 124 text.now || begins 62 text.now ≡ true }
    ensures { result.now ≡ tail text.now }
{
    around(text, 0).1
}

/// Whether nothing but signs, digits and a comment follows.
fn is_header(text: &str) -> bool
    ensures { result ≡ is_header text.now }
{
    let bytes = text.as_bytes();
    let mut at = 0;
    'signs: while at < bytes.len() {
        if !is_sign(bytes[at]) {
            return ends_line(&text[at..]);
        }
        at += 1;
    }
    true
}

/// A sign behind `|` or `>`.
fn is_sign(b: u8) -> bool
    ensures { result ≡ is_sign b }
{
    b == b'+' || b == b'-' || (b'0' <= b && b <= b'9')
}

/// A block text, whose lines are deeper than its key or dash.
fn read_text<'a>(
    alloc: Global,
    line: &Line<'a>,
    rest: &mut Lines<'a>,
    indent: usize,
    floor: usize,
    depth: usize,
) -> Result<Tree<'a>, YamlFault>
    requires { begins_text (row line.now) ≡ true }
    ensures value { Gives node result (text_block indent (row line.now) (front floor rest.old)) }
    ensures told { IfErr result (IsTold (last_number (row line.now ∷ rest.old))) }
    ensures rest { OnOk result (rest.new ≡ after floor rest.old) }
{
    if !is_header(tail(line.content)) {
        return Err(at(line.number, YamlKind::Unsupported));
    }
    while let Some(inside) = rest.next_deeper(floor) {
        if inside.indent <= indent || inside.is_tabbed() {
            return Err(misplaced(alloc, inside, true, depth));
        }
    }
    Ok(quoted_scalar(line.number, Text::borrowed("")))
}

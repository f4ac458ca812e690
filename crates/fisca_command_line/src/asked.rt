//! What the options of a command ask for.

ghost use Rattle.std.specs.Prelude.{◌≡◌, is_some, option_and_then, option_map, codes};
ghost use Rattle.clap.specs.Matches.{found_of};
ghost use Rattle.clap.specs.Walk.{first_of, one_of, rows_of};
ghost use Rattle.fisca_command_line.specs.Asked.{explain_format_at, explain_format_of, format_of, is_set, part_at, text_of, ArePlaces, AreOptions, IsForm, IsOptionalNumber, IsRangeOf, IsStart};
ghost use Rattle.fisca_command_line.specs.Misuse.{explain_form_misuse, explain_misuse, form_misuse, options_misuse, range_misuse};
ghost use Rattle.fisca_forms.specs.LineForms.{places_in};
ghost use Rattle.fisca_grid.specs.Words.{part_of};

use crate::misuse::Misuse;
use crate::options::{RunOptions, TableForm};
use clap::ArgMatches;
use fisca_forms::{Decimals, Format};
use fisca_grid::read_part;
use fisca_writer::{Part, Range};

/// The text of an argument, if it has one.
pub fn text_in<'a>(matches: &ArgMatches<'a>, id: &str) -> Option<&'a str>
    ensures { option_map (λ text. text.now) result ≡ first_of id.now (rows_of (found_of matches.now)) }
{
    matches.get_str(id)
}

/// The text of an argument that has to be given.
pub fn text_at<'a>(matches: &ArgMatches<'a>, id: &str) -> &'a str
    ensures { result.now ≡ text_of id.now (rows_of (found_of matches.now)) }
{
    text_in(matches, id).unwrap_or("")
}

/// Whether an option has a text.
fn is_given(matches: &ArgMatches<'_>, id: &str) -> bool
    ensures { result ≡ is_some (first_of id.now (rows_of (found_of matches.now))) }
{
    text_in(matches, id).is_some()
}

/// Whether a flag is set.
pub fn flag(matches: &ArgMatches<'_>, id: &str) -> bool
    ensures { result ≡ is_set (first_of id.now (rows_of (found_of matches.now))) }
{
    match text_in(matches, id) {
        Some(text) => text == "true",
        None => false,
    }
}

/// The number of an option, if it has one.
fn number_in(matches: &ArgMatches<'_>, id: &str) -> Option<u64>
    ensures { IsOptionalNumber (one_of id.now (rows_of (found_of matches.now))) result }
{
    matches.get_one::<u64>(id)
}

/// The position of `--from`.
fn start(matches: &ArgMatches<'_>) -> u64
    ensures { IsStart (one_of (codes "from") (rows_of (found_of matches.now))) result }
{
    number_in(matches, "from").unwrap_or(0)
}

/// The part that a text says, if it is one.
fn part_in(text: Option<&str>) -> Option<Part>
    ensures { option_map (λ part. (part.number, part.count)) result ≡ option_and_then part_of (option_map (λ text. text.now) text.entry) }
{
    read_part(text?)
}

/// The range that the options say.
fn range_in(matches: &ArgMatches<'_>) -> Range
    ensures { IsRangeOf (part_at (rows_of (found_of matches.now))) (rows_of (found_of matches.now)) result }
{
    match part_in(text_in(matches, "part")) {
        Some(part) => Range::Part(part),
        None => Range::Between {
            from: start(matches),
            to: number_in(matches, "to"),
        },
    }
}

/// The places that a number says, if they are 18 at most.
fn places_of(number: Option<u64>) -> Option<Decimals>
    ensures { option_map (λ decimals. decimals.places) result ≡ option_and_then places_in number }
{
    Decimals::new(number?)
}

/// The places of `--decimals`.
fn decimals_in(matches: &ArgMatches<'_>) -> Option<Decimals>
    ensures { ArePlaces (one_of (codes "decimals") (rows_of (found_of matches.now))) result }
{
    places_of(number_in(matches, "decimals"))
}

/// The form that a text names.
fn read_format(text: &str) -> Option<Format>
    ensures { result ≡ format_of text.now }
{
    match text {
        "tsv" => Some(Format::Tsv),
        "csv" => Some(Format::Csv),
        "jsonl" => Some(Format::Jsonl),
        _ => None,
    }
}

/// The form that a text names, if there is one.
fn format_in(text: Option<&str>) -> Option<Format>
    ensures { result ≡ option_and_then format_of (option_map (λ text. text.now) text.entry) }
{
    read_format(text?)
}

/// The form of lines that the options ask for.
pub fn form_in(matches: &ArgMatches<'_>) -> TableForm
    ensures { IsForm (rows_of (found_of matches.now)) result }
{
    TableForm {
        header: flag(matches, "header"),
        decimals: decimals_in(matches),
        format: format_in(text_in(matches, "format")),
    }
}

/// The levels of `--depth`.
pub fn depth_in(matches: &ArgMatches<'_>) -> Option<u64>
    ensures { IsOptionalNumber (one_of (codes "depth") (rows_of (found_of matches.now))) result }
{
    number_in(matches, "depth")
}

/// The form of an explanation that a text names: that of lines, and none of a text for readers.
fn read_explain_format(text: &str) -> Option<Option<Format>>
    ensures { result ≡ explain_format_of text.now }
{
    match text {
        "text" => Some(None),
        "jsonl" => Some(Some(Format::Jsonl)),
        _ => None,
    }
}

/// The form of an explanation that a text names, if there is one.
fn explain_format(text: Option<&str>) -> Option<Format>
    ensures { result ≡ option_and_then (λ found. found) (option_and_then explain_format_of (option_map (λ text. text.now) text.entry)) }
{
    read_explain_format(text?)?
}

/// The form of an explanation that the options ask for.
pub fn explain_format_in(matches: &ArgMatches<'_>) -> Option<Format>
    ensures { result ≡ explain_format_at (rows_of (found_of matches.now)) }
{
    explain_format(text_in(matches, "format"))
}

/// What the options of a run ask for.
pub fn options(matches: &ArgMatches<'_>) -> RunOptions
    ensures { AreOptions (rows_of (found_of matches.now)) result }
{
    RunOptions {
        range: range_in(matches),
        rows: number_in(matches, "rows"),
        form: form_in(matches),
        keeps_going: flag(matches, "keep-going"),
    }
}

/// Why the options of a range mean nothing, if they do.
fn range_misuse(text: Option<&str>, has_from: bool, has_to: bool) -> Option<Misuse>
    ensures { result ≡ range_misuse (option_map (λ text. text.now) text.entry) has_from has_to }
{
    match read_part(text?) {
        None => Some(Misuse::BadPart),
        Some(_) if has_from => Some(Misuse::PartWithFrom),
        Some(_) if has_to => Some(Misuse::PartWithTo),
        Some(_) => None,
    }
}

/// Why the options of a form mean nothing, if they do.
fn form_misuse(text: Option<&str>, has_header: bool) -> Option<Misuse>
    ensures { result ≡ form_misuse (option_map (λ text. text.now) text.entry) has_header }
{
    match read_format(text?) {
        None => Some(Misuse::BadFormat),
        Some(Format::Jsonl) if has_header => Some(Misuse::HeaderWithJson),
        Some(Format::Tsv | Format::Csv | Format::Jsonl) => None,
    }
}

/// Why options mean nothing, if they do.
pub fn misuse_in(matches: &ArgMatches<'_>) -> Option<Misuse>
    ensures { result ≡ options_misuse (rows_of (found_of matches.now)) }
{
    let (has_from, has_to) = (is_given(matches, "from"), is_given(matches, "to"));
    let in_range = range_misuse(text_in(matches, "part"), has_from, has_to);
    let in_form = form_misuse(text_in(matches, "format"), flag(matches, "header"));
    in_range.or(in_form)
}

/// Why a form of an explanation means nothing, if it does.
fn explain_form_misuse(text: Option<&str>) -> Option<Misuse>
    ensures { result ≡ explain_form_misuse (option_map (λ text. text.now) text.entry) }
{
    match read_explain_format(text?) {
        None => Some(Misuse::BadExplainFormat),
        Some(_) => None,
    }
}

/// Why options of `explain` mean nothing, if they do.
pub fn explain_misuse_in(matches: &ArgMatches<'_>) -> Option<Misuse>
    ensures { result ≡ explain_misuse (rows_of (found_of matches.now)) }
{
    explain_form_misuse(text_in(matches, "format"))
}

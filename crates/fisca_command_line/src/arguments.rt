//! The arguments of the commands, and the options that several commands have.

ghost use Rattle.std.specs.Prelude.{◌≡◌, false, IfOk, codes};
ghost use Rattle.clap.specs.declared.builder.command.Command.TheViews.{out-Command};
ghost use Rattle.clap.specs.Walk.{rule_of};
ghost use Rattle.clap.specs.Simple.{app_of};
ghost use Rattle.fisca_command_line.specs.CommandLine.{axis_rule, column_rule, flag_rule, number_rule, option_rule, places_rule, reform_rule, required_rule, tests_rule, with_files, with_form, with_range, with_table};

use crate::help::{
    AXIS_HELP, AXIS_LONG, COLUMN_HELP, COLUMN_LONG, DECIMALS_HELP, DECIMALS_LONG, DEPTH_HELP,
    DEPTH_LONG, EXPLAIN_FORMAT_HELP, EXPLAIN_FORMAT_LONG, FORMAT_HELP, FORMAT_LONG, FROM_HELP,
    FROM_LONG, HEADER_HELP, HEADER_LONG, KEEP_GOING_HELP, KEEP_GOING_LONG, KEEP_HELP, KEEP_LONG,
    LINES_HELP, LINES_LONG, NAME_HELP, NAME_LONG, PART_HELP, PART_LONG, REFORM_HELP, REFORM_LONG,
    ROWS_HELP, RULES_HELP, TESTS_HELP, TESTS_LONG, TO_HELP, TO_LONG,
};
use clap::builder::ValueParser;
use clap::{Arg, ArgAction, Command, value_parser};
use std::alloc::{AllocError, Global};

/// An option with a whole number from 0 to 2^64-1.
fn number<'a>(alloc: Global, id: &'a str, value: &'a str, help: &'a str) -> Arg<'a>
    ensures rule { rule_of result ≡ number_rule id.entry.now }
    ensures local { result.global ≡ false }
{
    Arg::new(alloc, id)
        .long(id)
        .value_name(value)
        .value_parser(value_parser!(u64))
        .help(help)
}

/// An argument that has to be given.
pub fn required<'a>(alloc: Global, id: &'a str, help: &'a str) -> Arg<'a>
    ensures rule { rule_of result ≡ required_rule id.entry.now }
    ensures local { result.global ≡ false }
{
    Arg::new(alloc, id).required(true).help(help)
}

/// The option `--reform`, which may come several times.
pub fn reform_option<'a>(alloc: Global) -> Arg<'a>
    ensures rule { rule_of result ≡ reform_rule }
    ensures local { result.global ≡ false }
{
    Arg::new(alloc, "reform")
        .long("reform")
        .value_name("DIR")
        .action(ArgAction::Append)
        .help(REFORM_HELP)
        .long_help(REFORM_LONG)
}

/// A command with a rule set, a file, and the reforms.
pub fn with_files<'a>(
    alloc: Global,
    command: Command<'a>,
    help: &'a str,
) -> Result<Command<'a>, AllocError>
    requires { (out-Command command).has_globals ≡ false }
    ensures app { IfOk result (λ made. app_of made ≡ with_files (app_of command.entry)) }
    ensures local { IfOk result (λ made. (out-Command made).has_globals ≡ false) }
{
    let rules = required(alloc, "RULES", RULES_HELP);
    let own = required(alloc, "FILE", help);
    let reform = reform_option(alloc);
    command.arg(rules)?.arg(own)?.arg(reform)
}

/// The files and folders of tests.
pub fn tests_argument<'a>(alloc: Global) -> Arg<'a>
    ensures rule { rule_of result ≡ tests_rule }
    ensures local { result.global ≡ false }
{
    required(alloc, "TESTS", TESTS_HELP)
        .action(ArgAction::Append)
        .num_args(1..)
        .long_help(TESTS_LONG)
}

/// The option `--name`.
pub fn name_option<'a>(alloc: Global) -> Arg<'a>
    ensures rule { rule_of result ≡ option_rule (codes "name") }
    ensures local { result.global ≡ false }
{
    Arg::new(alloc, "name")
        .long("name")
        .value_name("TEXT")
        .help(NAME_HELP)
        .long_help(NAME_LONG)
}

/// The axes of `axes`.
pub fn axis_argument<'a>(alloc: Global) -> Arg<'a>
    ensures rule { rule_of result ≡ axis_rule }
    ensures local { result.global ≡ false }
{
    required(alloc, "AXIS", AXIS_HELP)
        .action(ArgAction::Append)
        .num_args(1..)
        .long_help(AXIS_LONG)
}

/// The condition of `axes`.
pub fn keep_option<'a>(alloc: Global) -> Arg<'a>
    ensures rule { rule_of result ≡ option_rule (codes "keep") }
    ensures local { result.global ≡ false }
{
    Arg::new(alloc, "keep")
        .long("keep")
        .value_name("COND")
        .help(KEEP_HELP)
        .long_help(KEEP_LONG)
}

/// The option `--from`.
fn from_option<'a>(alloc: Global) -> Arg<'a>
    ensures rule { rule_of result ≡ number_rule (codes "from") }
    ensures local { result.global ≡ false }
{
    number(alloc, "from", "P", FROM_HELP).long_help(FROM_LONG)
}

/// The option `--to`.
fn to_option<'a>(alloc: Global) -> Arg<'a>
    ensures rule { rule_of result ≡ number_rule (codes "to") }
    ensures local { result.global ≡ false }
{
    number(alloc, "to", "P", TO_HELP).long_help(TO_LONG)
}

/// The option `--part`.
fn part_option<'a>(alloc: Global) -> Arg<'a>
    ensures rule { rule_of result ≡ option_rule (codes "part") }
    ensures local { result.global ≡ false }
{
    Arg::new(alloc, "part")
        .long("part")
        .value_name("I/N")
        .help(PART_HELP)
        .long_help(PART_LONG)
}

/// A command with the options of a range and its lines.
pub fn with_range<'a>(alloc: Global, command: Command<'a>) -> Result<Command<'a>, AllocError>
    requires { (out-Command command).has_globals ≡ false }
    ensures app { IfOk result (λ made. app_of made ≡ with_range (app_of command.entry)) }
    ensures local { IfOk result (λ made. (out-Command made).has_globals ≡ false) }
{
    let from = from_option(alloc);
    let to = to_option(alloc);
    let part = part_option(alloc);
    let rows = number(alloc, "rows", "N", ROWS_HELP);
    command.arg(from)?.arg(to)?.arg(part)?.arg(rows)
}

/// The option `--decimals`.
fn decimals_option<'a>(alloc: Global) -> Arg<'a>
    ensures rule { rule_of result ≡ places_rule (codes "decimals") }
    ensures local { result.global ≡ false }
{
    Arg::new(alloc, "decimals")
        .long("decimals")
        .value_name("N")
        .value_parser(ValueParser::Unsigned(0, 18))
        .help(DECIMALS_HELP)
        .long_help(DECIMALS_LONG)
}

/// The option `--header`.
fn header_option<'a>(alloc: Global) -> Arg<'a>
    ensures rule { rule_of result ≡ flag_rule (codes "header") }
    ensures local { result.global ≡ false }
{
    Arg::new(alloc, "header")
        .long("header")
        .action(ArgAction::SetTrue)
        .help(HEADER_HELP)
        .long_help(HEADER_LONG)
}

/// The option `--format`.
fn format_option<'a>(alloc: Global) -> Arg<'a>
    ensures rule { rule_of result ≡ option_rule (codes "format") }
    ensures local { result.global ≡ false }
{
    Arg::new(alloc, "format")
        .long("format")
        .value_name("FORM")
        .help(FORMAT_HELP)
        .long_help(FORMAT_LONG)
}

/// The columns of `explain`.
pub fn column_argument<'a>(alloc: Global) -> Arg<'a>
    ensures rule { rule_of result ≡ column_rule }
    ensures local { result.global ≡ false }
{
    Arg::new(alloc, "COLUMN")
        .action(ArgAction::Append)
        .num_args(0..)
        .help(COLUMN_HELP)
        .long_help(COLUMN_LONG)
}

/// The option `--depth`.
pub fn depth_option<'a>(alloc: Global) -> Arg<'a>
    ensures rule { rule_of result ≡ number_rule (codes "depth") }
    ensures local { result.global ≡ false }
{
    number(alloc, "depth", "N", DEPTH_HELP).long_help(DEPTH_LONG)
}

/// The option `--format` of `explain`.
pub fn explain_format_option<'a>(alloc: Global) -> Arg<'a>
    ensures rule { rule_of result ≡ option_rule (codes "format") }
    ensures local { result.global ≡ false }
{
    Arg::new(alloc, "format")
        .long("format")
        .value_name("FORM")
        .help(EXPLAIN_FORMAT_HELP)
        .long_help(EXPLAIN_FORMAT_LONG)
}

/// The option `--keep-going`.
pub fn keep_going_option<'a>(alloc: Global) -> Arg<'a>
    ensures rule { rule_of result ≡ flag_rule (codes "keep-going") }
    ensures local { result.global ≡ false }
{
    Arg::new(alloc, "keep-going")
        .long("keep-going")
        .action(ArgAction::SetTrue)
        .help(KEEP_GOING_HELP)
        .long_help(KEEP_GOING_LONG)
}

/// The option `--lines`.
pub fn lines_option<'a>(alloc: Global) -> Arg<'a>
    ensures rule { rule_of result ≡ flag_rule (codes "lines") }
    ensures local { result.global ≡ false }
{
    Arg::new(alloc, "lines")
        .long("lines")
        .action(ArgAction::SetTrue)
        .help(LINES_HELP)
        .long_help(LINES_LONG)
}

/// A command with the options of a table without numbers.
pub fn with_table<'a>(alloc: Global, command: Command<'a>) -> Result<Command<'a>, AllocError>
    requires { (out-Command command).has_globals ≡ false }
    ensures app { IfOk result (λ made. app_of made ≡ with_table (app_of command.entry)) }
    ensures local { IfOk result (λ made. (out-Command made).has_globals ≡ false) }
{
    let header = header_option(alloc);
    let format = format_option(alloc);
    command.arg(header)?.arg(format)
}

/// A command with the options of a form of lines.
pub fn with_form<'a>(alloc: Global, command: Command<'a>) -> Result<Command<'a>, AllocError>
    requires { (out-Command command).has_globals ≡ false }
    ensures app { IfOk result (λ made. app_of made ≡ with_form (app_of command.entry)) }
    ensures local { IfOk result (λ made. (out-Command made).has_globals ≡ false) }
{
    let header = header_option(alloc);
    let decimals = decimals_option(alloc);
    let format = format_option(alloc);
    command.arg(header)?.arg(decimals)?.arg(format)
}

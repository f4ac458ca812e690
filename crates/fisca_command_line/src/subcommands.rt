//! The commands of the program, as `clap` takes them.

ghost use Rattle.std.specs.Prelude.{◌≡◌, false, IfOk, codes};
ghost use Rattle.clap.specs.declared.builder.command.Command.TheViews.{out-Command};
ghost use Rattle.clap.specs.Simple.{app_of, new_app};
ghost use Rattle.fisca_command_line.specs.CommandLine.{axes_app, calc_app, check_app, explain_app, fisca_app, list_app, run_app, size_app, test_app, top_app};

use crate::arguments::{
    axis_argument, column_argument, depth_option, explain_format_option, keep_going_option,
    keep_option, lines_option, name_option, reform_option, required, tests_argument, with_files,
    with_form, with_range, with_table,
};
use crate::help::{
    ABOUT, AXES_ABOUT, AXES_EXAMPLE, AXES_EXAMPLES, AXES_LONG, CALC_ABOUT, CALC_EXAMPLE, CALC_LONG,
    CALC_MORE, CHECK_ABOUT, CHECK_EXAMPLE, CHECK_LONG, CHECK_MORE, EXPLAIN_ABOUT, EXPLAIN_EXAMPLE,
    EXPLAIN_LONG, EXPLAIN_MORE, FILE_HELP, LIST_ABOUT, LIST_EXAMPLE, LIST_LONG, LIST_MORE,
    RULES_HELP, RUN_ABOUT, RUN_EXAMPLE, RUN_FILE_HELP, RUN_LONG, RUN_MORE, SIZE_ABOUT,
    SIZE_EXAMPLE, SIZE_LONG, SIZE_MORE, STATUSES, TEST_ABOUT, TEST_EXAMPLE, TEST_LONG, TEST_MORE,
};
use clap::Command;
use std::alloc::{AllocError, Global};

/// The command `axes` with its help, and no arguments yet.
fn axes_page<'a>(alloc: Global) -> Command<'a>
    ensures app { app_of result ≡ new_app (codes "axes") }
    ensures local { (out-Command result).has_globals ≡ false }
{
    Command::new(alloc, "axes")
        .about(AXES_ABOUT)
        .long_about(AXES_LONG)
        .after_help(AXES_EXAMPLE)
        .after_long_help(AXES_EXAMPLES)
}

/// The command `axes`.
pub fn axes_command<'a>(alloc: Global) -> Result<Command<'a>, AllocError>
    ensures app { IfOk result (λ command. app_of command ≡ axes_app) }
    ensures local { IfOk result (λ command. (out-Command command).has_globals ≡ false) }
{
    let axis = axis_argument(alloc);
    let keep = keep_option(alloc);
    let command = with_range(alloc, axes_page(alloc).arg(axis)?.arg(keep)?)?;
    with_form(alloc, command)
}

/// The command `check` with its help, and no arguments yet.
fn check_page<'a>(alloc: Global) -> Command<'a>
    ensures app { app_of result ≡ new_app (codes "check") }
    ensures local { (out-Command result).has_globals ≡ false }
{
    Command::new(alloc, "check")
        .about(CHECK_ABOUT)
        .long_about(CHECK_LONG)
        .after_help(CHECK_EXAMPLE)
        .after_long_help(CHECK_MORE)
}

/// The command `check`.
fn check_command<'a>(alloc: Global) -> Result<Command<'a>, AllocError>
    ensures app { IfOk result (λ command. app_of command ≡ check_app) }
    ensures local { IfOk result (λ command. (out-Command command).has_globals ≡ false) }
{
    let rules = required(alloc, "RULES", RULES_HELP);
    let reform = reform_option(alloc);
    check_page(alloc).arg(rules)?.arg(reform)
}

/// The command `calc` with its help, and no arguments yet.
fn calc_page<'a>(alloc: Global) -> Command<'a>
    ensures app { app_of result ≡ new_app (codes "calc") }
    ensures local { (out-Command result).has_globals ≡ false }
{
    Command::new(alloc, "calc")
        .about(CALC_ABOUT)
        .long_about(CALC_LONG)
        .after_help(CALC_EXAMPLE)
        .after_long_help(CALC_MORE)
}

/// The command `calc`.
pub fn calc_command<'a>(alloc: Global) -> Result<Command<'a>, AllocError>
    ensures app { IfOk result (λ command. app_of command ≡ calc_app) }
    ensures local { IfOk result (λ command. (out-Command command).has_globals ≡ false) }
{
    let lines = lines_option(alloc);
    let command = with_files(alloc, calc_page(alloc), FILE_HELP)?;
    with_form(alloc, command)?.arg(lines)
}

/// The command `test` with its help, and no arguments yet.
fn test_page<'a>(alloc: Global) -> Command<'a>
    ensures app { app_of result ≡ new_app (codes "test") }
    ensures local { (out-Command result).has_globals ≡ false }
{
    Command::new(alloc, "test")
        .about(TEST_ABOUT)
        .long_about(TEST_LONG)
        .after_help(TEST_EXAMPLE)
        .after_long_help(TEST_MORE)
}

/// The command `test`.
fn test_command<'a>(alloc: Global) -> Result<Command<'a>, AllocError>
    ensures app { IfOk result (λ command. app_of command ≡ test_app) }
    ensures local { IfOk result (λ command. (out-Command command).has_globals ≡ false) }
{
    let rules = required(alloc, "RULES", RULES_HELP);
    let (tests, name) = (tests_argument(alloc), name_option(alloc));
    let reform = reform_option(alloc);
    test_page(alloc)
        .arg(rules)?
        .arg(tests)?
        .arg(name)?
        .arg(reform)
}

/// The command `run` with its help, and no arguments yet.
fn run_page<'a>(alloc: Global) -> Command<'a>
    ensures app { app_of result ≡ new_app (codes "run") }
    ensures local { (out-Command result).has_globals ≡ false }
{
    Command::new(alloc, "run")
        .about(RUN_ABOUT)
        .long_about(RUN_LONG)
        .after_help(RUN_EXAMPLE)
        .after_long_help(RUN_MORE)
}

/// The command `run`.
pub fn run_command<'a>(alloc: Global) -> Result<Command<'a>, AllocError>
    ensures app { IfOk result (λ command. app_of command ≡ run_app) }
    ensures local { IfOk result (λ command. (out-Command command).has_globals ≡ false) }
{
    let going = keep_going_option(alloc);
    let command = with_files(alloc, run_page(alloc), RUN_FILE_HELP)?;
    let command = with_range(alloc, command)?;
    with_form(alloc, command)?.arg(going)
}

/// The command `size` with its help, and no arguments yet.
fn size_page<'a>(alloc: Global) -> Command<'a>
    ensures app { app_of result ≡ new_app (codes "size") }
    ensures local { (out-Command result).has_globals ≡ false }
{
    Command::new(alloc, "size")
        .about(SIZE_ABOUT)
        .long_about(SIZE_LONG)
        .after_help(SIZE_EXAMPLE)
        .after_long_help(SIZE_MORE)
}

/// The command `size`.
fn size_command<'a>(alloc: Global) -> Result<Command<'a>, AllocError>
    ensures app { IfOk result (λ command. app_of command ≡ size_app) }
    ensures local { IfOk result (λ command. (out-Command command).has_globals ≡ false) }
{
    with_files(alloc, size_page(alloc), RUN_FILE_HELP)
}

/// The command `list` with its help, and no arguments yet.
fn list_page<'a>(alloc: Global) -> Command<'a>
    ensures app { app_of result ≡ new_app (codes "list") }
    ensures local { (out-Command result).has_globals ≡ false }
{
    Command::new(alloc, "list")
        .about(LIST_ABOUT)
        .long_about(LIST_LONG)
        .after_help(LIST_EXAMPLE)
        .after_long_help(LIST_MORE)
}

/// The command `list`.
pub fn list_command<'a>(alloc: Global) -> Result<Command<'a>, AllocError>
    ensures app { IfOk result (λ command. app_of command ≡ list_app) }
    ensures local { IfOk result (λ command. (out-Command command).has_globals ≡ false) }
{
    let rules = required(alloc, "RULES", RULES_HELP);
    let reform = reform_option(alloc);
    with_table(alloc, list_page(alloc).arg(rules)?.arg(reform)?)
}

/// The command `explain` with its help, and no arguments yet.
fn explain_page<'a>(alloc: Global) -> Command<'a>
    ensures app { app_of result ≡ new_app (codes "explain") }
    ensures local { (out-Command result).has_globals ≡ false }
{
    Command::new(alloc, "explain")
        .about(EXPLAIN_ABOUT)
        .long_about(EXPLAIN_LONG)
        .after_help(EXPLAIN_EXAMPLE)
        .after_long_help(EXPLAIN_MORE)
}

/// The command `explain`.
pub fn explain_command<'a>(alloc: Global) -> Result<Command<'a>, AllocError>
    ensures app { IfOk result (λ command. app_of command ≡ explain_app) }
    ensures local { IfOk result (λ command. (out-Command command).has_globals ≡ false) }
{
    let columns = column_argument(alloc);
    let depth = depth_option(alloc);
    let format = explain_format_option(alloc);
    let command = with_files(alloc, explain_page(alloc), FILE_HELP)?;
    command.arg(columns)?.arg(depth)?.arg(format)
}

/// The program with its help, and no commands yet.
fn program_page<'a>(alloc: Global) -> Command<'a>
    ensures app { app_of result ≡ top_app }
    ensures local { (out-Command result).has_globals ≡ false }
{
    Command::new(alloc, "fisca")
        .about(ABOUT)
        .version("0.2.0")
        .after_help(STATUSES)
        .subcommand_required(true)
        .arg_required_else_help(true)
}

/// The whole command line.
pub fn command<'a>(alloc: Global) -> Result<Command<'a>, AllocError>
    ensures app { IfOk result (λ command. app_of command ≡ fisca_app) }
    ensures local { IfOk result (λ command. (out-Command command).has_globals ≡ false) }
{
    let check = check_command(alloc)?;
    let calc = calc_command(alloc)?;
    let test = test_command(alloc)?;
    let run = run_command(alloc)?;
    let size = size_command(alloc)?;
    let list = list_command(alloc)?;
    let explain = explain_command(alloc)?;
    let axes = axes_command(alloc)?;
    program_page(alloc)
        .subcommand(check)?
        .subcommand(calc)?
        .subcommand(test)?
        .subcommand(run)?
        .subcommand(size)?
        .subcommand(list)?
        .subcommand(explain)?
        .subcommand(axes)
}

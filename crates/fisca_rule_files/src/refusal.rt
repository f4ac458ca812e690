//! Why a command was refused.

ghost use Rattle.std.specs.Prelude.{◌≡◌, ◌++◌, IfOk, OnOk, string_bytes};
ghost use Rattle.fisca_rule_files.specs.Refusal.{number_of, status_of, reason_of, place_in, place_of, position_in, key_in, key_of, line_of, paths_of};

use fisca_ast::FormulaKind;
use fisca_columns::RunFileFault;
use fisca_folder::{ToldPath, told_path, write_shown};
use fisca_grid::AxesFault;
use fisca_model::EvalFault;
use fisca_params::ParamFault;
use fisca_test_file::TestFault;
use fisca_writer::RunFault;
use fisca_yaml::YamlFault;
use std::alloc::{AllocError, AllocFailed, Global};
use std::convert::Infallible;
use std::fmt::Write;
use thiserror::Error;

/// A key that has no value: why, and its text.
#[derive(Debug, Drop, PartialEq, Eq)]
pub struct Unanswered {
    /// The fault, which names the key.
    pub fault: EvalFault,
    /// The text of that key: the variable, the member's name and the period, with single spaces between them.
    pub key: String,
}

/// Why a command was refused, by the stage that refused it.
#[derive(Debug, Drop, PartialEq, Eq, Error)]
#[error("{}", self.reason())]
pub enum Refusal {
    /// 1: a parameter file is refused: its path, the line of the fault, counted from 1, and the fault.
    Params {
        path: String,
        line: usize,
        fault: ParamFault,
    },
    /// 2: a module is refused: its path, the line of the fault, counted from 1, and the fault's kind.
    Formula {
        path: String,
        line: usize,
        kind: FormulaKind,
    },
    /// 3: the command's own file is not of the YAML that is read: the fault, with its line.
    Yaml(YamlFault),
    /// 4: the command's own file is refused: the fault, with its line.
    RunFile(RunFileFault),
    /// 5: the file of tests is refused: the fault, with its line.
    Tests(TestFault),
    /// 6: the axes make no grid.
    Axes(AxesFault),
    /// 7: a word describes no axis.
    BadWord,
    /// 8: a text states no condition on an axis.
    BadCondition,
    /// 9: the run stopped.
    Run(RunFault<Unanswered>),
    /// 10: a column has no value.
    Eval(Unanswered),
    /// 11: the output could not be written, outside a run.
    Write,
    /// 12: memory was refused outside the run.
    Memory,
    /// 13: a rule set has more than 1,000 files.
    TooManyFiles,
}

impl From<AllocError> for Refusal {
    ghost use Rattle.fisca_rule_files.specs.declared.refusal.Refusal.TheVariants.{Memory};

    ghost from_gives = { λ _ refusal. refusal ≡ Memory };

    fn from(_error: AllocError) -> Refusal {
        Refusal::Memory
    }
}

impl From<RunFault<Infallible>> for Refusal {
    ghost use Rattle.fisca_rule_files.specs.Refusal.{of_axes};

    ghost from_gives = { λ fault refusal. refusal ≡ of_axes fault };

    // the rows of axes are never faults
    fn from(fault: RunFault<Infallible>) -> Refusal {
        match fault {
            RunFault::BadPosition => Refusal::Run(RunFault::BadPosition),
            RunFault::Eval { fault, .. } => match fault {},
            RunFault::Write { position } => Refusal::Run(RunFault::Write { position }),
            RunFault::Memory { position } => Refusal::Run(RunFault::Memory { position }),
        }
    }
}

impl<T: Drop> From<AllocFailed<T>> for Refusal {
    ghost use Rattle.fisca_rule_files.specs.declared.refusal.Refusal.TheVariants.{Memory};

    ghost from_gives = { λ _ refusal. refusal ≡ Memory };

    fn from(_error: AllocFailed<T>) -> Refusal {
        Refusal::Memory
    }
}

/// Appends a path and a line of its file.
fn write_path(path: &str, number: usize, line: &mut String) -> Result<(), AllocError>
    ensures { OnOk result (string_bytes line.new ≡ string_bytes line.old ++ place_in path.now number) }
{
    write_shown(path, line)?;
    match write!(line, ":{number}: ") {
        Ok(()) => Ok(()),
        Err(_) => Err(AllocError),
    }
}

/// Appends a position of a run.
fn write_position(position: u64, line: &mut String) -> Result<(), AllocError>
    ensures { OnOk result (string_bytes line.new ≡ string_bytes line.old ++ position_in position) }
{
    match write!(line, "position {position}: ") {
        Ok(()) => Ok(()),
        Err(_) => Err(AllocError),
    }
}

/// Appends a space and the text of a key, as a line shows it.
fn write_key_of(unanswered: &Unanswered, line: &mut String) -> Result<(), AllocError>
    ensures { OnOk result (string_bytes line.new ≡ string_bytes line.old ++ key_in unanswered.now) }
{
    line.push(' ')?;
    write_shown(unanswered.key.as_str(), line)
}

impl Refusal {
    /// The number of the refusal's stage, from 1 to 13.
    pub fn number(&self) -> u8
        ensures { result ≡ number_of self.now }
    {
        match self {
            Refusal::Params { .. } => 1,
            Refusal::Formula { .. } => 2,
            Refusal::Yaml(_) => 3,
            Refusal::RunFile(_) => 4,
            Refusal::Tests(_) => 5,
            Refusal::Axes(_) => 6,
            Refusal::BadWord => 7,
            Refusal::BadCondition => 8,
            Refusal::Run(_) => 9,
            Refusal::Eval(_) => 10,
            Refusal::Write => 11,
            Refusal::Memory => 12,
            Refusal::TooManyFiles => 13,
        }
    }

    /// The exit status of the program: 3 where a rule file, the command's own file, a word, the axes, the condition or the position is
    /// refused, 4 after an evaluation fault, 5 after a failed write, 6 for want of memory.
    pub fn status(&self) -> u8
        ensures { result ≡ status_of self.now }
    {
        match self {
            Refusal::Params { .. } | Refusal::Formula { .. } | Refusal::TooManyFiles => 3,
            Refusal::Yaml(_) | Refusal::RunFile(_) | Refusal::Tests(_) => 3,
            Refusal::Axes(AxesFault::Memory) => 6,
            Refusal::Axes(_) | Refusal::BadWord | Refusal::BadCondition => 3,
            Refusal::Run(RunFault::BadPosition) => 3,
            Refusal::Run(RunFault::Eval { .. }) => 4,
            Refusal::Run(RunFault::Write { .. }) => 5,
            Refusal::Run(RunFault::Memory { .. }) => 6,
            Refusal::Eval(_) => 4,
            Refusal::Write => 5,
            Refusal::Memory => 6,
        }
    }

    /// What the line on standard error gives as the reason: the plain name of the innermost fault, but of output and memory.
    pub fn reason(&self) -> &'static str
        ensures { result.now ≡ reason_of self.now }
    {
        match self {
            Refusal::Params { fault, .. } => fault.name(),
            Refusal::Formula { kind, .. } => kind.name(),
            Refusal::Yaml(fault) => fault.kind.name(),
            Refusal::RunFile(fault) => fault.kind.name(),
            Refusal::Tests(fault) => fault.kind.name(),
            Refusal::Axes(AxesFault::Memory) => "out of memory",
            Refusal::Axes(fault) => fault.name(),
            Refusal::BadWord => "BadWord",
            Refusal::BadCondition => "BadCondition",
            Refusal::Run(RunFault::BadPosition) => "BadPosition",
            Refusal::Run(RunFault::Eval { fault, .. }) => fault.fault.name(),
            Refusal::Run(RunFault::Write { .. }) => "write failed",
            Refusal::Run(RunFault::Memory { .. }) => "out of memory",
            Refusal::Eval(unanswered) => unanswered.fault.name(),
            Refusal::Write => "write failed",
            Refusal::Memory => "out of memory",
            Refusal::TooManyFiles => "TooManyFiles",
        }
    }

    /// The line on standard error, without its line feed. `path` names the command's own file, of which `Yaml`, `RunFile` and `Tests` tell, and
    /// `told_paths` says how the paths of rule files are told, as `Params` and `Formula` do; other refusals speak of no file. Memory is its only error.
    pub fn line(
        &self,
        alloc: Global,
        path: &str,
        told_paths: &[ToldPath],
    ) -> Result<String, AllocError>
        ensures { IfOk result (λ line. string_bytes line ≡ line_of (paths_of path.now told_paths.now) self.now) }
    {
        let mut line = String::new(alloc);
        line.push_str("fisca: ")?;
        self.write_place(path, told_paths, &mut line)?;
        line.push_str(self.reason())?;
        self.write_key(&mut line)?;
        Ok(line)
    }

    /// Appends where the fault of a file or of a run stands, and nothing for other refusals.
    fn write_place(
        &self,
        path: &str,
        told_paths: &[ToldPath],
        line: &mut String,
    ) -> Result<(), AllocError>
        ensures { OnOk result (string_bytes line.new ≡ string_bytes line.old ++ place_of (paths_of path.now told_paths.now) self.now) }
    {
        match self {
            Refusal::Params {
                path: rule_path,
                line: number,
                ..
            }
            | Refusal::Formula {
                path: rule_path,
                line: number,
                ..
            } => write_path(told_path(told_paths, rule_path.as_str()), *number, line),
            Refusal::Yaml(fault) => write_path(path, fault.line, line),
            Refusal::RunFile(fault) => write_path(path, fault.line, line),
            Refusal::Tests(fault) => write_path(path, fault.line, line),
            Refusal::Run(RunFault::Eval { position, .. }) => write_position(*position, line),
            Refusal::Axes(_)
            | Refusal::BadWord
            | Refusal::BadCondition
            | Refusal::Run(RunFault::BadPosition)
            | Refusal::Run(RunFault::Write { .. })
            | Refusal::Run(RunFault::Memory { .. })
            | Refusal::Eval(_)
            | Refusal::Write
            | Refusal::Memory
            | Refusal::TooManyFiles => Ok(()),
        }
    }

    /// Appends a space and the key that a fault is told of, and nothing for other refusals.
    fn write_key(&self, line: &mut String) -> Result<(), AllocError>
        ensures { OnOk result (string_bytes line.new ≡ string_bytes line.old ++ key_of self.now) }
    {
        match self {
            Refusal::Run(RunFault::Eval { fault, .. }) => write_key_of(fault, line),
            Refusal::Eval(unanswered) => write_key_of(unanswered, line),
            Refusal::Params { .. }
            | Refusal::Formula { .. }
            | Refusal::Yaml(_)
            | Refusal::RunFile(_)
            | Refusal::Tests(_)
            | Refusal::Axes(_)
            | Refusal::BadWord
            | Refusal::BadCondition
            | Refusal::Run(RunFault::BadPosition)
            | Refusal::Run(RunFault::Write { .. })
            | Refusal::Run(RunFault::Memory { .. })
            | Refusal::Write
            | Refusal::Memory
            | Refusal::TooManyFiles => Ok(()),
        }
    }
}

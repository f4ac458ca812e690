//! What `--help` says.

pub const ABOUT: &str = "Run OpenFisca rules with exact fractions";

pub const STATUSES: &str = "Exit status:
  0  done
  1  a test failed
  2  the command line is wrong
  3  a rule file, the file of the command, an axis, the condition, the position or a column is refused
  4  a value cannot be worked out
  5  a file could not be read, or the output could not be written
  6  out of memory

'fisca help COMMAND' says more of a command.
'fisca help WORD' tells what the word of a refusal means, such as BadIndent, and what to do.";

pub const CHECK_ABOUT: &str = "Check the rule files of a folder";

pub const CHECK_LONG: &str = "Check the rule files of a folder, and print what they hold.

It reads the parameter files, parameters/**/*.yaml and .yml, and then the modules, entities.py and
variables/**/*.py, at most 8 folders deep, each in the order of their paths, builds the rule set
that they make together, and prints one line: entities E, variables V, parameters P. What is
refused is told by one line on standard error: fisca: PATH:LINE: FAULT.";

pub const CHECK_EXAMPLE: &str = "Example:
  fisca check examples/housing";

pub const CHECK_MORE: &str = "Example:
  fisca check examples/housing

FAULT is a word:
  of a parameter file  Tab, BadIndent, DuplicateKey, BadFlow, BadQuote, Unsupported, TooDeep or
                       TooLong (no YAML that is read); BadParameter, DuplicateName
  of a module          Syntax, Indent, Unsupported, UnknownName, UnknownVariable, UnknownParameter,
                       BadType, BadLevel, BadAttribute, DuplicateName, TooDeep, TooLong
  of all files         TooManyFiles, with no path

Exit status:
  0  done
  2  the command line is wrong
  3  a rule file is refused
  5  a file could not be read, or the output could not be written
  6  out of memory";

pub const CALC_ABOUT: &str = "Work out values";

pub const CALC_LONG: &str =
    "Work out values, one line each: the variable, the member, the period and the value, with tabs between them.

It reads the rule files of the folder as 'fisca check' does, and then the file, a map of these keys,
of which each may be absent:

period   the period that values and columns without one have
input    what is known of the persons and their groups
columns  what is worked out: NAME, NAME#INDEX, NAME@PERIOD or NAME#INDEX@PERIOD, one or a list

Values are exact: a number is printed as a decimal where it has one, such as 0.5, and else as a
fraction, such as 1/3. What is refused is told by one line on standard error, such as
fisca: PATH:LINE: FAULT, and of a value that cannot be worked out fisca: FAULT KEY, behind the lines
of those before it.";

pub const CALC_EXAMPLE: &str = "Example:
  fisca calc examples/housing examples/housing/family.yaml";

pub const CALC_MORE: &str = "Example:
  fisca calc examples/housing examples/housing/family.yaml

FAULT is a word:
  of a rule file       see 'fisca check --help'
  of the file's YAML   Tab, BadIndent, DuplicateKey, BadFlow, BadQuote, Unsupported, TooDeep, TooLong
  of the file          BadKey, BadColumn
  of its input         UnknownEntity, UnknownVariable, UnknownPerson, PersonTwice, RoleFull,
                       BadValue, PeriodMismatch, InconsistentInput, TooMany
  of a value           ZeroDivisor, TooWide, ParameterUndefined, BadScale, NoMember, PeriodOutOfRange,
                       PeriodMismatch, Cycle, TooDeep; KEY is the variable, the member and the period

Exit status:
  0  done
  2  the command line is wrong
  3  a rule file or the file is refused
  4  a value cannot be worked out
  5  a file could not be read, or the output could not be written
  6  out of memory";

pub const TEST_ABOUT: &str = "Run tests of rules";

pub const TEST_LONG: &str =
    "Run the tests of files and folders, and tell of each whether it passed: ok NAME, or failed NAME and
below it a line for each value that is not as expected. The last line is: passed P, failed F.

It reads the rule files of the folder as 'fisca check' does, and then each file, a test or a list of
tests. Each is a map of these keys, of which only output has to be there:

name, description, keywords   what the test is about; one without a name is told by its number
period                        the period that values without one have
input                         what is known of the persons and their groups
output                        the values that are expected
only_variables                variables whose values alone are compared, one or a list
ignore_variables              variables whose values are not compared, one or a list
absolute_error_margin         how far a number may be off
relative_error_margin         how far, as a share of the expected number

Where there are both margins, both hold. What is refused is told by one line on standard error,
such as fisca: PATH:LINE: FAULT, and no test of a file is run before all of it are read. The first
file that is refused ends the run.";

pub const TEST_EXAMPLE: &str = "Example:
  fisca test examples/housing examples/housing/tests.yaml";

pub const TEST_MORE: &str = "Example:
  fisca test examples/housing examples/housing/tests.yaml

FAULT is a word:
  of a rule file       see 'fisca check --help'
  of the file's YAML   Tab, BadIndent, DuplicateKey, BadFlow, BadQuote, Unsupported, TooDeep, TooLong
  of a test            BadTest, BadOutput; UseReform (it names reforms or extensions: use --reform)
  of its input         UnknownEntity, UnknownVariable, UnknownPerson, PersonTwice, RoleFull,
                       BadValue, PeriodMismatch, InconsistentInput, TooMany
A value that cannot be worked out fails its test, and its word stands where the value would.

Exit status:
  0  done
  1  a test failed
  2  the command line is wrong
  3  a rule file or a file of tests is refused
  5  a file could not be read, or the output could not be written
  6  out of memory";

pub const RUN_ABOUT: &str = "Write the lines of a grid of situations";

pub const RUN_LONG: &str =
    "Write the lines of a grid of situations, one for each position at which all conditions hold: the
position, the values of the axes and those of the columns, with tabs between them.

It reads the rule files of the folder as 'fisca check' does, and then the file, a map of these keys,
of which only axes has to be there:

axes        a list of groups, each a list of axes, each a map of name, count, min and max, and
            perhaps period and index: a variable of numbers, how many values it has from min to
            max, and the number of the member. The axes of a group move together; the first group
            turns fastest
period      the period that values, axes, columns and conditions without one have
input       what is known of the persons and their groups
filter      conditions, such as salary >= 500, one or a list
columns     what is worked out: NAME, NAME#INDEX, NAME@PERIOD or NAME#INDEX@PERIOD, one or a list
neutralize  variables that always have their default, one or a list

The last line is 'end' where no position is left, and 'more P' where --rows or --to ended the run: the
same command with --from P writes the rest. What is refused is told by one line on standard error,
such as fisca: PATH:LINE: FAULT, and of a value that cannot be worked out fisca: position P: FAULT
KEY, behind the lines before it.";

pub const RUN_EXAMPLE: &str = "Example:
  fisca run examples/housing examples/housing/grid.yaml --rows 2";

pub const RUN_MORE: &str = "Example:
  fisca run examples/housing examples/housing/grid.yaml --rows 2

FAULT is a word:
  of a rule file       see 'fisca check --help'
  of the file's YAML   Tab, BadIndent, DuplicateKey, BadFlow, BadQuote, Unsupported, TooDeep, TooLong
  of the file          BadKey, BadNeutral, BadColumn, BadCondition
  of its input         UnknownEntity, UnknownVariable, UnknownPerson, PersonTwice, RoleFull,
                       BadValue, PeriodMismatch, InconsistentInput, TooMany
  of its axes          NoAxes, BadCount, BadBound, CountsDiffer, TooLarge, UnknownVariable, BadIndex,
                       PeriodMismatch, AxisOverlap
  of a value           ZeroDivisor, TooWide, ParameterUndefined, BadScale, NoMember, PeriodOutOfRange,
                       PeriodMismatch, Cycle, TooDeep; KEY is the variable, the member and the period
BadPosition, with no path, says that P of --from or --to is above the number of positions.

Exit status:
  0  done
  2  the command line is wrong
  3  a rule file, the file or the position is refused
  4  a value cannot be worked out
  5  a file could not be read, or the output could not be written
  6  out of memory";

pub const SIZE_ABOUT: &str = "Count the positions of a grid";

pub const SIZE_LONG: &str =
    "Count the positions of the grid of a file of 'fisca run', and print their number.

It reads the rule files of the folder and the file as 'fisca run' does, and refuses what that does;
nothing is worked out.";

pub const SIZE_EXAMPLE: &str = "Example:
  fisca size examples/housing examples/housing/grid.yaml";

pub const SIZE_MORE: &str = "Example:
  fisca size examples/housing examples/housing/grid.yaml

FAULT is a word: see 'fisca run --help'

Exit status:
  0  done
  2  the command line is wrong
  3  a rule file or the file is refused
  5  a file could not be read, or the output could not be written
  6  out of memory";

pub const LIST_ABOUT: &str = "List the variables of a rule set";

pub const LIST_LONG: &str =
    "List the variables of a rule set, one line each, in the order in which its modules declare them.

It reads the rule files of the folder as 'fisca check' does, and refuses what that does; nothing is
worked out. A line has these cells, with tabs between them; unit and label may be empty:

variable           the name
entity             the key of the entity that has its values
value_type         float, int, bool, date or str, or the name of its Enum
definition_period  day, month, year or eternity
formulas           the first day of each of its formulas, or 'input' where it has none
unit               what its values are counted in
label              what is told of it
declared           MODULE:LINE, where it begins";

pub const LIST_EXAMPLE: &str = "Example:
  fisca list examples/housing --header";

pub const LIST_MORE: &str = "Example:
  fisca list examples/housing --header

FAULT is a word: see 'fisca check --help'

Exit status:
  0  done
  2  the command line is wrong
  3  a rule file is refused
  5  a file could not be read, or the output could not be written
  6  out of memory";

pub const EXPLAIN_ABOUT: &str = "Tell how values come about";

pub const EXPLAIN_LONG: &str =
    "Tell how the values of columns come about, one line for each variable, member and period.

It reads the rule files and the file as 'fisca calc' does, and explains each column of the file, or
those that are named, one after another. A line tells the value and what it comes from: an input, a
default, or the formula in force with its file and line. Below it, two spaces further in, stands
what that formula needed, in order: the values that it asked for, and the parameters and scales
that it read, with the day, the value, and where that stands. What was explained further up says
'above'. A value that cannot be worked out is explained up to its fault, which is told as by
'fisca calc'.";

pub const EXPLAIN_EXAMPLE: &str = "Example:
  fisca explain examples/housing examples/housing/family.yaml housing_benefit";

pub const EXPLAIN_MORE: &str = "Example:
  fisca explain examples/housing examples/housing/family.yaml housing_benefit

FAULT is a word: see 'fisca calc --help'; BadWord, with no path, where COLUMN names no value

Exit status:
  0  done
  2  the command line is wrong
  3  a rule file, the file or a column is refused
  4  a value cannot be worked out
  5  a file could not be read, or the output could not be written
  6  out of memory";

pub const COLUMN_HELP: &str = "What is explained, in place of the columns of the file";

pub const COLUMN_LONG: &str = "What is explained, in place of the columns of the file

NAME, NAME#INDEX, NAME@PERIOD or NAME#INDEX@PERIOD, as in the file: the variable, the place of the
member from 0 on, and the period, which is that of the file without one.";

pub const DEPTH_HELP: &str = "Explain no further than N values below one another";

pub const DEPTH_LONG: &str = "Explain no further than N values below one another

With 0 the columns alone are told, with 1 what their formulas needed, and so on.";

pub const EXPLAIN_FORMAT_HELP: &str = "Write text or jsonl [default: text]";

pub const EXPLAIN_FORMAT_LONG: &str = "Write text or jsonl [default: text]

text   for readers
jsonl  an object of JSON in each line, with the keys depth, kind (key, parameter or scale), name,
       member, period, base, value, fault, source, since, file, line, unit, label and reference";

pub const TESTS_HELP: &str = "Files of tests, or folders of them, or - for standard input";

pub const TESTS_LONG: &str = "Files of tests, or folders of them, or - for standard input

In a folder the files whose names end in .yaml or .yml are taken, in eight levels of folders, in order
of their paths. Of a folder, and of several files, the path of each file stands above its report, and
the last line has the count of all.";

pub const NAME_HELP: &str = "Run the tests whose names have TEXT";

pub const NAME_LONG: &str = "Run the tests whose names have TEXT

The others are as if they did not stand in their file.";

pub const RUN_FILE_HELP: &str =
    "The file that says the grid and what is worked out, or - for standard input";

pub const FILE_HELP: &str = "The file that says what is worked out, or - for standard input";

pub const RULES_HELP: &str = "The folder of the rule set: entities.py, variables and parameters";

pub const REFORM_HELP: &str = "Lay the files of a reform's folder over those of the rule set";

pub const REFORM_LONG: &str = "Lay the files of a reform's folder over those of the rule set

A file of DIR takes the place of that of the same path, and one that is empty takes it away; the others
are added. With several, each is laid over those before it. The path of each file is then told with
the folder that it is in, such as fisca: DIR/PATH:LINE: FAULT.";

pub const AXES_ABOUT: &str = "List the values of axes";

pub const AXES_LONG: &str =
    "List the values of axes, one line a position: the position, and for each axis a tab and its value.

The axis NAME=MIN..MAX/COUNT has the places 0 to COUNT-1. The value at place I is exactly
MIN + I * (MAX - MIN) / (COUNT - 1), and MIN where COUNT is 1. It is printed as a decimal where
it has one, such as 0.5, and else as a fraction, such as 1/3.

The positions of several axes are all tuples of places, counted from 0, of which the first turns
fastest.

The last line is 'end' where no position is left, and 'more P' where --rows or --to ended the list:
the same command with --from P lists the rest.";

pub const AXES_EXAMPLE: &str = "Example:
  fisca axes salary=0..2000/5 --keep \"salary>=500\" --rows 2";

pub const AXES_EXAMPLES: &str = "Examples:
  fisca axes salary=0..1000/2 rent=500..600/2
      lists 0 and 500, 1000 and 500, 0 and 600, 1000 and 600
  fisca axes salary=0..2000/5
      lists 0, 500, 1000, 1500 and 2000
  fisca axes salary=0..2000/5 --keep \"salary>=500\" --rows 2
      lists 500 and 1000, and ends with 'more 3'
  fisca axes salary=0..2000/5 --keep \"salary>=500\" --from 3
      lists the rest, 1500 and 2000
  fisca axes salary=0..2000/5 --from 1 --to 3
      lists 500 and 1000, and ends with 'more 3'
  fisca axes salary=0..2000/5 --part 2/2
      lists 1000, 1500 and 2000

Exit status:
  0  done
  2  the command line is wrong
  3  refused: BadWord (no axis of that form), BadCount, BadBound, TooLarge, AxisOverlap (two axes
     of one name), BadCondition or BadPosition
  5  the output could not be written
  6  out of memory";

pub const AXIS_HELP: &str = "An axis, NAME=MIN..MAX/COUNT";

pub const AXIS_LONG: &str =
    "An axis, NAME=MIN..MAX/COUNT, such as salary=0..2000/5: up to 16, of 2^32 positions in all

NAME   ASCII letters, digits and '_', of which the first is no digit
MIN    the first value, a decimal number such as -0.5
MAX    the last value
COUNT  the number of values, 1 to 1048576

MIN and MAX are at most 10^9 in size, with at most 3 decimals.";

pub const KEEP_HELP: &str = "List only where an axis meets a condition, such as \"salary>=500\"";

pub const KEEP_LONG: &str =
    "List only positions where an axis's value meets a condition, such as \"salary>=500\"

It is an axis's name, one of >= <= == != > < and a decimal number. Spaces may stand
around the comparison alone. Quote it, or the shell takes > and < for redirections.";

pub const FROM_HELP: &str = "Begin at this position [default: 0]";

pub const FROM_LONG: &str =
    "Begin at this position, from 0 up to the number of positions [default: 0]";

pub const TO_HELP: &str = "End before this position [default: the last one is worked out]";

pub const TO_LONG: &str =
    "End before this position, from 0 up to the number of positions [default: the last one is worked out]

The lines from A to B and those from B to C are those from A to C.";

pub const PART_HELP: &str = "Take part I of N, such as 1/4, in place of --from and --to";

pub const PART_LONG: &str = "Take part I of N, such as 1/4, in place of --from and --to

It begins at the position SIZE * (I-1) / N, cut to a whole number, and ends before SIZE * I / N, where
SIZE is the number of positions: the parts 1/N to N/N are the run. N is at most 1000000.";

pub const HEADER_HELP: &str = "Write a first line with the names of the cells";

pub const HEADER_LONG: &str = "Write a first line with the names of the cells

With it or --format standard output is a table: the last line of a run, 'end' or 'more P', goes to
standard error.";

pub const DECIMALS_HELP: &str = "Round numbers to N places, 0 to 18 [default: exact]";

pub const DECIMALS_LONG: &str = "Round numbers to N places, 0 to 18 [default: exact]

A number is the nearest multiple of 10^-N, halves away from zero, with just N places. Positions stay.";

pub const FORMAT_HELP: &str = "Write lines as tsv, csv or jsonl";

pub const FORMAT_LONG: &str = "Write lines as tsv, csv or jsonl

tsv    cells with tabs between them
csv    comma-separated values, as in RFC 4180
jsonl  an object of JSON in each line, with the names of the cells as keys: numbers as numbers, but
       fractions that have no decimal, such as 1/3, as texts; it takes no --header

With it or --header standard output is a table: the last line of a run, 'end' or 'more P', goes to
standard error.";

pub const KEEP_GOING_HELP: &str = "Write the word of a fault in place of a value, and go on";

pub const KEEP_GOING_LONG: &str = "Write the word of a fault in place of a value, and go on

A column or a condition without a value does not end the run: its word, such as ZeroDivisor, stands
in the cell, that of a condition in the first column, where the others are empty. The status is 4 at
the end where a word stands somewhere.";

pub const LINES_HELP: &str = "Take each line of FILE as a file of its own";

pub const LINES_LONG: &str = "Take each line of FILE as a file of its own, such as a line of JSON

The rule files are read once. Each line that is written begins with the number of the line that it is
of. A line that is refused or has no value is told on standard error, such as fisca: FILE:NUMBER: FAULT,
and the others go on; the status is the greatest of all lines.";

pub const ROWS_HELP: &str = "End after this many lines [default: no limit]";

//! Laws of what the commands answer for files that are accepted.

ghost use Rattle.std.specs.Prelude.{◌≡◌, ◌⊎◌, [], ℕ, List, Option, Some, Result, Err};
ghost use Rattle.std.specs.Io.KnownBytes.{Keeps};
ghost use Rattle.fisca_columns.specs.Calc.{Calc, calc_of};
ghost use Rattle.fisca_commands.specs.Calc.{Calculation, IsAsked, IsCalc, IsCalculated, IsCalculatedIn, IsCalculation, lines_of, row_of as column_row_of};
ghost use Rattle.fisca_commands.specs.CalcLines.{IsFile, IsLine, IsOfLine, LineOutcome, outcome_of};
ghost use Rattle.fisca_grid_run.specs.Run.{IsRunAnswer, IsRunToldBy, IsRunning, IsStyleIn, Running, SaysRun};
ghost use Rattle.fisca_grid_run.specs.Runs.{lacks_at, run_row};
ghost use Rattle.fisca_commands.specs.Size.{IsSize, IsSizeTold};
ghost use Rattle.fisca_commands.specs.Test.{IsTest, IsTested, IsTesting, Testing, test_context_in};
ghost use Rattle.fisca_command_line.specs.declared.options.RunOptions.{RunOptions};
ghost use Rattle.fisca_command_line.specs.declared.options.TableForm.{TableForm};
ghost use Rattle.fisca_rows.specs.declared.style.RowStyle.{RowStyle};
ghost use Rattle.fisca_forms.specs.LineForms.{Form};
ghost use Rattle.fisca_params.specs.Source.{Source};
ghost use Rattle.fisca_api.specs.Alike.{AreAlike};
ghost use Rattle.fisca_rule_files.specs.RuleFiles.{IsAccepted};
ghost use Rattle.fisca_rule_files.specs.declared.refusal.Refusal.{Refusal};
ghost use Rattle.fisca_rule_files.specs.declared.refusal.Refusal.TheVariants.{Memory};
ghost use Rattle.fisca_rules.specs.Views.{rule_set};
ghost use Rattle.fisca_rules.specs.declared.rule_set.RuleSet.{RuleSet};
ghost use Rattle.fisca_run_file.specs.RunFiles.{RunFile, run_file_of};
ghost use Rattle.fisca_test_file.specs.Report.{report_text};
ghost use Rattle.fisca_test_file.specs.Steps.Tests.{tests_of};
ghost use Rattle.fisca_test_file.specs.declared.all.Verdict.{Verdict};
ghost use Rattle.fisca_writer.specs.declared.fault.RunEnd.{RunEnd};
ghost use Rattle.fisca_yaml.specs.Node.{Node};

/// Law: two rule sets in memory that say the same read each file alike: a run file, a file of `fisca calc` and a file of tests.
pub fn rule_sets_read_files_alike()
    ensures run { (a b : RuleSet) → AreAlike a b → (n : Node) → run_file_of a.tables n ≡ run_file_of b.tables n }
    ensures calc { (a b : RuleSet) → AreAlike a b → (n : Node) → calc_of a.tables n ≡ calc_of b.tables n }
    ensures test { (a b : RuleSet) → AreAlike a b → (n : Node) → tests_of a.tables n ≡ tests_of b.tables n }
{}

/// Law: they give the same rows: at each position of a run file in each style, of each column of a file of `fisca calc`, and in each test.
pub fn rule_sets_give_the_same_rows()
    ensures run { (a b : RuleSet) → AreAlike a b → (style : RowStyle) (f : RunFile) (position : ℕ) → run_row a style f position ≡ run_row b style f position }
    ensures lacks { (a b : RuleSet) → AreAlike a b → (style : RowStyle) (f : RunFile) (position : ℕ) → lacks_at a style f position ≡ lacks_at b style f position }
    ensures calc { (a b : RuleSet) → AreAlike a b → (asked : Calc) (form : Option Form) (lead : Option ℕ) (place : ℕ)
        → column_row_of (record { rules = a; asked = asked }) form lead place ≡ column_row_of (record { rules = b; asked = asked }) form lead place }
    ensures test { (a b : RuleSet) → AreAlike a b → test_context_in a ≡ test_context_in b }
{}

/// Law: where files make a rule set and a text says a run file under it, `run_rules` tells the run that the options ask for: it refuses that for want of
/// memory alone, and then writes nothing.
pub fn accepted_runs_are_told()
    ensures { (files : List Source) (text : List ℕ) (options : RunOptions) (r : Running) → IsRunning files text options.form r → (old new : Option (List ℕ)) (answer : Result RunEnd Refusal)
        → IsRunAnswer files text options old new answer → IsRunToldBy r options old new answer ⊎ ((answer ≡ Err Memory) × Keeps old new) }
{}

/// Law: so it is of `size_rules` and the number of the positions of a run file.
pub fn accepted_sizes_are_told()
    ensures { (files : List Source) (text : List ℕ) (rules : RuleSet) (f : RunFile) → IsAccepted files (rule_set rules) → SaysRun rules text f → (old new : Option (List ℕ)) (answer : Result Unit Refusal)
        → IsSize files text old new answer → IsSizeTold f old new answer ⊎ ((answer ≡ Err Memory) × Keeps old new) }
{}

/// Law: so it is of `calc_rules` and a file of columns.
pub fn accepted_calculations_are_told()
    ensures { (files : List Source) (text : List ℕ) (form : TableForm) (c : Calculation) → IsCalculation files text c → (old new : Option (List ℕ)) (answer : Result Unit Refusal)
        → IsCalc files text form old new answer → IsCalculatedIn c form old new answer ⊎ ((answer ≡ Err Memory) × Keeps old new) }
{}

/// Law: a line of `calc_lines` that is a file of columns is told as one: what is told of it is no refusal of the text.
pub fn accepted_lines_are_told()
    ensures { (rules : RuleSet) (form : Option Form) (path : List ℕ) (number : ℕ) (text : List ℕ) (asked : Calc) (outcome : LineOutcome) → IsFile text → IsAsked rules text asked
        → IsLine rules form path number text outcome → (written : List ℕ) × (answer : Result Unit Refusal) × IsOfLine answer
        × IsCalculated (record { rules = rules; asked = asked }) form (Some number) (Some []) (Some written) answer × (outcome ≡ outcome_of path number written answer) }
{}

/// Law: so it is of `test_rules` and a file of tests.
pub fn accepted_tests_are_told()
    ensures { (files : List Source) (text : List ℕ) (name : Option (List ℕ)) (t : Testing) → IsTesting files text name t → (old new : Option (List ℕ)) (answer : Result Verdict Refusal)
        → IsTest files text name old new answer → IsTested t old new answer ⊎ ((answer ≡ Err Memory) × Keeps old new) }
{}

/// Law: what a run writes is a function of the texts and the options alone: its rows, their number and the names of their cells.
pub fn texts_determine_runs()
    ensures rows { (files : List Source) (text : List ℕ) (options : RunOptions) (r q : Running) → IsRunning files text options.form r → IsRunning files text options.form q
        → (s t : RowStyle) → IsStyleIn r options s → IsStyleIn q options t → run_row q.rules t q.run ≡ run_row r.rules s r.run }
    ensures run { (files : List Source) (text : List ℕ) (options : RunOptions) (r q : Running) → IsRunning files text options.form r → IsRunning files text options.form q
        → (q.run ≡ r.run) × (q.names ≡ r.names) }
{}

/// Law: so are the lines of a file of `fisca calc`, and the report on tests.
pub fn texts_determine_lines_and_reports()
    ensures calc { (files : List Source) (text : List ℕ) (c d : Calculation) → IsCalculation files text c → IsCalculation files text d → (form : Option Form) (lead : Option ℕ)
        → lines_of d form lead ≡ lines_of c form lead }
    ensures test { (files : List Source) (text : List ℕ) (name : Option (List ℕ)) (t u : Testing) → IsTesting files text name t → IsTesting files text name u
        → report_text (test_context_in u.rules) u.tests ≡ report_text (test_context_in t.rules) t.tests }
{}

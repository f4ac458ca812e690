//! The commands of the program, over texts and any sink.

pub use fisca_commands::{
    Ending, ExplainOptions, LineFault, LineSource, RunOptions, TableForm, Task, axes_words,
    calc_lines, calc_rules, check_rules, explain_rules, list_rules, run_rules, run_task, run_test,
    run_tests, size_rules, test_rules,
};
pub use fisca_folder::{
    FolderEntry, FolderFault, LaidFiles, LayerFault, RuleFolder, ToldPath, read_layers,
};
pub use fisca_rule_files::{Refusal, Unanswered, rules_of};
pub use fisca_test_file::{TestFault, TestKind, Verdict};

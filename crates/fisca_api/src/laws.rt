//! What public calls promise together, those of the commands and those of situations: laws over the definitions that their contracts cite, each as the
//! contract of a function that does nothing.

pub use crate::answer_laws::{
    accepted_calculations_are_told, accepted_lines_are_told, accepted_runs_are_told,
    accepted_sizes_are_told, accepted_tests_are_told, rule_sets_give_the_same_rows,
    rule_sets_read_files_alike, texts_determine_lines_and_reports, texts_determine_runs,
};
pub use crate::axis_laws::{
    axes_are_put_in, inputs_are_given, slots_have_numbers, turning_shares_anew,
    with_axes_inputs_fit,
};
pub use crate::eternal_laws::{
    eternal_inputs_never_overlap, eternal_inputs_stand_at_each_period,
    eternal_inputs_stand_when_shared_anew,
};
pub use crate::member_laws::{members_asked_for_are_there, persons_have_groups};
pub use crate::position_laws::values_at_positions_are_never_stuck;
pub use crate::situation_laws::turning_gives_values;

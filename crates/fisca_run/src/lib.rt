//! What runs and tests are beside the rules: the laws by which what the axes of a run file move at one position of its grid becomes what they move at
//! another, the tests that are chosen by their names, and lines that tell of files and counts.
#![tactic(auto)]

mod cells;
mod chosen;
mod counted;
mod run_laws;
mod slot_laws;

pub use cells::first_name;
pub use chosen::named;
pub use counted::{added, counts_line, path_line, write_size};
pub use run_laws::positions_have_situations;
pub use slot_laws::{
    marks_are_of_slots, other_variables_stay, slots_are_within, slots_turn_between_positions,
    slots_turn_from_the_start,
};

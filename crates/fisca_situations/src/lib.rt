//! Situations: the members of entities and their inputs, as a YAML tree says them, and what axes move of these.
#![tactic(auto)]

mod answers;
mod axis;
mod axis_slot;
mod cuts;
mod given;
mod given_inputs;
mod law;
mod place;
mod putting;
mod reading;
mod said;
mod sections;
mod situation;
mod slot;
mod variables;

pub use answers::Answers;
pub use axis::shared_anew;
pub use axis_slot::slot_of;
pub use cuts::cut_for;
pub use given_inputs::GivenInputs;
pub use law::inputs_are_of_their_types;
pub use putting::{push_input, put_in};
pub use reading::{Reading, reading_of};
pub use said::{Said, said_of};
pub use situation::Situation;
pub use slot::{Slot, has_numbers};

//! Heights and works of keys: how much fuel a value needs, whose formulas give values in the work for it, what that reads, and when what is
//! remembered is true. Definitions and laws.
#![tactic(auto)]

mod law;

pub use law::{
    definite_keys_have_heights, heights_fall, keys_are_of_their_own_work,
    keys_that_need_themselves_have_no_answer, reads_are_those_of_any_fuel, turned_memory_is_true,
    values_stand_from_their_heights, work_is_worked_out,
};

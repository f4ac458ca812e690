//! Exact fractions within 63 bits: arithmetic, decimal literals and texts.
#![tactic(auto)]

mod arithmetic;
mod decimals;
mod divisors;
mod faults;
mod fractions;
mod laws;
mod literals;
mod order;
mod reduction;
mod rounding;
mod rounding_laws;
mod spelling;
mod text;

pub use faults::NumFault;
pub use fractions::Fraction;
pub use laws::{
    equal_fractions_hash_alike, number_of_is_the_number, numerals_are_read_back,
    numerals_are_unique, text_of_is_the_text,
};
pub use rounding_laws::{
    floor_and_ceiling_enclose, multiples_stay, nearest_is_the_nearest, rounded_to_whole_fits,
    rounding_rises, rounding_to_places_fails_where_too_wide, rounding_to_places_rises,
    whole_numbers_stay,
};

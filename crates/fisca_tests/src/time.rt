//! The order of units and the names of faults.

use fisca_time::{TimeFault, Unit};
use std::alloc::Global;

#[test]
fn the_smaller_unit_is_the_lesser(rt: HostRuntime) {
    assert!(rt; Unit::Day < Unit::Month);
    assert!(rt; Unit::Month < Unit::Year);
    assert!(rt; Unit::Year < Unit::Eternity);
}

/// Whether a fault has this number and shows this name.
fn is_shown(alloc: Global, fault: TimeFault, number: u8, name: &str) -> bool {
    match format!(in alloc; "{fault}") {
        Ok(text) => fault as u8 == number && text.as_str() == name,
        Err(_) => false,
    }
}

#[test]
fn faults_have_names_and_numbers(rt: HostRuntime) {
    assert!(rt; is_shown(rt.alloc(), TimeFault::BadText, 1, "BadText"));
    assert!(rt; is_shown(rt.alloc(), TimeFault::OutOfRange, 2, "OutOfRange"));
    assert!(rt; is_shown(rt.alloc(), TimeFault::NoSubperiods, 3, "NoSubperiods"));
    assert!(rt; is_shown(rt.alloc(), TimeFault::Memory, 4, "Memory"));
}

//! Numbers: the names of faults.

use fisca_num::NumFault;
use std::alloc::Global;

/// Whether a fault has this number and this name, and shows the name.
fn is_shown(alloc: Global, fault: NumFault, number: u8, name: &str) -> bool {
    match fault.to_string(alloc) {
        Ok(text) => fault as u8 == number && fault.name() == name && text.as_str() == name,
        Err(_) => false,
    }
}

#[test]
fn faults_show_their_names(rt: HostRuntime) {
    assert!(rt; is_shown(rt.alloc(), NumFault::TooWide, 1, "TooWide"));
    assert!(rt; is_shown(rt.alloc(), NumFault::ZeroDivisor, 2, "ZeroDivisor"));
    assert!(rt; is_shown(rt.alloc(), NumFault::NotANumber, 3, "NotANumber"));
    assert!(rt; is_shown(rt.alloc(), NumFault::Memory, 4, "Memory"));
}

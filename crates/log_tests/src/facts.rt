//! Facts that a test tells one after another.

use std::process::Abort;

/// Each of these is so.
pub fn hold(rt: &impl Abort, facts: &[bool]) {
    for place in 0..facts.len() {
        assert!(rt; facts[place], "fact {place}");
    }
}

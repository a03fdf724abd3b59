//! Worked examples of what laws tell of a machine.
#![tactic(auto)]

#[cfg(test)]
mod sends;

//! Worked examples of keys at a dialog, without a machine.
#![tactic(auto)]

#[cfg(test)]
mod keys;

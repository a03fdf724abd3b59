//! Worked examples of conversations over posts, without a machine.
#![tactic(auto)]

#[cfg(test)]
mod making;
#[cfg(test)]
mod opening;
#[cfg(test)]
mod sides;

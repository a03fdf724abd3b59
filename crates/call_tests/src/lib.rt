//! Worked examples of compound statements, statements of one call and loops of messages, without a machine.
#![tactic(auto)]

#[cfg(test)]
mod calls;
#[cfg(test)]
mod compounds;
#[cfg(test)]
mod loops;
#[cfg(test)]
mod steps;

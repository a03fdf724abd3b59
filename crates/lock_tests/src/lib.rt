//! Worked examples of the lock that threads share, with ample memory.
#![tactic(auto)]

#[cfg(test)]
mod counter;
#[cfg(test)]
mod shared_counter;

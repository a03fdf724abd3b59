//! Worked examples of the programs of threads, with ample memory.
#![tactic(auto)]

#[cfg(test)]
mod programs;
#[cfg(test)]
mod turns;

//! Worked examples of logs that are read.
#![tactic(auto)]

#[cfg(test)]
mod facts;
#[cfg(test)]
mod logs;

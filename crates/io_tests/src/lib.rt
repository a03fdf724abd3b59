//! Worked examples of sources and sinks of bytes, with ample memory, and of the calls of std that no contract tells of.
#![tactic(auto)]

#[cfg(test)]
mod texts;

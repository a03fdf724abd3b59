//! Worked examples of the clipboard, with ample memory.
#![tactic(auto)]

#[cfg(test)]
mod answers;
#[cfg(test)]
mod states;

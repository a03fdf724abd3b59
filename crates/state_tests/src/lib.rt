//! Worked examples of the parts of the machine's state, with ample memory.
#![tactic(auto)]

#[cfg(test)]
mod dialogs;
#[cfg(test)]
mod facts;
#[cfg(test)]
mod groups;
#[cfg(test)]
mod pending;
#[cfg(test)]
mod sends;
#[cfg(test)]
mod threads;
#[cfg(test)]
mod windows;

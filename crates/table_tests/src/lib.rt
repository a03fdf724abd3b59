//! Worked examples of the tables of names, fields, calls, answers and statements, with ample memory.
#![tactic(auto)]

#[cfg(test)]
mod answers;
#[cfg(test)]
mod calls;
#[cfg(test)]
mod facts;
#[cfg(test)]
mod fields;
#[cfg(test)]
mod names;
#[cfg(test)]
mod statements;

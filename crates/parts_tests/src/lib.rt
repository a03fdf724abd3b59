//! Worked examples of the parts of the machine, with ample memory: each public call of a part once, and each of its refusals.
#![tactic(auto)]

#[cfg(test)]
mod classes;
#[cfg(test)]
mod facts;
#[cfg(test)]
mod frames;
#[cfg(test)]
mod input_states;
#[cfg(test)]
mod inputs;
#[cfg(test)]
mod posts;
#[cfg(test)]
mod ready_threads;
#[cfg(test)]
mod statuses;
#[cfg(test)]
mod timers;
#[cfg(test)]
mod windows;

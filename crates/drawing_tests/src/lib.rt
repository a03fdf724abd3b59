//! Worked examples of regions and of what is drawn, with ample memory.
#![tactic(auto)]

#[cfg(test)]
mod boxes;
#[cfg(test)]
mod clips;
#[cfg(test)]
mod facts;
#[cfg(test)]
mod owners;
#[cfg(test)]
mod paintings;
#[cfg(test)]
mod regions;
#[cfg(test)]
mod screens;
#[cfg(test)]
mod updates;

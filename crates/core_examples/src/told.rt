//! A line for each answer.

use std::fmt::Debug;
use std::io::Print;
use user_model::Answer;

/// What was asked, and what it was answered.
pub fn tell(rt: &impl Print, asked: &str, answer: Answer) -> anyhow::Result<()> {
    println!(rt; "{asked}: {answer:?}")?;
    Ok(())
}

/// What was asked, and what was told.
pub fn one<T: Debug>(rt: &impl Print, asked: &str, told: &T) -> anyhow::Result<()> {
    println!(rt; "{asked} {told:?}")?;
    Ok(())
}

/// What was asked of two, and what was told of each.
pub fn both<T: Debug>(rt: &impl Print, asked: &str, first: &T, second: &T) -> anyhow::Result<()> {
    println!(rt; "{asked} {first:?} {second:?}")?;
    Ok(())
}

/// What was asked first and what was told, and the same of the second.
pub fn pair<T: Debug, S: Debug>(
    rt: &impl Print,
    asked: &str,
    told: &T,
    second: &str,
    said: &S,
) -> anyhow::Result<()> {
    println!(rt; "{asked} {told:?} {second} {said:?}")?;
    Ok(())
}

//! The texts that lines stand for, in which a part may be repeated.

use std::alloc::{AllocError, Global};

/// How often a part is repeated, and the part.
fn repeated(part: &str) -> Option<(u32, &str)> {
    let (count, again) = part.split_once(' ')?;
    Some((count.parse().ok()?, again))
}

/// Adds a part, in which `/` ends a line.
fn push_lines(text: &mut String, part: &str) -> Result<(), AllocError> {
    for letter in part.chars() {
        text.push(if letter == '/' { '\n' } else { letter })?;
    }
    Ok(())
}

/// Adds `N PART` as the part N times.
fn push_often(text: &mut String, part: &str) -> Result<(), AllocError> {
    let Some((count, again)) = repeated(part) else {
        return Ok(());
    };
    for _ in 0..count {
        push_lines(text, again)?;
    }
    Ok(())
}

/// The text of a line, in which `/` ends a line and `~N PART~` is a part N times.
pub fn text_of(alloc: Global, line: &str) -> Result<String, AllocError> {
    let mut text = String::new(alloc);
    let mut is_repeated = false;
    for part in line.split('~') {
        if is_repeated {
            push_often(&mut text, part)?;
        } else {
            push_lines(&mut text, part)?;
        }
        is_repeated = !is_repeated;
    }
    Ok(text)
}

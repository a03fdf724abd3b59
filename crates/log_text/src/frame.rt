//! The lines of a frame.
#![tactic(auto, using(user_io::proofs::Texts::two))]

ghost use Rattle.std.specs.Prelude.{◌≡◌, ◌++◌, ◌∷◌, List, map, OnOk, option_copied};
ghost use Rattle.user_io.specs.Text.{Adds};
ghost use Rattle.user_model.specs.Legal.{IsLawful};
ghost use Rattle.user_model.specs.Past.{Past};
ghost use Rattle.log_text.specs.Entries.{entry_line};
ghost use Rattle.log_text.specs.Frames.{digit, row_line, frame_text, frame_lines, shown};

use crate::entry::put_entry;
use crate::words::Words;
use std::alloc::AllocError;
use user_io::text::put_text;
use user_model::{Answer, Entry, Machine};

/// The digit of a colour, 0 to 9 and a to f.
pub fn digit(colour: u8) -> u8
    ensures { result ≡ digit colour }
{
    match colour {
        0..=9 => b'0' + colour,
        10..=15 => b'a' + (colour - 10),
        _ => b'?',
    }
}

/// Adds the digits of the colours of a row.
pub fn put_digits(out: &mut Vec<u8>, row: &[u8]) -> Result<(), AllocError>
    ensures { OnOk result (Adds out.old.items out.new.items (map digit row.now)) }
{
    for colour in row {
        out.push(digit(*colour))?;
    }
    Ok(())
}

/// Adds the line of a row.
fn put_row(out: &mut Vec<u8>, row: &[u8]) -> Result<(), AllocError>
    ensures { OnOk result (Adds out.old.items out.new.items (row_line row.now)) }
{
    put_digits(out, row)?;
    put_text(out, b"\n")?;
    Ok(())
}

/// Adds the lines of a frame of this width and height, the top row first.
pub fn put_frame(
    out: &mut Vec<u8>,
    width: u16,
    height: u16,
    colours: &[u8],
) -> Result<(), AllocError>
    ensures { OnOk result (Adds out.old.items out.new.items (frame_text width height colours.now)) }
{
    let mut rest = colours;
    for _ in 0..height {
        let (row, below) = rest.split_at(rest.len().min(usize::from(width)));
        put_row(out, row)?;
        rest = below;
    }
    Ok(())
}

/// Adds the lines of the frame that an entry kept, if it kept one.
fn put_shown(out: &mut Vec<u8>, words: &Words, frame: Option<&[u8]>) -> Result<(), AllocError>
    ensures { OnOk result (Adds out.old.items out.new.items (frame_lines words.now.script.now (option_copied frame.entry))) }
{
    match frame {
        Some(colours) => put_frame(out, words.script.width(), words.script.height(), colours),
        None => Ok(()),
    }
}

/// Adds the line of an entry, and the lines of the frame that it kept.
pub fn put_whole_entry(
    out: &mut Vec<u8>,
    words: &Words,
    entry: Entry,
    frame: Option<&[u8]>,
) -> Result<(), AllocError>
    ensures { OnOk result (Adds out.old.items out.new.items (entry_line words.now.script.now entry ++ frame_lines words.now.script.now (option_copied frame.entry))) }
{
    put_entry(out, words, entry)?;
    put_shown(out, words, frame)?;
    Ok(())
}

/// The frame that an entry of a machine's past kept: the colours of the screen before it.
pub fn frame_at<M: Machine>(machine: &M, entry: Entry) -> Option<&[u8]>
    ensures { (later before : Past) → IsLawful (M.setup machine.now) (M.past machine.now) → M.past machine.now ≡ later ++ (entry ∷ before) → option_copied result ≡ shown (M.setup machine.now) before entry.answer }
{
    match entry.answer {
        Answer::Snap(number) => machine.frame(number),
        _ => None,
    }
}

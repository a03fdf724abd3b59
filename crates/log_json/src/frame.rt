//! The line of a frame.
#![tactic(auto, using(user_io::proofs::Texts::two))]

ghost use Rattle.std.specs.Prelude.{◌≡◌, ◌++◌, map, IfOk, OnOk, option_copied, string_bytes};
ghost use Rattle.user_io.specs.Text.{Adds};
ghost use Rattle.serde_json.specs.View.{view};
ghost use Rattle.log_text.specs.Frames.{digit, rows};
ghost use Rattle.log_json.specs.Objects.{line, entry_object, row_string, frame_object, frame_line};
ghost use Rattle.log_json.specs.Texts.{AreTexts};

use crate::entry::put_entry;
use crate::line::{put_line, text_of};
use log_text::{Words, put_digits};
use serde_json::{Value, json};
use std::alloc::{AllocError, Global};
use user_model::Entry;

/// The text of a row: the digits of its colours.
fn row_text(alloc: Global, row: &[u8]) -> Result<String, AllocError>
    ensures { IfOk result (λ text. string_bytes text ≡ map digit row.now) }
{
    let mut text = Vec::new(alloc);
    put_digits(&mut text, row)?;
    Ok(text_of(text))
}

/// The texts of the rows of a frame of this width and height, the top one first.
fn row_values(
    alloc: Global,
    width: u16,
    height: u16,
    colours: &[u8],
) -> Result<Vec<Value>, AllocError>
    ensures { IfOk result (λ values. map view values.items ≡ map row_string (rows width height colours.now)) }
{
    let mut values = Vec::new(alloc);
    let mut rest = colours;
    for _ in 0..height {
        let (row, below) = rest.split_at(rest.len().min(usize::from(width)));
        values.push(Value::String(row_text(alloc, row)?))?;
        rest = below;
    }
    Ok(values)
}

/// The object of a frame of this width and height.
fn frame_object(alloc: Global, width: u16, height: u16, colours: &[u8]) -> Result<Value, AllocError>
    ensures { IfOk result (λ value. view value ≡ frame_object width height colours.now) }
{
    let rows = row_values(alloc, width, height, colours)?;
    json!(in alloc; {"frame": rows})
}

/// Adds the line of the frame that an entry kept, if it kept one.
pub fn put_frame(
    alloc: Global,
    out: &mut Vec<u8>,
    words: &Words,
    frame: Option<&[u8]>,
) -> Result<(), AllocError>
    ensures { OnOk result (Adds out.old.items out.new.items (frame_line words.now.script.now (option_copied frame.entry))) }
{
    let Some(colours) = frame else {
        return Ok(());
    };
    let object = frame_object(alloc, words.script.width(), words.script.height(), colours)?;
    put_line(alloc, out, &object)
}

/// Adds the line of an entry, and the line of the frame that it kept.
pub fn put_whole_entry(
    alloc: Global,
    out: &mut Vec<u8>,
    words: &Words,
    entry: Entry,
    frame: Option<&[u8]>,
) -> Result<(), AllocError>
    requires { AreTexts words.now.script.now }
    ensures { OnOk result (Adds out.old.items out.new.items (line (entry_object words.now.script.now entry) ++ frame_line words.now.script.now (option_copied frame.entry))) }
{
    put_entry(alloc, out, words, entry)?;
    put_frame(alloc, out, words, frame)?;
    Ok(())
}

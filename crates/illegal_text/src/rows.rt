//! Rows of frames.
#![tactic(auto, using(user_io::proofs::Texts::two))]

ghost use Rattle.std.specs.Prelude.{◌≡◌, take, drop, OnOk};
ghost use Rattle.user_io.specs.Text.{Adds};
ghost use Rattle.log_text.specs.Frames.{row_line};
ghost use Rattle.illegal_text.specs.Texts.{row_at};

use log_text::put_digits;
use std::alloc::AllocError;
use user_io::text::put_text;

/// The first row of colours in rows of this width, and those below it.
pub fn split_row(width: u16, colours: &[u8]) -> (&[u8], &[u8])
    ensures row { result.0.now ≡ take width colours.now }
    ensures below { result.1.now ≡ drop width colours.now }
{
    colours.split_at(colours.len().min(usize::from(width)))
}

/// A row, from 0, of colours in rows of this width.
pub fn row_at(width: u16, row: u32, colours: &[u8]) -> &[u8]
    ensures { result.now ≡ row_at width row colours.now }
{
    let mut rest = colours;
    for _ in 0..row {
        let (_, below) = split_row(width, rest);
        rest = below;
    }
    let (found, _) = split_row(width, rest);
    found
}

/// Adds the line of a row.
pub fn put_row(out: &mut Vec<u8>, row: &[u8]) -> Result<(), AllocError>
    ensures { OnOk result (Adds out.old.items out.new.items (row_line row.now)) }
{
    put_digits(out, row)?;
    put_text(out, b"\n")?;
    Ok(())
}

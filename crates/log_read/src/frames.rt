//! Frames from the lines of their rows, loosely: a letter that is no digit of a colour is read as colour 0.
#![tactic(auto, using(user_io::proofs::Texts::two))]

ghost use Rattle.std.specs.Prelude.{◌≡◌, ◌++◌, ℕ, List, Some, map, option_map, IfOk, IfSome, OnOk};
ghost use Rattle.std.specs.List.{flat_map};
ghost use Rattle.user_io.specs.Text.{Adds};
ghost use Rattle.script_lines.specs.LineTexts.{joined};
ghost use Rattle.log_read.specs.Limits.{IsFrame};
ghost use Rattle.log_read.specs.Reading.{colour_at};
ghost use Rattle.log_read.specs.Words.{frame_words};

use script_tree::Script;
use std::alloc::{AllocError, Global};

/// The colour of a digit, 0 to 9 and a to f.
fn colour_at(digit: u8) -> u8
    ensures { result ≡ colour_at digit }
{
    match digit {
        b'0'..=b'9' => digit - b'0',
        b'a'..=b'f' => digit - b'a' + 10,
        _ => 0,
    }
}

/// Adds the colours of a row.
fn add_row(colours: &mut Vec<u8>, row: &[u8]) -> Result<(), AllocError>
    ensures { OnOk result (Adds colours.old.items colours.new.items (map colour_at row.now)) }
{
    for digit in row {
        colours.push(colour_at(*digit))?;
    }
    Ok(())
}

/// Adds the colours of rows.
fn add_rows(colours: &mut Vec<u8>, rows: &[&[u8]]) -> Result<(), AllocError>
    ensures { OnOk result (Adds colours.old.items colours.new.items (flat_map (λ row. map colour_at row.now) rows.now)) }
{
    for row in rows {
        add_row(colours, row)?;
    }
    Ok(())
}

/// The frame whose rows the first of these lines are. None comes where there are fewer lines than the screen has
/// rows, or where they have another number of letters than the screen has pixels.
pub fn frame_at(
    alloc: Global,
    script: &Script,
    lines: &[&[u8]],
) -> Result<Option<Vec<u8>>, AllocError>
    ensures fits { IfOk result (λ found. IfSome found (λ colours. IsFrame script.now colours.items)) }
    ensures again { IfOk result (λ found. (colours : List ℕ) (rest : List (List ℕ)) → IsFrame script.now colours → map (λ w. w.now) lines.now ≡ map joined (frame_words script.now (Some colours)) ++ rest → option_map (λ v. v.items) found ≡ Some colours) }
{
    let height = usize::from(script.height());
    if lines.len() < height {
        return Ok(None);
    }
    let mut colours = Vec::new(alloc);
    add_rows(&mut colours, &lines[..height])?;
    let size = height * usize::from(script.width());
    if colours.len() != size {
        return Ok(None);
    }
    Ok(Some(colours))
}

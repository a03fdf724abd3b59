//! Making a text piece by piece.

ghost use Rattle.std.specs.Prelude.{◌∷◌, decimal, OnOk};
ghost use Rattle.std.specs.Fmt.{signed_decimal};
ghost use Rattle.user_io.specs.Text.{Adds, operand};

use itoa::Buffer;
use std::alloc::AllocError;

/// Adds some bytes at the end.
pub fn put_text(out: &mut Vec<u8>, text: &[u8]) -> Result<(), AllocError>
    ensures { OnOk result (Adds out.old.items out.new.items text.now) }
{
    out.extend_from_slice(text)?;
    Ok(())
}

/// Adds a number in decimal.
#[tactic(auto, using(std::proofs::lemmas::Fmt::decimal_digit))]
pub fn put_number(out: &mut Vec<u8>, number: u64) -> Result<(), AllocError>
    ensures { OnOk result (Adds out.old.items out.new.items (decimal number)) }
{
    if number < 10 {
        out.push(b'0' + number as u8)?;
        return Ok(());
    }
    let mut buffer = Buffer::new();
    put_text(out, buffer.format(number).as_bytes())
}

/// Adds a blank and a number in decimal.
#[tactic(auto, using(crate::proofs::Texts::two))]
pub fn put_operand(out: &mut Vec<u8>, number: u64) -> Result<(), AllocError>
    ensures { OnOk result (Adds out.old.items out.new.items (operand number)) }
{
    out.push(b' ')?;
    put_number(out, number)?;
    Ok(())
}

/// Adds a blank and a number in decimal, with its sign where it is below 0.
#[tactic(auto, using(crate::proofs::Texts::two))]
pub fn put_signed(out: &mut Vec<u8>, number: i64) -> Result<(), AllocError>
    ensures { OnOk result (Adds out.old.items out.new.items (32 ∷ signed_decimal number)) }
{
    if let Ok(number) = u64::try_from(number) {
        return put_operand(out, number);
    }
    let mut buffer = Buffer::new();
    out.push(b' ')?;
    put_text(out, buffer.format(number).as_bytes())?;
    Ok(())
}

//! Values of JSON, and their lines.
#![tactic(auto, using(user_io::proofs::Texts::two))]

ghost use Rattle.std.specs.Prelude.{◌≡◌, false, IsUtf8, OnOk, string_bytes};
ghost use Rattle.user_io.specs.Text.{Adds};
ghost use Rattle.serde_json.specs.View.{view};
ghost use Rattle.serde_json.specs.Written.{has_float};
ghost use Rattle.log_json.specs.Objects.{line};

use serde_json::Value;
use std::alloc::{AllocError, Global};
use user_io::text::put_text;

/// A text that is UTF-8.
pub fn text_of(bytes: Vec<u8>) -> String
    requires { IsUtf8 bytes.items }
    ensures { string_bytes result ≡ bytes.items }
{
    String::from_utf8(bytes).unwrap()
}

/// Adds the line of a value that holds no float.
pub fn put_line(alloc: Global, out: &mut Vec<u8>, value: &Value) -> Result<(), AllocError>
    requires { has_float (view value.now) ≡ false }
    ensures { OnOk result (Adds out.old.items out.new.items (line (view value.now))) }
{
    let text = value.to_vec(alloc)?;
    put_text(out, &text)?;
    put_text(out, b"\n")?;
    Ok(())
}

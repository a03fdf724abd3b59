//! Reading a log: its text is taken apart loosely, written again, and compared.

ghost use Rattle.std.specs.Prelude.{◌≡◌, ◌↔◌, IsTrue, IfOk, IfErr};
ghost use Rattle.script_lines.specs.Known.{known_of};
ghost use Rattle.script_lines.specs.NameLimits.{AreKnown};
ghost use Rattle.log_read.specs.Limits.{IsLog};
ghost use Rattle.log_read.specs.Logs.{spelling};
ghost use Rattle.log_read.specs.Refusals.{IsNoLog, HasCause};

use crate::judge::first_refusal;
use crate::log::Log;
use crate::parser::parse;
use crate::writer::write;
use log_text::Words;
use script_text::ReadFault;
use script_tree::Script;
use std::alloc::Global;

/// Whether two texts are the same.
fn same_text(a: &[u8], b: &[u8]) -> bool
    ensures { IsTrue result ↔ (a.now ≡ b.now) }
{
    a == b
}

/// Why a text that is no log of the script is refused.
fn refused(alloc: Global, words: &Words, bytes: &[u8]) -> ReadFault
    requires named { AreKnown (known_of words.now.script.now) }
    requires other { IsNoLog words.now.script.now bytes.now }
    ensures { HasCause words.now.script.now bytes.now result }
{
    match first_refusal(alloc, words, bytes) {
        Ok(refusal) => ReadFault::Refused(refusal),
        Err(error) => ReadFault::from(error),
    }
}

/// The log of a script whose text the bytes are. `Refused` comes exactly where no log of the script has this text. It
/// tells the first line, from 1 on, with which no log of the script begins, or the one behind the last where the text
/// ends too early, and the first reason that applies to it. The form of logs is this project's own.
pub fn read_log(alloc: Global, script: &Script, bytes: &[u8]) -> Result<Log, ReadFault>
    requires named { AreKnown (known_of script.now) }
    ensures log { IfOk result (IsLog script.now) }
    ensures text { IfOk result (λ l. bytes.now ≡ spelling script.now l) }
    ensures cause { IfErr result (HasCause script.now bytes.now) }
{
    let words = Words::new(script);
    let Some(log) = parse(alloc, &words, bytes)? else {
        return Err(refused(alloc, &words, bytes));
    };
    let text = write(alloc, &words, &log)?;
    if !same_text(&text, bytes) {
        return Err(refused(alloc, &words, bytes));
    }
    Ok(log)
}

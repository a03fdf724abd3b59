//! Reading a script from its text, or telling why no script has it.

ghost use Rattle.std.specs.Prelude.{◌≡◌, ◌≤◌, length, IfOk, IfErr};
ghost use Rattle.script_tree.specs.Tree.{Tree};
ghost use Rattle.script_text.specs.Grammar.{IsWhole};
ghost use Rattle.script_text.specs.Limits.{IsScript};
ghost use Rattle.script_text.specs.Refusals.{HasCause, IsSame};
ghost use Rattle.script_text.specs.Spelling.{spelling};

use crate::fault::{ReadFault, Reason, Refusal};
use crate::judge::first_refusal;
use crate::limits::SCRIPT_LIMIT;
use crate::parser::parse;
use script_lines::NameTables;
use script_tree::Script;
use std::alloc::Global;

/// The refusal of a text that is too long.
const TOO_LONG: ReadFault = ReadFault::Refused(Refusal {
    line: 0,
    reason: Reason::Long,
});

/// A text is that of one script at most.
pub fn one_tree()
    ensures { (s : Tree) (t : Tree) → IsScript s → IsScript t → spelling s ≡ spelling t → IsSame s t }
{}

/// Why a text is refused that isn't a script's, however long.
fn refused(alloc: Global, tables: &NameTables, bytes: &[u8]) -> ReadFault
    requires short { length bytes.now ≤ 1048576 }
    requires other { IsWhole bytes.now → ⊥ }
    ensures { HasCause bytes.now result }
{
    match first_refusal(alloc, tables, bytes) {
        Ok(refusal) => ReadFault::Refused(refusal),
        Err(error) => ReadFault::from(error),
    }
}

/// The script whose text the bytes are. `Refused` comes exactly where no script has this text. It tells the
/// first bad line, the least number of lines with which no script begins, or one more than there are where the
/// text ends too early, and the first reason that applies to it; line 0 and `Long` where the text has more than
/// 1,048,576 bytes. The form of scripts is this project's own.
pub fn read(alloc: Global, bytes: &[u8]) -> Result<Script, ReadFault>
    ensures script { IfOk result (λ s. IsScript s) }
    ensures text { IfOk result (λ s. bytes.now ≡ spelling s) }
    ensures whole { IfOk result (λ s. IsWhole bytes.now) }
    ensures cause { IfErr result (HasCause bytes.now) }
{
    if bytes.len() > SCRIPT_LIMIT {
        return Err(TOO_LONG);
    }
    let tables = NameTables::new();
    let Some(script) = parse(alloc, &tables, bytes)? else {
        return Err(refused(alloc, &tables, bytes));
    };
    Ok(script)
}

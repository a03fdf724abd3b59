//! Scripts, both ways.

use crate::texts::shown;
use script_text::{ReadFault, Script, read, write};
use std::alloc::Global;
use std::io::Print;

/// Whether a script is written as this text.
fn tell_written(rt: &impl Print, alloc: Global, script: &Script, text: &str) -> anyhow::Result<()> {
    let written = write(alloc, script)?;
    if written.as_slice() == text.as_bytes() {
        println!(rt; "  read, and written as the same {} bytes", text.len())?;
    } else {
        println!(rt; "  read, and written as another text")?;
    }
    Ok(())
}

/// Why a text is no script.
fn tell_fault(rt: &impl Print, fault: ReadFault) -> anyhow::Result<()> {
    match fault {
        ReadFault::Refused(refusal) => {
            println!(rt; "  refused at line {}: {:?}", refusal.line, refusal.reason)?;
        }
        ReadFault::Memory => println!(rt; "  no memory")?,
    }
    Ok(())
}

/// Reads a text, and tells whether it is a script, which is then written again.
pub fn tell(rt: &impl Print, alloc: Global, text: &str) -> anyhow::Result<()> {
    match read(alloc, text.as_bytes()) {
        Ok(script) => tell_written(rt, alloc, &script, text),
        Err(fault) => tell_fault(rt, fault),
    }
}

/// The names of a script, and how many statements its procedures and threads have.
fn tell_members(rt: &impl Print, alloc: Global, script: &Script) -> anyhow::Result<()> {
    for name in script.names() {
        println!(rt; "  name {}", shown(alloc, name.text())?)?;
    }
    for procedure in script.procedures() {
        let name = shown(alloc, procedure.name().text())?;
        println!(rt;
            "  procedure {name}, {} statements",
            procedure.body().statements().len()
        )?;
    }
    for thread in script.threads() {
        println!(rt; "  thread, {} statements", thread.statements().len())?;
    }
    Ok(())
}

/// Reads a text, and tells what the script has.
pub fn tell_parts(rt: &impl Print, alloc: Global, text: &str) -> anyhow::Result<()> {
    match read(alloc, text.as_bytes()) {
        Ok(script) => {
            println!(rt;
                "  screen {} {}, budget {}, order {:?}",
                script.width(),
                script.height(),
                script.budget(),
                script.order()
            )?;
            tell_members(rt, alloc, &script)
        }
        Err(fault) => tell_fault(rt, fault),
    }
}

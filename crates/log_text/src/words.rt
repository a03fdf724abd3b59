//! What is printed by a name.

ghost use Rattle.std.specs.Prelude.{◌≡◌, ◌+◌, ◌≤◌, ◌^◌, ◌++◌, [], length, unwrap_or, option_map, slice_get, OnOk, IsTrue};
ghost use Rattle.name_table.specs.Rows.{name_in};
ghost use Rattle.name_table.specs.Messages.{message_rows};
ghost use Rattle.user_io.specs.Text.{Adds};
ghost use Rattle.log_text.specs.Entries.{message_text, name_text, procedure_text};

use crate::line::Line;
use name_table::{NameTable, messages};
use script_tree::Script;
use std::alloc::AllocError;
use user_io::text::{put_number, put_text};

/// The number of WM_USER.
const WM_USER: u64 = 1024;

/// The number of WM_APP, which is the next one that has a name.
const WM_APP: u64 = 32768;

/// How many bytes the name of a procedure has at most to be put before a line. The names of scripts have no more.
const NAME_ROOM: usize = 32;

/// The names of messages, which are those of Windows (Microsoft, About Messages and Message Queues),
/// and the names of a script.
#[derive(Drop)]
pub struct Words<'s> {
    pub messages: NameTable,
    pub script: &'s Script,
    ghost known: { messages ≡ message_rows },
}

impl<'s> Words<'s> {
    /// The names of messages and of this script.
    pub fn new(script: &'s Script) -> Words<'s>
        ensures { result.script.now ≡ script.now }
    {
        Words {
            messages: messages(),
            script,
        }
    }

    /// The name of a message, where it has one. Most messages of programs are WM_USER and those behind it, for
    /// which the table isn't asked.
    fn message(&self, number: u64) -> Option<&'static [u8]>
        ensures name { option_map (λ s. s.now) result ≡ name_in message_rows number }
        ensures short { length (unwrap_or (option_map (λ s. s.now) result) []) ≤ 20 }
    {
        if number == WM_USER {
            return Some(b"WM_USER");
        }
        if WM_USER < number && number < WM_APP {
            return None;
        }
        match u32::try_from(number) {
            Ok(number) => self.messages.name_of(number),
            Err(_) => None,
        }
    }

    /// Adds a blank and a message, by its name where it has one.
    pub fn put_message(&self, out: &mut Vec<u8>, number: u64) -> Result<(), AllocError>
        ensures { OnOk result (Adds out.old.items out.new.items (message_text number)) }
    {
        out.push(b' ')?;
        match self.message(number) {
            Some(name) => put_text(out, name)?,
            None => put_number(out, number)?,
        }
        Ok(())
    }

    /// Puts a blank and a message before the line, by its name where it has one.
    pub(crate) fn prepend_message(&self, line: &mut Line, number: u64)
        requires { length line.old + 21 ≤ 320 }
        ensures text { line.new ≡ message_text number ++ line.old }
        ensures room { length line.new ≤ length line.old + 21 }
    {
        match self.message(number) {
            Some(name) => {
                line.prepend_text(name);
                line.prepend_text(b" ");
            }
            None => line.prepend_operand(number),
        }
    }

    /// Adds a blank and a name of the script, by its text where the list of names has it.
    pub fn put_name(&self, out: &mut Vec<u8>, name: u32) -> Result<(), AllocError>
        ensures { OnOk result (Adds out.old.items out.new.items (name_text self.now.script.now name)) }
    {
        out.push(b' ')?;
        match self.script.names().get(name as usize) {
            Some(name) => put_text(out, name.text())?,
            None => put_number(out, u64::from(name))?,
        }
        Ok(())
    }

    /// Adds a blank and a procedure, by its name where the list of procedures has it.
    pub fn put_procedure(&self, out: &mut Vec<u8>, procedure: u32) -> Result<(), AllocError>
        ensures { OnOk result (Adds out.old.items out.new.items (procedure_text self.now.script.now procedure)) }
    {
        out.push(b' ')?;
        match self.script.procedures().get(procedure as usize) {
            Some(procedure) => put_text(out, procedure.name().text())?,
            None => put_number(out, u64::from(procedure))?,
        }
        Ok(())
    }

    /// Puts a blank and a procedure before the line, by its name where the list of procedures has it, and tells whether
    /// that has room.
    pub(crate) fn prepend_procedure(&self, line: &mut Line, procedure: u32) -> bool
        requires { length line.old + 33 ≤ 320 }
        ensures text { IsTrue result → line.new ≡ procedure_text self.now.script.now procedure ++ line.old }
        ensures room { length line.new ≤ length line.old + 33 }
    {
        match self.script.procedures().get(procedure as usize) {
            Some(procedure) => {
                let name = procedure.name().text();
                if name.len() > NAME_ROOM {
                    return false;
                }
                line.prepend_text(name);
                line.prepend_text(b" ");
            }
            None => line.prepend_operand(u64::from(procedure)),
        }
        true
    }
}

//! Reading the lines of a text, one by one: what good lines leave behind.

ghost use Rattle.std.specs.Prelude.{◌≡◌, ◌≤◌, ◌+◌, ◌++◌, ◌∷◌, ◌↔◌, ◌&&◌, [], List, ℕ, length, map, slice_get, nat_lt, is_some, true, false, Some, None, IsTrue, IfOk, IfSome};
ghost use Rattle.script_lines.specs.LineReading.{split_at};
ghost use Rattle.script_lines.specs.NameLimits.{AreKnown, seen_after, begun_after};
ghost use Rattle.script_text.specs.Building.{IsSound, kinds};
ghost use Rattle.script_text.specs.Grammar.{thread_of, all_heads, IsWhole, Begins};
ghost use Rattle.script_text.specs.Judging.{nest_in, lines_in, IsReading, IsReadingOf, Adds};
ghost use Rattle.script_text.specs.Nesting.{none_open};
ghost use Rattle.script_text.specs.Programs.{IsLeft};
ghost use Rattle.script_text.specs.Steps.{IsStep, IsNoStep};

use crate::builder::{Bodies, Builder};
use crate::first_line::first_line;
use crate::head::{HeadLine, is_head};
use crate::limits::{THREAD_LIMIT, begun_in, seen_in};
use script_lines::{
    Line, NameTables, Names, frequent_line, is_text_of, line_at, line_parts, numbered_call,
    words_into,
};
use script_tree::Name;
use statement_table::Part;
use std::alloc::{AllocError, Global};

/// What whole lines say: the names in them, the names of the procedures, and all bodies.
#[derive(Drop)]
pub struct Program {
    pub names: Vec<Name>,
    pub procedure_names: Vec<Name>,
    pub bodies: Bodies,
}

/// What good lines of procedures and threads leave behind: the names in them, what stands open, and how many
/// threads have begun.
#[derive(Drop)]
pub struct Reading {
    pub known: Names,
    pub builder: Builder,
    pub threads: usize,
}

/// How many threads a line begins.
fn thread_of(line: Line) -> usize
    ensures value { result ≡ thread_of line }
    ensures few { result ≤ 1 }
{
    match line {
        Line::Thread => 1,
        _ => 0,
    }
}

/// The line before the procedures and threads that stands behind so many others.
pub fn head_line(before: usize) -> Option<HeadLine>
    ensures { result ≡ slice_get all_heads before }
{
    match before {
        0 => Some(HeadLine::User),
        1 => Some(HeadLine::Screen),
        2 => Some(HeadLine::Budget),
        3 => Some(HeadLine::Order),
        _ => None,
    }
}

/// Whether the names in a line's parts are those before it, or the next ones, and all after it.
fn names_go_on(parts: &[Part], before: usize, after: usize) -> bool
    ensures { IsTrue result ↔ (seen_after after (Some before) parts.now ≡ Some after) }
{
    match seen_in(after, before, parts) {
        Some(seen) => seen == after,
        None => false,
    }
}

/// Whether the procedures in a line's parts have begun before it, or are the next one, and all after it.
fn procedures_go_on(parts: &[Part], before: usize, after: usize) -> bool
    ensures { IsTrue result ↔ (begun_after after (Some before) parts.now ≡ Some after) }
{
    match begun_in(after, before, parts) {
        Some(begun) => begun == after,
        None => false,
    }
}

impl Reading {
    /// Nothing yet.
    pub fn new(alloc: Global) -> Reading
        ensures { IsReading [] result }
    {
        Reading {
            known: Names::new(alloc),
            builder: Builder::new(alloc),
            threads: 0,
        }
    }

    /// Takes one line more of procedures and threads, that with these words; false where the text is no line that
    /// can stand there.
    fn take_words(
        &mut self,
        alloc: Global,
        tables: &NameTables,
        words: &[&[u8]],
        text: &[u8],
    ) -> Result<bool, AllocError>
        requires split { map (λ w. w.now) words.now ≡ split_at 32 text.now }
        requires known { AreKnown self.old.known }
        requires sound { IsSound self.old.builder.procedures.items self.old.builder.threads.items self.old.builder.blocks.items }
        requires few { self.old.threads ≤ 15 }
        ensures taken { IfOk result (λ taken. taken ≡ true → IsStep self.old.known (nest_in self.old.builder) self.old.threads text.now self.new.known (nest_in self.new.builder) self.new.threads) }
        ensures refused { IfOk result (λ taken. taken ≡ false → IsNoStep self.old.known (nest_in self.old.builder) self.old.threads text.now) }
        ensures added { IfOk result (λ taken. taken ≡ true → Adds self.old.known (lines_in self.old.builder) text.now self.new.known (lines_in self.new.builder)) }
        ensures kept { AreKnown self.new.known }
        ensures sound { IfOk result (λ taken. taken ≡ true → IsSound self.new.builder.procedures.items self.new.builder.threads.items self.new.builder.blocks.items) }
    {
        let names = self.known.name_count();
        let procedures = self.known.procedure_count();
        let Some(line) = line_at(alloc, tables, &mut self.known, words)? else {
            return Ok(false);
        };
        if !is_text_of(alloc, tables, &self.known, line, text)? {
            return Ok(false);
        }
        let parts = line_parts(line);
        if !names_go_on(&parts, names, self.known.name_count())
            || !procedures_go_on(&parts, procedures, self.known.procedure_count())
            || self.threads + thread_of(line) > THREAD_LIMIT
        {
            return Ok(false);
        }
        self.threads += thread_of(line);
        self.builder.take(alloc, line)
    }

    /// Takes one line more of procedures and threads by its words, which take the room of those before them; false
    /// where the text is no line that can stand there.
    fn take_text<'a>(
        &mut self,
        alloc: Global,
        tables: &NameTables,
        words: &mut Vec<&'a [u8]>,
        text: &'a [u8],
    ) -> Result<bool, AllocError>
        requires known { AreKnown self.old.known }
        requires sound { IsSound self.old.builder.procedures.items self.old.builder.threads.items self.old.builder.blocks.items }
        requires few { self.old.threads ≤ 15 }
        ensures taken { IfOk result (λ taken. taken ≡ true → IsStep self.old.known (nest_in self.old.builder) self.old.threads text.now self.new.known (nest_in self.new.builder) self.new.threads) }
        ensures refused { IfOk result (λ taken. taken ≡ false → IsNoStep self.old.known (nest_in self.old.builder) self.old.threads text.now) }
        ensures added { IfOk result (λ taken. taken ≡ true → Adds self.old.known (lines_in self.old.builder) text.now self.new.known (lines_in self.new.builder)) }
        ensures kept { AreKnown self.new.known }
        ensures sound { IfOk result (λ taken. taken ≡ true → IsSound self.new.builder.procedures.items self.new.builder.threads.items self.new.builder.blocks.items) }
    {
        words_into(words, text)?;
        if let Some(line) = frequent_line(words) {
            return self.builder.take(alloc, line);
        }
        self.take_words(alloc, tables, words, text)
    }

    /// Takes one line more of procedures and threads; false where the text is no line that can stand there. The
    /// words of a line take the room of those before them.
    fn take<'a>(
        &mut self,
        alloc: Global,
        tables: &NameTables,
        words: &mut Vec<&'a [u8]>,
        text: &'a [u8],
    ) -> Result<bool, AllocError>
        requires known { AreKnown self.old.known }
        requires sound { IsSound self.old.builder.procedures.items self.old.builder.threads.items self.old.builder.blocks.items }
        requires few { self.old.threads ≤ 15 }
        ensures taken { IfOk result (λ taken. taken ≡ true → IsStep self.old.known (nest_in self.old.builder) self.old.threads text.now self.new.known (nest_in self.new.builder) self.new.threads) }
        ensures refused { IfOk result (λ taken. taken ≡ false → IsNoStep self.old.known (nest_in self.old.builder) self.old.threads text.now) }
        ensures added { IfOk result (λ taken. taken ≡ true → Adds self.old.known (lines_in self.old.builder) text.now self.new.known (lines_in self.new.builder)) }
        ensures kept { AreKnown self.new.known }
        ensures sound { IfOk result (λ taken. taken ≡ true → IsSound self.new.builder.procedures.items self.new.builder.threads.items self.new.builder.blocks.items) }
    {
        if let Some(call) = numbered_call(text) {
            return self.builder.take_call(call);
        }
        self.take_text(alloc, tables, words, text)
    }

    /// Takes one line more, behind so many others; false where no script begins so.
    pub fn take_next<'a>(
        &mut self,
        alloc: Global,
        tables: &NameTables,
        words: &mut Vec<&'a [u8]>,
        before: usize,
        text: &'a [u8],
    ) -> Result<bool, AllocError>
        requires known { AreKnown self.old.known }
        requires sound { IsSound self.old.builder.procedures.items self.old.builder.threads.items self.old.builder.blocks.items }
        requires few { self.old.threads ≤ 15 }
        ensures good { IfOk result (λ taken. (texts : List (List ℕ)) → length texts ≡ before → IsReading texts self.old → taken ≡ true → IsReading (texts ++ text.now ∷ []) self.new) }
        ensures bad { IfOk result (λ taken. (texts : List (List ℕ)) → length texts ≡ before → IsReading texts self.old → taken ≡ false → Begins (texts ++ text.now ∷ []) → ⊥) }
    {
        match head_line(before) {
            Some(head) => is_head(alloc, head, text),
            None => self.take(alloc, tables, words, text),
        }
    }

    /// Takes the lines of a text, one after the other, each with its line feed; false where no script has the text.
    pub fn take_all(
        &mut self,
        alloc: Global,
        tables: &NameTables,
        bytes: &[u8],
    ) -> Result<bool, AllocError>
        requires nothing { IsReading [] self.old }
        requires short { length bytes.now ≤ 1048576 }
        ensures bad { IfOk result (λ taken. taken ≡ false → IsWhole bytes.now → ⊥) }
        ensures good { IfOk result (λ taken. taken ≡ true → IsReadingOf bytes.now self.new) }
    {
        let mut words = Vec::new(alloc);
        let mut rest = bytes;
        let mut before = 0;
        while !rest.is_empty() {
            let Some((line, behind)) = first_line(rest) else {
                return Ok(false);
            };
            if !self.take_next(alloc, tables, &mut words, before, line)? {
                return Ok(false);
            }
            rest = behind;
            before += 1;
        }
        Ok(true)
    }

    /// What the lines say that were taken. None comes exactly where a block stands open or there is no thread.
    pub fn into_program(self) -> Option<Program>
        ensures program { IfSome result (λ p. IsLeft p self.known (lines_in self.builder)) }
        ensures whole { is_some result ≡ (none_open (kinds self.builder.blocks.items) && nat_lt 0 self.threads) }
    {
        if self.threads == 0 {
            return None;
        }
        let bodies = self.builder.finish()?;
        let (names, procedure_names) = self.known.into_parts();
        Some(Program {
            names,
            procedure_names,
            bodies,
        })
    }
}

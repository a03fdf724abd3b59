//! A source and a sink in memory.

ghost use Rattle.std.specs.Prelude.{◌≡◌, ◌<◌, ◌≤◌, [], Some, IfOk, take, length, min};
ghost use Rattle.user_io.specs.Outside.{IsTaken, IsPut, CountsRead, CountsWrite};
ghost use Rattle.user_io.specs.Memory.{MemRead, mem_put, after_write};

use super::traits::{Put, Sink, Source, Took};
use std::alloc::{AllocError, Global};
use std::marker::Model;

/// Gives bytes in pieces, and fails at chosen calls.
#[derive(Drop)]
pub struct MemSource {
    bytes: Vec<u8>,
    at: usize,
    piece: usize,
    fail: Vec<u64>,
    calls: u64,
    faults: u64,
}

impl Model for MemSource {
    ghost use Rattle.std.specs.Prelude.{◌<◌, drop};
    ghost use Rattle.user_io.specs.Memory.{MemReading};

    ghost Value = { MemReading };

    ghost view = { λ m. record { left = drop m.at m.bytes.items; piece = m.piece; fail = m.fail.items; calls = m.calls; faults = m.faults } };

    ghost invariant = { λ m. 0 < m.piece };
}

impl MemSource {
    /// Gives at most `piece` bytes a call, and fails at the calls whose numbers, from 0, are listed.
    pub fn new(bytes: Vec<u8>, piece: usize, fail: Vec<u64>) -> MemSource
        requires { 0 < piece }
        ensures { result ≡ record { left = bytes.items; piece = piece; fail = fail.items; calls = 0; faults = 0 } }
    {
        MemSource {
            bytes,
            at: 0,
            piece,
            fail,
            calls: 0,
            faults: 0,
        }
    }
}

impl Source for MemSource {
    ghost left = { λ m. Some m.left };

    ghost faults = { λ m. m.faults };

    /// Beside what a source promises: exactly the listed calls fail, `End` comes only where nothing
    /// is left, and else the call takes as much as the buffer, a piece and what is left allow.
    fn read(&mut self, buf: &mut [u8]) -> Took
        ensures taken { IsTaken (Some self.old.left) (Some self.new.left) self.old.faults self.new.faults buf.new result }
        ensures count { CountsRead self.old.faults self.new.faults result }
        ensures exact { MemRead self.old self.new buf.new result }
    {
        let call = self.calls;
        self.calls = self.calls.saturating_add(1);
        if self.fail.contains(&call) {
            self.faults = self.faults.saturating_add(1);
            return Took::Failed;
        }
        if self.at >= self.bytes.len() {
            return Took::End;
        }
        let (_, rest) = self.bytes.split_at(self.at);
        let count = give(buf, rest, self.piece);
        self.at += count;
        Took::Took(count)
    }
}

/// Copies the front of what is left into the buffer, at most so many bytes.
fn give(buf: &mut [u8], rest: &[u8], most: usize) -> usize
    requires piece { 0 < most }
    requires some { 0 < length rest.now }
    ensures within { result ≤ length buf.new }
    ensures some { 0 < length buf.new → 0 < result }
    ensures enough { result ≤ length rest.now }
    ensures most { result ≡ min (min (length rest.now) most) (length buf.new) }
    ensures bytes { take result buf.new ≡ take result rest.now }
{
    let count = rest.len().min(most).min(buf.len());
    let (front, _) = rest.split_at(count);
    buf[..count].copy_from_slice(front);
    count
}

/// Takes bytes until its room is used up.
#[derive(Drop)]
pub struct MemSink {
    bytes: Vec<u8>,
    room: usize,
    faults: u64,
}

impl Model for MemSink {
    ghost use Rattle.std.specs.Prelude.{◌≤◌, vec_len, vec_capacity};
    ghost use Rattle.user_io.specs.Memory.{MemWriting};

    ghost Value = { MemWriting };

    ghost view = { λ m. record { held = m.bytes.items; room = m.room; faults = m.faults } };

    ghost invariant = { λ m. (m.room ≤ vec_capacity m.bytes) × (vec_len m.bytes ≤ m.room) };
}

impl MemSink {
    /// A sink that takes `room` bytes and then fails. It takes memory for them at once, so that
    /// no write takes any.
    pub fn new(alloc: Global, room: u32) -> Result<MemSink, AllocError>
        ensures { IfOk result (λ sink. sink ≡ record { held = []; room = room; faults = 0 }) }
    {
        Ok(MemSink {
            bytes: Vec::with_capacity(alloc, room as usize)?,
            room: room as usize,
            faults: 0,
        })
    }

    /// What was written.
    pub fn bytes(&self) -> &[u8]
        ensures { result.now ≡ self.now.held }
    {
        &self.bytes
    }
}

impl Sink for MemSink {
    ghost holds = { λ m. Some m.held };

    ghost faults = { λ m. m.faults };

    /// Beside what a sink promises: the call takes what fits, and fails exactly where there is no
    /// room and the piece has bytes.
    fn write(&mut self, buf: &[u8]) -> Put
        ensures put { IsPut (Some self.old.held) (Some self.new.held) self.old.faults self.new.faults buf.now result }
        ensures count { CountsWrite self.old.faults self.new.faults result }
        ensures answer { result ≡ mem_put self.old (length buf.now) }
        ensures next { self.new ≡ after_write self.old buf.now result }
    {
        let count = (self.room - self.bytes.len()).min(buf.len());
        if count == 0 && !buf.is_empty() {
            self.faults = self.faults.saturating_add(1);
            return Put::Failed;
        }
        self.bytes.extend_from_slice(&buf[..count]).unwrap();
        Put::Put(count)
    }
}

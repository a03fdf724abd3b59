//! The worker of a thread.

ghost use Rattle.std.specs.Prelude.{◌≡◌, ◌+◌, ◌<◌, ◌≤◌, ◌^◌, ℕ, [], ◌∷◌, ◌++◌, IfOk, OnOk, Some, vec_len, vec_capacity};
ghost use Rattle.script_tree.specs.Tree.{Tree};
ghost use Rattle.script_tree.specs.Pieces.{Trace};
ghost use Rattle.script_tree.specs.Traces.{IsTrace};
ghost use Rattle.script_proc.specs.declared.program.Program.{Program};
ghost use Rattle.script_proc.specs.Programs.{IsProgramOf};
ghost use Rattle.script_proc.specs.Items.{state_at, mode_at, with_next, call_if, IsNoLine, IsReady, KeepsAll};

use crate::item::{Item, Mode, Next};
use crate::places::{quick_line, quick_pass, slow_line, step};
use crate::program::Program;
use crate::replies::{
    end_statement, follow, hands_on, is_asking, is_frequent, put_asked, separate,
};
use crate::top::take_room;
use script_tree::Variables;
use std::alloc::{AllocError, Global};
use user_model::{Answer, Call};
use win_num::Thread;

/// The program of a thread in the middle of its trace. It keeps what is left to do and the variables, and
/// of its entries only their number.
#[derive(Drop)]
pub struct Worker {
    thread: u8,
    variables: Variables,
    mode: Mode,
    next: Next,
    call: Call,
    items: Vec<Item>,
    used: u32,
}

impl Worker {
    ghost use Rattle.script_proc.specs.Workers.{IsWorkerOf, IsAt, thread_of, uses, call_of, next_of, end_of};

    /// The worker of a thread, from 1, at the beginning of its body in that program. `AllocError` comes
    /// only for want of memory.
    pub fn new(alloc: Global, program: &Program, thread: u8) -> Result<Worker, AllocError>
        ensures { IfOk result (λ w. (s : Tree) → IsProgramOf s program.now → IsWorkerOf s program.now thread [] w) }
    {
        let mut items = Vec::new(alloc);
        items.push(Item::Making(Call::EndThread))?;
        Ok(Worker {
            thread,
            variables: Variables::start(),
            mode: Mode::Going,
            next: Next::Line(program.thread(thread)),
            call: Call::EndThread,
            items,
            used: 0,
        })
    }

    /// Its thread.
    pub fn thread(&self) -> Thread
        ensures { result.0 ≡ thread_of self.now }
    {
        Thread(self.thread)
    }

    /// How many entries its thread has made.
    pub fn used(&self) -> u32
        ensures used { result ≡ uses self.now }
    {
        self.used
    }

    /// Goes on to the next call, None exactly where the program has ended. It has made no entry, also
    /// where memory is wanting, and may then be asked again. It is asked with the program that it was made
    /// with.
    pub fn next_call(&mut self, program: &Program) -> Result<Option<Call>, AllocError>
        ensures worker { (s : Tree) (t : ℕ) (tr : Trace) → IsWorkerOf s program.now t tr self.old → IsWorkerOf s program.now t tr self.new }
        ensures next { IfOk result (λ next. (s : Tree) (t : ℕ) (tr : Trace) → IsWorkerOf s program.now t tr self.old → IsTrace s t tr (end_of next)) }
        ensures at { IfOk result (IsAt self.new) }
        ensures used { uses self.new ≡ uses self.old }
        ensures thread { thread_of self.new ≡ thread_of self.old }
    {
        if self.go_on(program)? {
            Ok(Some(self.call))
        } else {
            Ok(None)
        }
    }

    /// Goes on to the next call, and tells whether there is one: false exactly where the program has ended.
    /// `call` then tells the call. It has made no entry, also where memory is wanting, and may then be asked
    /// again. It is asked with the program that it was made with.
    pub fn go_on(&mut self, program: &Program) -> Result<bool, AllocError>
        ensures worker { (s : Tree) (t : ℕ) (tr : Trace) → IsWorkerOf s program.now t tr self.old → IsWorkerOf s program.now t tr self.new }
        ensures next { IfOk result (λ more. (s : Tree) (t : ℕ) (tr : Trace) → IsWorkerOf s program.now t tr self.old → IsTrace s t tr (end_of (next_of self.new more))) }
        ensures at { IfOk result (λ more. IsAt self.new (next_of self.new more)) }
        ensures used { uses self.new ≡ uses self.old }
        ensures thread { thread_of self.new ≡ thread_of self.old }
    {
        settle(
            program,
            &mut self.items,
            &mut self.variables,
            &mut self.mode,
            &mut self.next,
            &mut self.call,
            self.used,
        )
    }

    /// The call at which it stands, once it has gone on to one.
    pub fn call(&self) -> &Call
        ensures { result.now ≡ call_of self.now }
    {
        &self.call
    }

    /// Takes the answer to its next call, which is one entry more.
    pub fn take(&mut self, call: &Call, answer: &Answer)
        requires at { IsAt self.old (Some call.now) }
        requires room { uses self.old + 1 < 2 ^ 32 }
        ensures worker { (s : Tree) (p : Program) (t : ℕ) (tr : Trace) → IsWorkerOf s p t tr self.old → IsWorkerOf s p t (tr ++ (call.now, answer.now) ∷ []) self.new }
        ensures used { uses self.new ≡ uses self.old + 1 }
        ensures thread { thread_of self.new ≡ thread_of self.old }
    {
        self.call = *call;
        self.take_answer(answer);
    }

    /// Takes the answer to the call at which it stands, which is one entry more.
    pub fn take_answer(&mut self, answer: &Answer)
        requires at { IsAt self.old (Some (call_of self.old)) }
        requires room { uses self.old + 1 < 2 ^ 32 }
        ensures worker { (s : Tree) (p : Program) (t : ℕ) (tr : Trace) → IsWorkerOf s p t tr self.old → IsWorkerOf s p t (tr ++ (call_of self.old, answer.now) ∷ []) self.new }
        ensures used { uses self.new ≡ uses self.old + 1 }
        ensures thread { thread_of self.new ≡ thread_of self.old }
    {
        if let Next::Stating(at) = self.next {
            if is_frequent(answer) {
                self.used += 1;
                end_statement(&self.call, answer, &mut self.variables);
                self.next = Next::Line(at);
                return;
            }
        }
        self.take_any(answer);
    }

    /// The same for any answer.
    #[inline(never)]
    fn take_any(&mut self, answer: &Answer)
        requires at { IsAt self.old (Some (call_of self.old)) }
        requires room { uses self.old + 1 < 2 ^ 32 }
        ensures worker { (s : Tree) (p : Program) (t : ℕ) (tr : Trace) → IsWorkerOf s p t tr self.old → IsWorkerOf s p t (tr ++ (call_of self.old, answer.now) ∷ []) self.new }
        ensures used { uses self.new ≡ uses self.old + 1 }
        ensures thread { thread_of self.new ≡ thread_of self.old }
    {
        self.used += 1;
        if let Next::Stating(at) = self.next {
            if hands_on(&self.call, answer) {
                end_statement(&self.call, answer, &mut self.variables);
                self.next = Next::Line(at);
                return;
            }
        }
        separate(&mut self.items, &mut self.next, &self.call);
        follow(
            &mut self.items,
            &self.call,
            answer,
            &mut self.variables,
            &mut self.mode,
        );
    }
}

/// Goes on to the next call, if there is one, and takes room for what follows its answer. The traces from
/// here on stay, whatever the result.
fn settle(
    program: &Program,
    items: &mut Vec<Item>,
    variables: &mut Variables,
    mode: &mut Mode,
    next: &mut Next,
    call: &mut Call,
    used: u32,
) -> Result<bool, AllocError>
    ensures kept { (s : Tree) → IsProgramOf s program.now → KeepsAll s program.now used (with_next items.old.items call.old next.old) (state_at variables.old mode.old next.old) (with_next items.new.items call.new next.new) (state_at variables.new mode.new next.new) }
    ensures ready { IfOk result (λ more. IsReady (with_next items.new.items call.new next.new) (mode_at mode.new next.new) (call_if call.new more)) }
    ensures no_line { OnOk result (IsNoLine next.new) }
    ensures room { OnOk result (vec_len items.new + 7 ≤ vec_capacity items.new) }
{
    let mut ahead = *next;
    'steps: loop {
        match ahead {
            Next::Line(at) => match quick_line(program, at, variables, mode, call) {
                Some(following) => ahead = following,
                None => {
                    *next = ahead;
                    take_room(items)?;
                    ahead = slow_line(program, items, at, variables, mode, used);
                }
            },
            Next::Stating(_) => {
                *next = ahead;
                take_room(items)?;
                return Ok(true);
            }
            Next::Top => match quick_pass(program, items, variables, mode, used) {
                Some(at) => ahead = Next::Line(at),
                None => {
                    *next = ahead;
                    take_room(items)?;
                    let Some(item) = items.last() else {
                        return Ok(false);
                    };
                    if is_asking(item, mode) {
                        put_asked(item, mode, call);
                        return Ok(true);
                    }
                    ahead = step(program, items, variables, mode, call, used);
                }
            },
        }
    }
}

//! What items do, those that have a place in the program and the others.

ghost use Rattle.std.specs.Prelude.{◌≡◌, ◌≢◌, ◌+◌, ◌-◌, ◌<◌, ◌≤◌, ◌==◌, false, [], ◌∷◌, ◌++◌, ◌^◌, ℕ, List, min, if◌then◌else◌, IfSome, IfNone, vec_len, vec_capacity};
ghost use Rattle.script_tree.specs.Values.{holds as holds_of, value_of};
ghost use Rattle.script_tree.specs.Pieces.{Going};
ghost use Rattle.script_tree.specs.declared.variables.Variables.{Variables};
ghost use Rattle.script_proc.specs.declared.program.Program.{Program};
ghost use Rattle.script_proc.specs.declared.item.Item.{Item};
ghost use Rattle.script_proc.specs.Items.{state_of, state_at, with_next, IsPlain, IsSilent, IsWaitingIn};
ghost use Rattle.script_proc.specs.declared.item.Mode.{Mode};
ghost use Rattle.script_proc.specs.Works.{Last, Puts, Steps};
ghost use Rattle.script_proc.specs.Programs.{IsSlowAt};
ghost use Rattle.user_model.specs.declared.call.Call.{Call};

use crate::item::{Item, Mode, Next};
use crate::moves::{called, computes, lets, plain, settled, statement, through};
use crate::program::{Line, Program};
use crate::top::{drop_last, push_few, put_one, set_last};
use script_tree::{Operand, Run, Test, Variables};
use user_model::Call;

/// The place behind one, and so many lines further on; the last number where there is none.
fn behind(at: usize, passed: usize) -> usize
    requires { at < 2 ^ 64 - 1 }
    ensures { result ≡ min (at + 1 + passed) (2 ^ 64 - 1) }
{
    (at + 1).saturating_add(passed)
}

/// The `while` at a place: a pass comes next, or what stands behind it. The place of the line that comes
/// next.
fn while_at(
    items: &mut Vec<Item>,
    at: usize,
    test: &Test,
    passed: usize,
    variables: &Variables,
    used: u32,
) -> usize
    requires room { vec_len items.old + 5 ≤ vec_capacity items.old }
    requires short { at < 2 ^ 64 - 1 }
    ensures { items.new.items ++ Item.At result ∷ [] ≡ items.old.items ++ (if holds_of test.now variables.now then Item.PassEnd at used ∷ Item.At (at + 1) ∷ [] else Item.At (min (at + 1 + passed) (2 ^ 64 - 1)) ∷ []) }
{
    if test.holds(variables) {
        items.push_reserved(Item::PassEnd(at, used));
        at + 1
    } else {
        behind(at, passed)
    }
}

/// A statement that begins a compound or a `sleep`, over the place behind it.
#[inline(never)]
fn begins(items: &mut Vec<Item>, at: usize, line: &Line, variables: &Variables)
    requires room { vec_len items.old + 6 ≤ vec_capacity items.old }
    requires short { at < 2 ^ 64 - 1 }
    ensures { Puts line.now at variables.now items.old.items items.new.items }
{
    items.push_reserved(Item::At(at + 1));
    push_few(items, &statement(line, variables));
}

/// A `return`, over the place behind it.
#[inline(never)]
fn returns(
    items: &mut Vec<Item>,
    at: usize,
    operand: &Operand,
    variables: &Variables,
    mode: &mut Mode,
)
    requires room { vec_len items.old + 5 ≤ vec_capacity items.old }
    requires short { at < 2 ^ 64 - 1 }
    ensures items { items.new.items ≡ items.old.items ++ Item.At (at + 1) ∷ [] }
    ensures mode { mode.new ≡ Mode.Returning (value_of operand.now variables.now) }
{
    items.push_reserved(Item::At(at + 1));
    *mode = Mode::Returning(operand.value(variables));
}

/// What comes next is handed nothing.
pub fn hand_nothing(mode: &mut Mode)
    ensures { mode.new ≡ Mode.Going }
{
    if !matches!(mode, Mode::Going) {
        *mode = Mode::Going;
    }
}

/// The line at a place of the program where it puts no item above the others. None comes where it puts some, and then
/// nothing has changed.
#[inline(always)]
pub fn quick_line(
    program: &Program,
    at: usize,
    variables: &mut Variables,
    mode: &mut Mode,
    call: &mut Call,
) -> Option<Next>
    ensures quick { IfSome result (λ next. (below : List Item) (used : ℕ) → Steps program.now used (below ++ Item.At at ∷ []) (Going variables.old) (with_next below call.new next) (state_at variables.new mode.new next)) }
    ensures slow { IfNone result (IsSlowAt program.now at × (variables.new ≡ variables.old) × (mode.new ≡ mode.old) × (call.new ≡ call.old)) }
{
    let Some(line) = program.lines().get(at) else {
        hand_nothing(mode);
        return Some(Next::Top);
    };
    match *line {
        Line::If(test, passed) => {
            if test.holds(variables) {
                Some(Next::Line(at + 1))
            } else {
                Some(Next::Line(behind(at, passed)))
            }
        }
        Line::Else(passed) => Some(Next::Line(behind(at, passed))),
        Line::End => {
            hand_nothing(mode);
            Some(Next::Top)
        }
        Line::Call(statement) => {
            called(statement, variables, call);
            Some(Next::Stating(at + 1))
        }
        Line::Let(letter, operand) => {
            lets(letter, operand, variables);
            Some(Next::Line(at + 1))
        }
        Line::Compute(letter, operator, left, right) => {
            computes(letter, left, operator, right, variables);
            Some(Next::Line(at + 1))
        }
        _ => None,
    }
}

/// The line at a place of the program that puts items above the others.
#[inline(never)]
pub fn slow_line(
    program: &Program,
    items: &mut Vec<Item>,
    at: usize,
    variables: &Variables,
    mode: &mut Mode,
    used: u32,
) -> Next
    requires slow { IsSlowAt program.now at }
    requires room { vec_len items.old + 6 ≤ vec_capacity items.old }
    ensures { (call : Call) → Steps program.now used (items.old.items ++ Item.At at ∷ []) (Going variables.now) (with_next items.new.items call result) (state_at variables.now mode.new result) }
{
    hand_nothing(mode);
    let Some(line) = program.lines().get(at) else {
        return Next::Top;
    };
    match *line {
        Line::While(test, passed) => {
            Next::Line(while_at(items, at, test, passed, variables, used))
        }
        Line::Return(operand) => {
            returns(items, at, operand, variables, mode);
            Next::Top
        }
        _ => {
            begins(items, at, line, variables);
            Next::Top
        }
    }
}

/// The line at a place of the program, above the items.
#[inline(never)]
fn line_at(
    program: &Program,
    items: &mut Vec<Item>,
    at: usize,
    variables: &mut Variables,
    mode: &mut Mode,
    call: &mut Call,
    used: u32,
) -> Next
    requires room { vec_len items.old + 6 ≤ vec_capacity items.old }
    ensures { Steps program.now used (items.old.items ++ Item.At at ∷ []) (Going variables.old) (with_next items.new.items call.new result) (state_at variables.new mode.new result) }
{
    match quick_line(program, at, variables, mode, call) {
        Some(next) => next,
        None => slow_line(program, items, at, variables, mode, used),
    }
}

/// The `while` at a place once more, above the items.
fn once(
    program: &Program,
    items: &mut Vec<Item>,
    at: usize,
    variables: &Variables,
    used: u32,
) -> Next
    requires room { vec_len items.old + 5 ≤ vec_capacity items.old }
    ensures { (mode : Mode) (call : Call) → mode ≡ Mode.Going → Steps program.now used (items.old.items ++ Item.Once at ∷ []) (Going variables.now) (with_next items.new.items call result) (state_at variables.now mode result) }
{
    let Some(line) = program.lines().get(at) else {
        return Next::Top;
    };
    match *line {
        Line::While(test, passed) => {
            Next::Line(while_at(items, at, test, passed, variables, used))
        }
        _ => Next::Top,
    }
}

/// A pass without an entry in it ends: a `yield` comes, and then the test again.
#[inline(never)]
fn yields(items: &mut Vec<Item>, at: usize)
    requires room { vec_len items.old + 2 ≤ vec_capacity items.old }
    requires some { items.old.items ≢ [] }
    ensures { (below : List Item) (item : Item) → items.old.items ≡ below ++ item ∷ [] → items.new.items ≡ below ++ Item.Once at ∷ Item.Quiet ∷ Item.Making Call.Yield ∷ [] }
{
    put_one(items, Item::Once(at));
    items.push_reserved(Item::Quiet);
    items.push_reserved(Item::Making(Call::Yield));
}

/// Another pass begins, after so many entries; its end is the last item.
fn begin_pass(items: &mut Vec<Item>, used: u32)
    requires { items.old.items ≢ [] }
    ensures { (below : List Item) (at began : ℕ) → items.old.items ≡ below ++ Item.PassEnd at began ∷ [] → items.new.items ≡ below ++ Item.PassEnd at used ∷ [] }
{
    let last = items.len() - 1;
    if let Item::PassEnd(_, began) = &mut items[last] {
        *began = used;
    }
}

/// The same as `while_at` behind a pass, whose end is the last item.
fn again_at(
    items: &mut Vec<Item>,
    at: usize,
    test: &Test,
    passed: usize,
    variables: &Variables,
    used: u32,
) -> usize
    requires some { items.old.items ≢ [] }
    requires short { at < 2 ^ 64 - 1 }
    ensures { (below : List Item) (began : ℕ) → items.old.items ≡ below ++ Item.PassEnd at began ∷ [] → items.new.items ++ Item.At result ∷ [] ≡ below ++ (if holds_of test.now variables.now then Item.PassEnd at used ∷ Item.At (at + 1) ∷ [] else Item.At (min (at + 1 + passed) (2 ^ 64 - 1)) ∷ []) }
{
    if test.holds(variables) {
        begin_pass(items, used);
        at + 1
    } else {
        drop_last(items);
        behind(at, passed)
    }
}

/// A pass with an entry in it ends: the test comes again, and another pass or what stands behind.
fn passes_again(
    program: &Program,
    items: &mut Vec<Item>,
    at: usize,
    variables: &Variables,
    used: u32,
) -> Next
    requires some { items.old.items ≢ [] }
    ensures { (below : List Item) (began : ℕ) (mode : Mode) (call : Call) → items.old.items ≡ below ++ Item.PassEnd at began ∷ [] → (used == began) ≡ false → mode ≡ Mode.Going → Steps program.now used items.old.items (Going variables.now) (with_next items.new.items call result) (state_at variables.now mode result) }
{
    let Some(line) = program.lines().get(at) else {
        drop_last(items);
        return Next::Top;
    };
    match *line {
        Line::While(test, passed) => {
            Next::Line(again_at(items, at, test, passed, variables, used))
        }
        _ => {
            drop_last(items);
            Next::Top
        }
    }
}

/// The end of a pass with an entry in it, where another pass comes: the place of its first line. None comes where
/// something else is next, and then nothing has changed.
#[inline(always)]
pub fn quick_pass(
    program: &Program,
    items: &mut Vec<Item>,
    variables: &Variables,
    mode: &Mode,
    used: u32,
) -> Option<usize>
    ensures quick { IfSome result (λ at. (call : Call) → Steps program.now used items.old.items (state_of variables.now mode.now) (with_next items.new.items call (Next.Line at)) (Going variables.now)) }
    ensures slow { IfNone result (items.new.items ≡ items.old.items) }
{
    let Mode::Going = mode else {
        return None;
    };
    let Some(Item::PassEnd(at, began)) = items.last() else {
        return None;
    };
    let at = *at;
    if used == *began {
        return None;
    }
    let Some(Line::While(test, _)) = program.lines().get(at) else {
        return None;
    };
    if !test.holds(variables) {
        return None;
    }
    begin_pass(items, used);
    Some(at + 1)
}

/// A procedure begins to run. The place of its first line.
#[inline(never)]
fn running(program: &Program, items: &mut Vec<Item>, run: Run, variables: &mut Variables) -> usize
    requires room { vec_len items.old + 4 ≤ vec_capacity items.old }
    requires some { items.old.items ≢ [] }
    ensures { (below : List Item) (n : ℕ) → items.old.items ≡ below ++ Item.Running run ∷ [] → Steps program.now n items.old.items (Going variables.old) (items.new.items ++ Item.At result ∷ []) (Going variables.new) }
{
    let restore = Item::Restore(variables.parameters);
    variables.parameters = run.parameters;
    put_one(items, restore);
    items.push_reserved(Item::Leaving(run));
    program.procedure(run.procedure)
}

/// The step of the last item, which has no place in the program and is handed nothing, or waits for an answer.
#[inline(never)]
fn placeless(items: &mut Vec<Item>, variables: &mut Variables, mode: &mut Mode)
    requires room { vec_len items.old + 4 ≤ vec_capacity items.old }
    requires some { items.old.items ≢ [] }
    requires plain { Last items.old.items IsPlain }
    requires silent { Last items.old.items (λ item. IsSilent item mode.old) }
    requires waiting { Last items.old.items (λ item. IsWaitingIn item mode.old) }
    ensures { (p : Program) (n : ℕ) → Steps p n items.old.items (state_of variables.old mode.old) items.new.items (state_of variables.new mode.new) }
{
    let Some(item) = items.last() else {
        return;
    };
    let few = plain(item, variables, mode);
    set_last(items, &few);
}

/// The step of the last item where it gets nothing.
fn going(
    program: &Program,
    items: &mut Vec<Item>,
    variables: &mut Variables,
    mode: &mut Mode,
    call: &mut Call,
    used: u32,
) -> Next
    requires going { mode.old ≡ Mode.Going }
    requires room { vec_len items.old + 6 ≤ vec_capacity items.old }
    requires some { items.old.items ≢ [] }
    requires silent { Last items.old.items (λ item. IsSilent item mode.old) }
    ensures { Steps program.now used items.old.items (Going variables.old) (with_next items.new.items call.new result) (state_at variables.new mode.new result) }
{
    let Some(item) = items.last() else {
        return Next::Top;
    };
    match item {
        Item::At(at) => {
            let at = *at;
            drop_last(items);
            line_at(program, items, at, variables, mode, call, used)
        }
        Item::Once(at) => {
            let at = *at;
            drop_last(items);
            once(program, items, at, variables, used)
        }
        Item::PassEnd(at, began) => {
            let at = *at;
            if used == *began {
                yields(items, at);
                return Next::Top;
            }
            passes_again(program, items, at, variables, used)
        }
        Item::Running(run) => {
            let run = *run;
            Next::Line(running(program, items, run, variables))
        }
        _ => {
            placeless(items, variables, mode);
            Next::Top
        }
    }
}

/// The end of a procedure: the value of a `return` is its result, and an answer is handed on.
fn leaving(items: &mut Vec<Item>, run: Run, mode: &mut Mode)
    requires handed { mode.old ≢ Mode.Going }
    requires room { vec_len items.old + 4 ≤ vec_capacity items.old }
    requires some { items.old.items ≢ [] }
    ensures { (below : List Item) (p : Program) (n : ℕ) (v : Variables) → items.old.items ≡ below ++ Item.Leaving run ∷ [] → Steps p n items.old.items (state_of v mode.old) items.new.items (state_of v mode.new) }
{
    let Mode::Returning(value) = *mode else {
        drop_last(items);
        return;
    };
    put_one(items, Item::Left(value));
    items.push_reserved(Item::Leaves(run.frame, value));
    *mode = Mode::Going;
}

/// A call that is made once more behind a procedure; an answer is handed on.
fn again(items: &mut Vec<Item>, call: Call, mode: &mut Mode)
    requires handed { mode.old ≢ Mode.Going }
    requires some { items.old.items ≢ [] }
    ensures { (below : List Item) (p : Program) (n : ℕ) (v : Variables) → items.old.items ≡ below ++ Item.Again call ∷ [] → Steps p n items.old.items (state_of v mode.old) items.new.items (state_of v mode.new) }
{
    let Mode::Returning(_) = *mode else {
        drop_last(items);
        return;
    };
    put_one(items, Item::Making(call));
    *mode = Mode::Going;
}

/// The step of the last item where it is handed something: one that has a place hands it on.
fn handed(items: &mut Vec<Item>, variables: &mut Variables, mode: &mut Mode)
    requires handed { mode.old ≢ Mode.Going }
    requires room { vec_len items.old + 4 ≤ vec_capacity items.old }
    requires some { items.old.items ≢ [] }
    requires silent { Last items.old.items (λ item. IsSilent item mode.old) }
    ensures { (p : Program) (n : ℕ) → Steps p n items.old.items (state_of variables.old mode.old) items.new.items (state_of variables.new mode.new) }
{
    let Some(item) = items.last() else {
        return;
    };
    match item {
        Item::Settle(_) | Item::Quiet => {
            settled(item, variables, mode);
            drop_last(items);
        }
        Item::At(_) | Item::Once(_) | Item::PassEnd(_, _) | Item::Running(_) => drop_last(items),
        Item::Leaving(run) => {
            let run = *run;
            leaving(items, run, mode);
        }
        Item::Again(call) => {
            let call = *call;
            again(items, call, mode);
        }
        Item::Sleeping(_) | Item::Feed(_) => placeless(items, variables, mode),
        _ => {
            through(item, variables, mode);
            drop_last(items);
        }
    }
}

/// The step of the last item, which makes no call now.
pub fn step(
    program: &Program,
    items: &mut Vec<Item>,
    variables: &mut Variables,
    mode: &mut Mode,
    call: &mut Call,
    used: u32,
) -> Next
    requires room { vec_len items.old + 6 ≤ vec_capacity items.old }
    requires some { items.old.items ≢ [] }
    requires silent { Last items.old.items (λ item. IsSilent item mode.old) }
    ensures { Steps program.now used items.old.items (state_of variables.old mode.old) (with_next items.new.items call.new result) (state_at variables.new mode.new result) }
{
    match mode {
        Mode::Going => going(program, items, variables, mode, call, used),
        _ => {
            handed(items, variables, mode);
            Next::Top
        }
    }
}

//! What items do that make no call and have no place in the program.

ghost use Rattle.std.specs.Prelude.{◌≡◌, ◌≢◌, ℕ, [], ◌∷◌, ◌++◌};
ghost use Rattle.script_tree.specs.Tree.{Tree};
ghost use Rattle.script_tree.specs.declared.statement.Statement.{Statement};
ghost use Rattle.script_tree.specs.Values.{call_of, settled as settled_of};
ghost use Rattle.script_tree.specs.Pieces.{Settle, Left, Leaving, Going, Becomes};
ghost use Rattle.script_tree.specs.Compounds.{default_result};
ghost use Rattle.script_tree.specs.Steps.{statement as statement_of, step, begins, returns_to, takes, goes_on, sleeps as sleeps_of, default_pieces};
ghost use Rattle.script_tree.specs.declared.variables.Variables.{Variables};
ghost use Rattle.script_proc.specs.Programs.{Says, IsCompound};
ghost use Rattle.script_proc.specs.declared.item.Item.{Item};
ghost use Rattle.script_proc.specs.Items.{piece, above, few_items, state_of, IsPlain, ArePlain, IsSilent, IsSettling, IsThrough, IsWaiting, IsWaitingIn};

use crate::item::{Few, Item, Mode};
use crate::program::Line;
use script_tree::{
    Begin, CallStatement, Lead, Letter, Operand, Operator, Parameters, Place, Run, Variables,
};
use user_model::{Answer, Call};
use win_num::Frame;

/// The statement `default` (Microsoft, DefWindowProc function).
fn default_statement(parameters: &Parameters) -> Few
    ensures plain { ArePlain (few_items result) }
    ensures pieces { above (few_items result) ≡ default_pieces parameters.now (Settle (Call.Doom parameters.now.hwnd) ∷ []) }
{
    let settle = Item::Settle(Call::Doom(parameters.hwnd));
    let result = parameters.default_result();
    match parameters.default_begin() {
        None => Few::Two(settle, Item::Giving(Answer::Value(result))),
        Some(begin) => {
            let defaulting = Item::Feed(Place::Defaulting(result));
            let feed = Item::Feed(begin.place);
            Few::Four(settle, defaulting, feed, Item::Making(begin.call))
        }
    }
}

/// The default procedure at the end of a procedure, whose result it is, whatever it is answered.
fn default_end(run: Run) -> Few
    ensures plain { ArePlain (few_items result) }
    ensures pieces { above (few_items result) ≡ default_pieces run.parameters (Left (default_result run.parameters) ∷ Leaving run ∷ []) }
{
    let leaving = Item::Leaving(run);
    let result = run.parameters.default_result();
    let left = Item::Left(result);
    match run.parameters.default_begin() {
        None => Few::Three(leaving, left, Item::Giving(Answer::Value(result))),
        Some(begin) => {
            let defaulting = Item::Feed(Place::Defaulting(result));
            let feed = Item::Feed(begin.place);
            Few::Five(leaving, left, defaulting, feed, Item::Making(begin.call))
        }
    }
}

/// A compound of a statement begins, whose end sets `r` and `err` by that call.
fn settled_by(settling: Call, begin: Begin) -> Few
    ensures { result ≡ Few.Three (Item.Settle settling) (Item.Feed begin.place) (Item.Making begin.call) }
{
    let settle = Item::Settle(settling);
    let feed = Item::Feed(begin.place);
    Few::Three(settle, feed, Item::Making(begin.call))
}

/// The same, where that call is its first one.
fn begins_with(begin: Begin) -> Few
    ensures { result ≡ Few.Three (Item.Settle begin.call) (Item.Feed begin.place) (Item.Making begin.call) }
{
    settled_by(begin.call, begin)
}

/// A `let` of one operand.
pub fn lets(letter: Letter, operand: &Operand, variables: &mut Variables)
    ensures { (n : ℕ) → Becomes [] (Going variables.new) ≡ statement_of (Statement.Let letter operand.now) variables.old n }
{
    let value = operand.value(variables);
    variables.assign(letter, value);
}

/// A `let` of two operands and an operator.
#[inline(always)]
pub fn computes(
    letter: Letter,
    left: &Operand,
    operator: Operator,
    right: &Operand,
    variables: &mut Variables,
)
    ensures { (n : ℕ) → Becomes [] (Going variables.new) ≡ statement_of (Statement.Compute letter left.now operator right.now) variables.old n }
{
    let value = operator.compute(left.value(variables), right.value(variables));
    variables.assign(letter, value);
}

/// The call of a statement, which settles what it is answered.
#[inline(always)]
pub fn called(statement: &CallStatement, variables: &Variables, call: &mut Call)
    ensures { (line' : Statement) (n : ℕ) → line' ≡ Statement.Call statement.now → Becomes (above (Item.Settle call.new ∷ Item.Making call.new ∷ [])) (Going variables.now) ≡ statement_of line' variables.now n }
{
    put_call(statement, variables, call);
}

/// Puts the call of a statement in its place. The most frequent calls are made there at once.
#[inline(always)]
fn put_call(statement: &CallStatement, variables: &Variables, call: &mut Call)
    ensures { call.new ≡ call_of statement.now variables.now }
{
    match statement {
        CallStatement::Get(window, least, greatest) => {
            *call = Call::Get(
                window.value(variables),
                least.value(variables),
                greatest.value(variables),
            );
        }
        CallStatement::Post(window, number, wparam, lparam) => {
            *call = Call::Post(
                window.value(variables),
                number.value(variables),
                wparam.value(variables),
                lparam.value(variables),
            );
        }
        CallStatement::PostThread(thread, number, wparam, lparam) => {
            *call = Call::PostThread(
                thread.value(variables),
                number.value(variables),
                wparam.value(variables),
                lparam.value(variables),
            );
        }
        _ => put_other_call(statement, variables, call),
    }
}

/// The same for any statement.
#[inline(never)]
fn put_other_call(statement: &CallStatement, variables: &Variables, call: &mut Call)
    ensures { call.new ≡ call_of statement.now variables.now }
{
    *call = statement.call(variables);
}

/// What a statement does that begins a compound or a `sleep`, above the place behind it.
pub fn statement(line: &Line, variables: &Variables) -> Few
    ensures plain { ArePlain (few_items result) }
    ensures step { (line' : Statement) (n : ℕ) → IsCompound line.now → Says line.now line' → Becomes (above (few_items result)) (Going variables.now) ≡ statement_of line' variables.now n }
{
    match *line {
        Line::Sleep(ms) => {
            let sleeping = Item::Sleeping(ms.value(variables));
            Few::Two(sleeping, Item::Making(Call::Clock))
        }
        Line::Create(creation) => begins_with(Begin::creation(creation.call(variables))),
        Line::Destroy(window) => begins_with(Begin::destruction(window.value(variables))),
        Line::Compound(compound) => {
            settled_by(compound.settling_call(variables), compound.begin(variables))
        }
        Line::Default => default_statement(&variables.parameters),
        _ => Few::Nothing,
    }
}

/// The step of an item that gets nothing.
fn going(item: &Item, variables: &mut Variables, mode: &mut Mode) -> Few
    requires going { mode.old ≡ Mode.Going }
    requires plain { IsPlain item.now }
    requires silent { IsSilent item.now Mode.Going }
    ensures plain { ArePlain (few_items result) }
    ensures step { (s : Tree) (n : ℕ) → Becomes (above (few_items result)) (state_of variables.new mode.new) ≡ begins s (piece item.now) variables.old n }
{
    match *item {
        Item::Leaving(run) => {
            if matches!(run.frame, Frame::CallbackRun) {
                return Few::Two(Item::Left(0), Item::Leaves(run.frame, 0));
            }
            default_end(run)
        }
        Item::Restore(parameters) => {
            variables.parameters = parameters;
            Few::Nothing
        }
        Item::Giving(answer) => {
            *mode = Mode::Given(answer, 0);
            Few::Nothing
        }
        _ => Few::Nothing,
    }
}

/// What a `sleep` does whose `clock` was answered so.
fn sleeps(ms: u64, answer: Answer, value: u64) -> Few
    ensures plain { ArePlain (few_items result) }
    ensures step { (v : Variables) → Becomes (above (few_items result)) (Going v) ≡ sleeps_of ms v answer value }
{
    match answer {
        Answer::Refused(_) => Few::Nothing,
        _ => {
            let call = Call::SleepUntil(value.saturating_add(ms));
            Few::Two(Item::Settle(call), Item::Making(call))
        }
    }
}

/// What a compound does next.
fn compound(next: Lead, mode: &mut Mode) -> Few
    requires { mode.old ≡ Mode.Going }
    ensures plain { ArePlain (few_items result) }
    ensures step { (v : Variables) → Becomes (above (few_items result)) (state_of v mode.new) ≡ goes_on v next }
{
    match next {
        Lead::Calls(call, place) => Few::Two(Item::Feed(place), Item::Making(call)),
        Lead::Runs(begin, place) => {
            let outer = Item::Feed(place);
            let feed = Item::Feed(begin.place);
            Few::Three(outer, feed, Item::Making(begin.call))
        }
        Lead::Ends(answer) => {
            *mode = Mode::Given(answer, 0);
            Few::Nothing
        }
    }
}

/// The step of a `sleep` or a compound that gets the answer to its call and its result.
fn given(item: &Item, variables: &mut Variables, mode: &mut Mode, answer: Answer, value: u64) -> Few
    requires given { mode.old ≡ Mode.Given answer value }
    requires waiting { IsWaiting item.now }
    ensures plain { ArePlain (few_items result) }
    ensures step { Becomes (above (few_items result)) (state_of variables.new mode.new) ≡ takes (piece item.now) variables.old answer value }
{
    match *item {
        Item::Sleeping(ms) => {
            variables.settle(&Call::Clock, &answer, value);
            *mode = Mode::Going;
            sleeps(ms, answer, value)
        }
        Item::Feed(place) => {
            *mode = Mode::Going;
            compound(place.after(&answer, value), mode)
        }
        _ => Few::Nothing,
    }
}

/// An item that ends a statement: an answer sets what it says, and anything else goes on to the next.
pub fn settled(item: &Item, variables: &mut Variables, mode: &mut Mode)
    requires handed { mode.old ≢ Mode.Going }
    ensures { (s : Tree) (n : ℕ) → IsSettling item.now → Becomes [] (state_of variables.new mode.new) ≡ step s (piece item.now) (state_of variables.old mode.old) n }
{
    let Mode::Given(answer, value) = mode else {
        return;
    };
    if let Item::Settle(call) = item {
        variables.settle(call, answer, *value);
    }
    *mode = Mode::Going;
}

/// The step of an item that hands on what it is handed, or something else, and in whose place nothing comes.
pub fn through(item: &Item, variables: &mut Variables, mode: &mut Mode)
    requires handed { mode.old ≢ Mode.Going }
    requires through { IsThrough item.now mode.old }
    ensures { (s : Tree) (n : ℕ) → Becomes [] (state_of variables.new mode.new) ≡ step s (piece item.now) (state_of variables.old mode.old) n }
{
    match (item, *mode) {
        (Item::Restore(parameters), Mode::Returning(_)) => variables.parameters = *parameters,
        (Item::Giving(answer), Mode::Returning(value)) => *mode = Mode::Given(*answer, value),
        (Item::Left(result), Mode::Given(_, _)) => *mode = Mode::Returning(*result),
        _ => {}
    }
}

/// The step of an item without a place in the program that is handed nothing, or of one that waits for an answer.
pub fn plain(item: &Item, variables: &mut Variables, mode: &mut Mode) -> Few
    requires plain { IsPlain item.now }
    requires silent { IsSilent item.now mode.old }
    requires waiting { IsWaitingIn item.now mode.old }
    ensures plain { ArePlain (few_items result) }
    ensures step { (s : Tree) (n : ℕ) → Becomes (above (few_items result)) (state_of variables.new mode.new) ≡ step s (piece item.now) (state_of variables.old mode.old) n }
{
    match *mode {
        Mode::Going => going(item, variables, mode),
        Mode::Returning(_) => Few::Nothing,
        Mode::Given(answer, value) => given(item, variables, mode, answer, value),
    }
}

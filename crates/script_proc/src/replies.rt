//! What follows a call and its answer.

ghost use Rattle.std.specs.Prelude.{◌≡◌, ◌≢◌, ◌+◌, ◌≤◌, [], ◌∷◌, ◌++◌, List, true, false, IsTrue, IsSome, Some, if◌then◌else◌, vec_len, vec_capacity};
ghost use Rattle.script_tree.specs.Steps.{result_of as result_of_answer, follows, answered, given as given_of, is_last as is_last_of, parameters_of, parameters_from};
ghost use Rattle.user_model.specs.Stacks.{leaves as leaves_of, waits as waits_of};
ghost use Rattle.script_tree.specs.Values.{received, settled};
ghost use Rattle.user_model.specs.declared.call.Call.{Call};
ghost use Rattle.script_proc.specs.declared.item.Item.{Item};
ghost use Rattle.script_proc.specs.Items.{told as told_by, above, state_of, with_next, IsNoLine, asks, hands_on as hands_on_of, IsSilent, ArePlaceless};

use crate::item::{Item, Mode, Next};
use crate::top::{drop_last, put_one};
use script_tree::{Parameters, Run, Variables, result_of};
use user_model::{Answer, Call};
use win_num::{Frame, names};

/// Whether an item makes a call now.
pub fn is_asking(item: &Item, mode: &Mode) -> bool
    ensures silent { result ≡ false → IsSilent item.now mode.now }
    ensures asking { IsTrue result → IsSome (asks item.now mode.now) }
{
    match item {
        Item::Making(_) => !matches!(mode, Mode::Given(_, _)),
        Item::Leaves(_, _) => matches!(mode, Mode::Going),
        _ => false,
    }
}

/// Puts the call that an item makes now in its place.
#[inline(never)]
pub fn put_asked(item: &Item, mode: &Mode, call: &mut Call)
    requires { IsSome (asks item.now mode.now) }
    ensures { asks item.now mode.now ≡ Some call.new }
{
    match item {
        Item::Making(making) => *call = *making,
        Item::Leaves(_, value) => *call = Call::Leave(*value),
        _ => unreachable!(),
    }
}

fn is_last(call: &Call) -> bool
    ensures { result ≡ is_last_of call.now }
{
    matches!(call, Call::EndThread)
}

fn leaves(call: &Call) -> bool
    ensures { result ≡ leaves_of call.now }
{
    matches!(call, Call::Leave(_))
}

fn waits(call: &Call) -> bool
    ensures { result ≡ waits_of call.now }
{
    match call {
        Call::Send(_, _, _, _) => true,
        Call::SendTimeout(_, _, _, _, _, _) => true,
        _ => false,
    }
}

fn with(hwnd: u64, number: u64, wparam: u64, lparam: u64) -> Parameters
    ensures { result ≡ parameters_from hwnd number wparam lparam }
{
    Parameters {
        hwnd,
        number,
        wparam,
        lparam,
    }
}

/// The parameters of the procedure that a call runs.
fn parameters(call: &Call) -> Parameters
    ensures { result ≡ parameters_of call.now }
{
    match call {
        Call::Dispatch(w, m, p, q) => with(*w, *m, *p, *q),
        Call::Send(w, m, p, q) => with(*w, *m, *p, *q),
        Call::SendTimeout(w, m, p, q, _, _) => with(*w, *m, *p, *q),
        Call::SendNotify(w, m, p, q) => with(*w, *m, *p, *q),
        Call::SendCallback(w, m, p, q, _, _) => with(*w, *m, *p, *q),
        _ => Parameters::none(),
    }
}

/// The parameters of the procedure that an answer runs; a callback procedure gets the extra word and the
/// result (Microsoft, SENDASYNCPROC callback function).
fn told(answer: &Answer) -> Parameters
    ensures { result ≡ told_by answer.now }
{
    match answer {
        Answer::Enter {
            hwnd,
            number,
            wparam,
            lparam,
            ..
        } => with(u64::from(hwnd.0), u64::from(*number), *wparam, *lparam),
        Answer::Callback {
            hwnd,
            number,
            extra,
            result,
            ..
        } => with(u64::from(hwnd.0), u64::from(*number), *extra, *result),
        _ => Parameters::none(),
    }
}

/// The answer is handed on: nothing comes in the place of the last item.
fn gives(items: &mut Vec<Item>, answer: &Answer, variables: &mut Variables, mode: &mut Mode)
    requires { items.old.items ≢ [] }
    ensures items { (below : List Item) (item : Item) → items.old.items ≡ below ++ item ∷ [] → items.new.items ≡ below }
    ensures state { state_of variables.new mode.new ≡ given_of variables.old answer.now }
{
    variables.receive(answer);
    *mode = Mode::Given(*answer, result_of(answer));
    drop_last(items);
}

/// Whether the answer is handed on at once: no procedure runs for it, and no call is made for it again.
pub fn hands_on(call: &Call, answer: &Answer) -> bool
    ensures { result ≡ hands_on_of call.now answer.now }
{
    match answer {
        Answer::Wait => false,
        Answer::Enter { .. } | Answer::Callback { .. } => is_last(call),
        Answer::Inside(_, _) | Answer::Called(_) => is_last(call),
        Answer::Begun(_) => { if is_last(call) { true } else { !waits(call) } }
        _ => true,
    }
}

/// Whether an answer is one of the most frequent, which are handed on at once whatever the call.
#[inline(always)]
pub fn is_frequent(answer: &Answer) -> bool
    ensures { (call : Call) → result ≡ true → hands_on_of call answer.now ≡ true }
{
    matches!(answer, Answer::Posted(_) | Answer::Got { .. })
}

/// A procedure comes in the place of the last item, and behind it this.
fn runs(items: &mut Vec<Item>, procedure: u32, parameters: Parameters, frame: Frame, behind: Item)
    requires room { vec_len items.old + 1 ≤ vec_capacity items.old }
    requires some { items.old.items ≢ [] }
    ensures { (below : List Item) (item : Item) → items.old.items ≡ below ++ item ∷ [] → items.new.items ≡ below ++ behind ∷ Item.Running (record { procedure = procedure; parameters = parameters; frame = frame }) ∷ [] }
{
    put_one(items, behind);
    let run = Run {
        procedure,
        parameters,
        frame,
    };
    items.push_reserved(Item::Running(run));
}

/// What comes behind a callback procedure: the same call, and behind that of a `leave` its answer.
fn behind_callback(call: &Call, answer: &Answer) -> Item
    ensures { result ≡ (if leaves_of call.now then Item.Giving answer.now else Item.Again call.now) }
{
    if leaves(call) {
        Item::Giving(*answer)
    } else {
        Item::Again(*call)
    }
}

/// What follows an answer that isn't handed on, in the place of the last item: after `wait` the same call.
fn goes_on(items: &mut Vec<Item>, call: &Call, answer: &Answer)
    requires room { vec_len items.old + 4 ≤ vec_capacity items.old }
    requires some { items.old.items ≢ [] }
    ensures { (below : List Item) (item : Item) → items.old.items ≡ below ++ item ∷ [] → hands_on_of call.now answer.now ≡ false → (few : List Item) × (items.new.items ≡ below ++ few) × ArePlaceless few × (above few ≡ follows call.now answer.now) }
{
    match answer {
        Answer::Wait => put_one(items, Item::Making(*call)),
        Answer::Begun(send) => put_one(items, Item::Making(Call::Await(u64::from(send.0)))),
        Answer::Enter { send, proc_no, .. } => {
            let behind = Item::Again(*call);
            runs(items, *proc_no, told(answer), Frame::Entered(*send), behind);
        }
        Answer::Callback { proc_no, .. } => {
            let behind = behind_callback(call, answer);
            runs(items, *proc_no, told(answer), Frame::CallbackRun, behind);
        }
        Answer::Inside(send, proc_no) => {
            let behind = Item::Giving(*answer);
            runs(
                items,
                *proc_no,
                parameters(call),
                Frame::Inside(*send),
                behind,
            );
        }
        Answer::Called(proc_no) => {
            let behind = Item::Giving(*answer);
            runs(items, *proc_no, parameters(call), Frame::Called, behind);
        }
        _ => drop_last(items),
    }
}

/// The statement whose call was answered is over. The most frequent answers set `r` and `err` at once.
#[inline(always)]
pub fn end_statement(call: &Call, answer: &Answer, variables: &mut Variables)
    ensures { variables.new ≡ settled (received variables.old answer.now) call.now answer.now (result_of_answer answer.now) }
{
    match answer {
        Answer::Posted(_) => {
            variables.last_result = 1;
            variables.last_error = 0;
        }
        Answer::Got { msg, .. } => {
            variables.got = *msg;
            variables.last_result = u64::from(msg.number != names::WM_QUIT);
            variables.last_error = 0;
        }
        _ => end_by_any(call, answer, variables),
    }
}

/// The same for any answer.
#[inline(never)]
fn end_by_any(call: &Call, answer: &Answer, variables: &mut Variables)
    ensures { variables.new ≡ settled (received variables.old answer.now) call.now answer.now (result_of_answer answer.now) }
{
    variables.receive(answer);
    variables.settle(call, answer, result_of(answer));
}

/// The call of a statement stands apart from what it sets, and from the place behind it.
#[inline(never)]
pub fn separate(items: &mut Vec<Item>, next: &mut Next, call: &Call)
    requires no_line { IsNoLine next.old }
    requires room { vec_len items.old + 7 ≤ vec_capacity items.old }
    ensures room { vec_len items.new + 4 ≤ vec_capacity items.new }
    ensures items { items.new.items ≡ with_next items.old.items call.now next.old }
    ensures next { next.new ≡ Next.Top }
{
    if let Next::Stating(at) = *next {
        items.push_reserved(Item::At(at));
        items.push_reserved(Item::Settle(*call));
        items.push_reserved(Item::Making(*call));
        *next = Next::Top;
    }
}

/// What follows a call and its answer, in the place of the item that made the call.
#[inline(never)]
pub fn follow(
    items: &mut Vec<Item>,
    call: &Call,
    answer: &Answer,
    variables: &mut Variables,
    mode: &mut Mode,
)
    requires room { vec_len items.old + 4 ≤ vec_capacity items.old }
    requires some { items.old.items ≢ [] }
    ensures items { (below : List Item) (item : Item) → items.old.items ≡ below ++ item ∷ [] → (few : List Item) × (items.new.items ≡ below ++ few) × ArePlaceless few × (above few ≡ follows call.now answer.now) }
    ensures state { state_of variables.new mode.new ≡ answered call.now answer.now variables.old }
{
    if hands_on(call, answer) {
        gives(items, answer, variables, mode);
    } else {
        *mode = Mode::Going;
        goes_on(items, call, answer);
    }
}

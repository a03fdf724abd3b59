//! How a compound begins and ends, and where its calls lead.

ghost use Rattle.std.specs.Prelude.{◌≡◌, ◌∷◌, [], ℕ};
ghost use Rattle.script_tree.specs.Tree.{Tree};
ghost use Rattle.script_tree.specs.Compounds.{broadcast, broadcasting};
ghost use Rattle.script_tree.specs.Pieces.{Settle, Going, Given};
ghost use Rattle.script_tree.specs.Steps.{default_pieces};
ghost use Rattle.script_tree.specs.declared.variables.Variables.{Variables};
ghost use Rattle.win_calls.specs.declared.compound.Got.{Got};
ghost use Rattle.win_calls.specs.Table.{begun, begin_of};
ghost use Rattle.win_calls.specs.States.{IsTurn, Accepts, Awaits, Leads, behind, first_turn, within as within_of, outer as outer_of};

use crate::compound::{Compound, Next};
use crate::stage::{Around, Stage, Step, Turn};
use script_tree::{Begin, Broadcast, Lead, Parameters, Place, Spread, Variables};
use user_model::{Answer, Call};

/// Makes its call.
pub fn asks(turn: Turn) -> Step
    ensures step { result ≡ record { stage = Stage.Asked turn; next = Next.Make turn.call } }
    ensures accepts { (g : Got) → Awaits result.next g → Accepts result.stage g }
{
    Step {
        stage: Stage::Asked(turn),
        next: Next::Make(turn.call),
    }
}

/// It has ended.
fn over(r: u64, err: u16) -> Step
    ensures step { result ≡ record { stage = Stage.Over; next = Next.Done r err } }
    ensures accepts { (g : Got) → Awaits result.next g → Accepts result.stage g }
{
    Step {
        stage: Stage::Over,
        next: Next::Done { r, err },
    }
}

/// It ends with this answer and this result of the procedure that ran for it, and its statement is that of this call.
fn ended(statement: Call, answer: Answer, value: u64) -> Step
    ensures follows { (s : Tree) (n : ℕ) (v : Variables) → Leads s n (Settle statement ∷ []) (Given v answer value) result.stage result.next }
    ensures accepts { (g : Got) → Awaits result.next g → Accepts result.stage g }
{
    let mut variables = Variables::start();
    variables.settle(&statement, &answer, value);
    over(variables.last_result, variables.last_error)
}

/// One compound more around the one that begins inside of it. No compound of the table is more than three
/// deep.
fn within(place: Place, around: Around) -> Around
    ensures { result ≡ within_of place around }
{
    match around {
        Around::Nobody => Around::One(place),
        Around::One(outer) => Around::Two(place, outer),
        Around::Two(outer, _) => Around::Two(place, outer),
    }
}

/// The same turn at the place of the compound around it. None comes exactly where none is around.
fn outer(turn: Turn) -> Option<Turn>
    ensures { result ≡ outer_of turn }
{
    let (place, around) = match turn.around {
        Around::Nobody => return None,
        Around::One(place) => (place, Around::Nobody),
        Around::Two(place, outer) => (place, Around::One(outer)),
    };
    Some(Turn {
        place: Some(place),
        around,
        ..turn
    })
}

/// Its call has this answer, with this result of the procedure that ran for it. A statement that is this call alone
/// ends; where a compound ends inside of another, that one goes on with the answer.
pub fn gives(turn: Turn, answer: Answer, value: u64) -> Step
    ensures follows { (s : Tree) (n : ℕ) (v : Variables) → IsTurn turn → Leads s n (behind turn) (Given v answer value) result.stage result.next }
    ensures accepts { (g : Got) → Awaits result.next g → Accepts result.stage g }
{
    let Some(at) = turn.place else {
        return ended(turn.statement, answer, value);
    };
    match at.after(&answer, value) {
        Lead::Calls(call, place) => asks(Turn {
            call,
            place: Some(place),
            ..turn
        }),
        Lead::Runs(begin, place) => asks(Turn {
            call: begin.call,
            place: Some(begin.place),
            around: within(place, turn.around),
            ..turn
        }),
        Lead::Ends(last) => match outer(turn) {
            None => ended(turn.statement, last, 0),
            Some(outer) => gives(outer, last, 0),
        },
    }
}

/// It makes its first call.
fn starts(begin: Begin, around: Around, statement: Call) -> Step
    ensures step { result ≡ record { stage = Stage.Asked (first_turn begin around statement); next = Next.Make begin.call } }
    ensures accepts { (g : Got) → Awaits result.next g → Accepts result.stage g }
{
    asks(Turn {
        call: begin.call,
        place: Some(begin.place),
        around,
        statement,
    })
}

/// A compound that brings a message to each top-level window.
fn broadcasts(spread: Spread, number: u64, wparam: u64, lparam: u64) -> Begin
    ensures { result ≡ broadcasting (broadcast spread number wparam lparam) }
{
    Begin::broadcasting(Broadcast {
        spread,
        number,
        wparam,
        lparam,
    })
}

/// How it begins. `default` begins so only where it destroys its window.
fn beginning(compound: Compound) -> Begin
    ensures { result ≡ begin_of compound }
{
    match compound {
        Compound::Create(class, title, parent, style, extended, left, top, right, bottom) => {
            Begin::creation(Call::NewWindow(
                class, title, parent, style, extended, left, top, right, bottom,
            ))
        }
        Compound::Destroy(window) => Begin::destruction(window),
        Compound::ShowWindow(window, on) => Begin::notifying(Call::Show(window, on)),
        Compound::EnableWindow(window, on) => Begin::notifying(Call::Enable(window, on)),
        Compound::SetWindowPos(window, after, left, top, right, bottom, flags) => {
            Begin::notifying(Call::Place(window, after, left, top, right, bottom, flags))
        }
        Compound::SetFocus(window) => Begin::notifying(Call::SetFocus(window)),
        Compound::SetActive(window) => Begin::notifying(Call::SetActive(window)),
        Compound::SetCapture(window) => Begin::notifying(Call::SetCapture(window)),
        Compound::ReleaseCapture => Begin::notifying(Call::ReleaseCapture),
        Compound::BeginPaint(window) => Begin::notifying(Call::BeginPaint(window)),
        Compound::UpdateWindow(window) => Begin::notifying(Call::UpdateRect(window)),
        Compound::PostAll(number, wparam, lparam) => {
            broadcasts(Spread::Posts, number, wparam, lparam)
        }
        Compound::NotifyAll(number, wparam, lparam) => {
            broadcasts(Spread::Notifies, number, wparam, lparam)
        }
        Compound::Default(window, _, _, _) => Begin::destruction(window),
    }
}

/// `default` begins: it makes a call only where a compound is inside of it.
fn defaults(parameters: Parameters) -> Step
    ensures follows { (s : Tree) (n : ℕ) (v : Variables) → Leads s n (default_pieces parameters (Settle (Call.Doom parameters.hwnd) ∷ [])) (Going v) result.stage result.next }
    ensures accepts { (g : Got) → Awaits result.next g → Accepts result.stage g }
{
    let value = parameters.default_result();
    match parameters.default_begin() {
        None => over(value, 0),
        Some(begin) => {
            let around = Around::One(Place::Defaulting(value));
            starts(begin, around, Call::Doom(parameters.hwnd))
        }
    }
}

/// It begins.
pub fn begins(compound: Compound) -> Step
    ensures follows { (s : Tree) (n : ℕ) (v : Variables) → Leads s n (begun compound) (Going v) result.stage result.next }
    ensures accepts { (g : Got) → Awaits result.next g → Accepts result.stage g }
{
    match compound {
        Compound::Default(hwnd, number, wparam, lparam) => defaults(Parameters {
            hwnd,
            number,
            wparam,
            lparam,
        }),
        _ => {
            let begin = beginning(compound);
            starts(begin, Around::Nobody, begin.call)
        }
    }
}

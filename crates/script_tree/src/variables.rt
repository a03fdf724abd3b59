//! The variables of a thread.

ghost use Rattle.std.specs.Prelude.{◌≡◌};
ghost use Rattle.script_tree.specs.Values.{start as start_of, no_parameters, variable_value, assigned, received, settled, refused_result, cause_number, inside_result, okay_result};

use crate::operand::{Letter, Variable};
use user_model::{Answer, Call};
use win_num::{Cause, Hwnd, Msg, Point, names};

/// The variables that a script sets.
#[derive(Clone, Copy, Debug, PartialEq, Eq)]
pub struct Letters {
    pub a: u64,
    pub b: u64,
    pub c: u64,
    pub d: u64,
    pub e: u64,
    pub f: u64,
    pub g: u64,
    pub h: u64,
}

/// What a window procedure is called with (Microsoft, WNDPROC callback function).
#[derive(Clone, Copy, Debug, PartialEq, Eq)]
pub struct Parameters {
    pub hwnd: u64,
    pub number: u64,
    pub wparam: u64,
    pub lparam: u64,
}

/// The variables of a thread.
#[derive(Clone, Copy, Debug, PartialEq, Eq)]
pub struct Variables {
    /// `a` to `h`.
    pub letters: Letters,
    /// `r`.
    pub last_result: u64,
    /// `err`.
    pub last_error: u16,
    /// The last message got, for `ghwnd`, `gmsg`, `gwp`, `glp` and `gtime`; zeros before the first.
    pub got: Msg,
    /// `hwnd`, `msg`, `wp` and `lp` of the innermost running procedure; zeros outside of one.
    pub parameters: Parameters,
}

impl Parameters {
    /// Zeros, as outside of procedures.
    pub fn none() -> Parameters
        ensures { result ≡ no_parameters }
    {
        Parameters {
            hwnd: 0,
            number: 0,
            wparam: 0,
            lparam: 0,
        }
    }
}

impl Variables {
    /// The variables at a thread's start: all are 0.
    pub fn start() -> Variables
        ensures { result ≡ start_of }
    {
        let letters = Letters {
            a: 0,
            b: 0,
            c: 0,
            d: 0,
            e: 0,
            f: 0,
            g: 0,
            h: 0,
        };
        let got = Msg {
            hwnd: Hwnd(0),
            number: 0,
            wparam: 0,
            lparam: 0,
            time: 0,
            point: Point { x: 0, y: 0 },
        };
        Variables {
            letters,
            last_result: 0,
            last_error: 0,
            got,
            parameters: Parameters::none(),
        }
    }

    /// The value of a variable.
    pub fn get(&self, variable: Variable) -> u64
        ensures { result ≡ variable_value variable self.now }
    {
        match variable {
            Variable::Letter(letter) => self.letter(letter),
            Variable::Result => self.last_result,
            Variable::Error => u64::from(self.last_error),
            Variable::GotWindow => u64::from(self.got.hwnd.0),
            Variable::GotMessage => u64::from(self.got.number),
            Variable::GotWparam => self.got.wparam,
            Variable::GotLparam => self.got.lparam,
            Variable::GotTime => self.got.time,
            Variable::Window => self.parameters.hwnd,
            Variable::Message => self.parameters.number,
            Variable::Wparam => self.parameters.wparam,
            Variable::Lparam => self.parameters.lparam,
        }
    }

    fn letter(&self, letter: Letter) -> u64
        ensures { result ≡ variable_value (Variable.Letter letter) self.now }
    {
        match letter {
            Letter::A => self.letters.a,
            Letter::B => self.letters.b,
            Letter::C => self.letters.c,
            Letter::D => self.letters.d,
            Letter::E => self.letters.e,
            Letter::F => self.letters.f,
            Letter::G => self.letters.g,
            Letter::H => self.letters.h,
        }
    }

    /// Sets one letter and nothing else, as `let` does.
    pub fn assign(&mut self, letter: Letter, value: u64)
        ensures { self.new ≡ assigned self.old letter value }
    {
        match letter {
            Letter::A => self.letters.a = value,
            Letter::B => self.letters.b = value,
            Letter::C => self.letters.c = value,
            Letter::D => self.letters.d = value,
            Letter::E => self.letters.e = value,
            Letter::F => self.letters.f = value,
            Letter::G => self.letters.g = value,
            Letter::H => self.letters.h = value,
        }
    }

    /// A call is answered: a message that was got is the last message got at once.
    pub fn receive(&mut self, answer: &Answer)
        ensures { self.new ≡ received self.old answer.now }
    {
        if let Answer::Got { msg, .. } = answer {
            self.got = *msg;
        }
    }

    /// A statement that made this call is over: its answer, and the result of the procedure that ran for
    /// it, set `r` and `err`.
    pub fn settle(&mut self, call: &Call, answer: &Answer, value: u64)
        ensures { self.new ≡ settled self.old call.now answer.now value }
    {
        let (last_result, last_error) = match answer {
            Answer::Refused(code) => (refused(call), code.number()),
            Answer::Done { result, cause } => (*result, error_of(*cause)),
            Answer::Value(number) => (*number, 0),
            Answer::Window(window) | Answer::Was(window) => (u64::from(window.0), 0),
            Answer::Update { kind, .. } => (u64::from(*kind), 0),
            Answer::Got { msg, .. } => (u64::from(msg.number != names::WM_QUIT), 0),
            Answer::Nothing => (0, 0),
            Answer::Called(_) => (value, 0),
            Answer::Inside(_, _) => (inside(call, value), 0),
            Answer::Okay => (okay(call), 0),
            Answer::Ended | Answer::Wait | Answer::Stuck | Answer::Gone => (1, 0),
            Answer::Running | Answer::Finished(_) => (1, 0),
            Answer::Posted(_) | Answer::Input(_) | Answer::Begun(_) | Answer::Left(_) => (1, 0),
            Answer::Tell(_) | Answer::Last(_) => (1, 0),
            Answer::Advanced(_) | Answer::Busy(_) => (1, 0),
            Answer::Painting { .. } | Answer::Snap(_) => (1, 0),
            Answer::Enter { .. } | Answer::Callback { .. } => (1, 0),
        };
        self.last_result = last_result;
        self.last_error = last_error;
    }
}

/// What `r` is after a refusal of this call (Microsoft, GetMessage function, which gives minus one).
fn refused(call: &Call) -> u64
    ensures { result ≡ refused_result call.now }
{
    match call {
        Call::Get(_, _, _) => 18446744073709551615,
        _ => 0,
    }
}

/// What `r` is after this call went inside, where its procedure gave that result: a callback send doesn't
/// tell it (Microsoft, SendMessageCallback function).
fn inside(call: &Call, value: u64) -> u64
    ensures { result ≡ inside_result call.now value }
{
    match call {
        Call::SendCallback(_, _, _, _, _, _) => 1,
        _ => value,
    }
}

/// What `r` is after this call was done: a dispatch for no window has no result.
fn okay(call: &Call) -> u64
    ensures { result ≡ okay_result call.now }
{
    match call {
        Call::Dispatch(_, _, _, _) => 0,
        _ => 1,
    }
}

/// What `err` is after a send was answered so (Microsoft, SendMessageTimeout function).
fn error_of(cause: Cause) -> u16
    ensures { result ≡ cause_number cause }
{
    match cause {
        Cause::Timeout => 1460,
        Cause::Hung => 1460,
        Cause::Loss => 1400,
        _ => 0,
    }
}

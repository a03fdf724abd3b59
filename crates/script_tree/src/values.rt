//! The values of operands and tests, and the calls of statements.

ghost use Rattle.std.specs.Prelude.{◌≡◌};
ghost use Rattle.script_tree.specs.Values.{value_of, edge_of, computed, compared, holds as holds_of, call_of, first_call as first_call_of, settling_call as settling_call_of, creation_call, dispatch_of, translate_of, IsSend, IsRectangle, IsOfInput, IsShort};
ghost use Rattle.script_tree.specs.Compounds.{compound_begin, broadcast as broadcast_of};

use crate::frame::{Begin, Broadcast, Spread};
use crate::operand::{Comparison, Operand, Operator, Test};
use crate::statement::{CallStatement, CompoundStatement, Creation};
use crate::variables::Variables;
use name_table::constant_value;
use user_model::Call;
use win_num::Msg;

impl Operand {
    /// Its value where the variables are these; a constant of no ordinal is 0.
    #[inline(always)]
    pub fn value(&self, variables: &Variables) -> u64
        ensures { result ≡ value_of self.now variables.now }
    {
        match self {
            Operand::Number(number) => *number,
            Operand::Minus(number) => number.wrapping_neg(),
            Operand::Message(number) => u64::from(*number),
            Operand::Constant(ordinal) => constant_value(*ordinal).unwrap_or(0),
            Operand::Variable(variable) => variables.get(*variable),
        }
    }

    /// The same as a number with sign, by two's complement of 64 bits.
    fn edge(&self, variables: &Variables) -> i64
        ensures { result ≡ edge_of self.now variables.now }
    {
        self.value(variables).cast_signed()
    }
}

impl Operator {
    /// Its value, modulo 2^64.
    pub fn compute(&self, left: u64, right: u64) -> u64
        ensures { result ≡ computed left self.now right }
    {
        match self {
            Operator::Plus => left.wrapping_add(right),
            Operator::Minus => left.wrapping_sub(right),
            Operator::And => left & right,
            Operator::Or => left | right,
        }
    }
}

impl Comparison {
    /// Whether two numbers compare so.
    pub fn compare(&self, left: u64, right: u64) -> bool
        ensures { result ≡ compared left self.now right }
    {
        match self {
            Comparison::Equal => left == right,
            Comparison::Different => left != right,
            Comparison::Below => left < right,
        }
    }
}

impl Test {
    /// Whether it holds where the variables are these.
    #[inline(always)]
    pub fn holds(&self, variables: &Variables) -> bool
        ensures { result ≡ holds_of self.now variables.now }
    {
        let left = self.left.value(variables);
        let right = self.right.value(variables);
        self.comparison.compare(left, right)
    }
}

impl Creation {
    /// The call that makes the window, with the values that its operands have where the variables are
    /// these.
    pub fn call(&self, variables: &Variables) -> Call
        ensures { result ≡ creation_call self.now variables.now }
    {
        Call::NewWindow(
            self.class,
            self.title,
            self.parent.value(variables),
            self.style.value(variables),
            self.extended_style.value(variables),
            self.left.edge(variables),
            self.top.edge(variables),
            self.right.edge(variables),
            self.bottom.edge(variables),
        )
    }
}

impl CompoundStatement {
    /// How it begins, with the values that its operands have where the variables are these.
    pub fn begin(&self, variables: &Variables) -> Begin
        ensures { result ≡ compound_begin self.now variables.now }
    {
        match self {
            CompoundStatement::PostAll(number, wparam, lparam) => Begin::broadcasting(broadcast(
                Spread::Posts,
                number.value(variables),
                wparam.value(variables),
                lparam.value(variables),
            )),
            CompoundStatement::NotifyAll(number, wparam, lparam) => Begin::broadcasting(broadcast(
                Spread::Notifies,
                number.value(variables),
                wparam.value(variables),
                lparam.value(variables),
            )),
            CompoundStatement::Pump => Begin::pumping(),
            CompoundStatement::Dialog(window) => Begin::dialog(window.value(variables)),
            _ => Begin::notifying(self.first_call(variables)),
        }
    }

    /// The call by which its end sets `r` and `err`: its first one, but a refused `pump` gives 0, and not what a
    /// refused `get` does (Microsoft, GetMessage function).
    pub fn settling_call(&self, variables: &Variables) -> Call
        ensures { result ≡ settling_call_of self.now variables.now }
    {
        match self {
            CompoundStatement::Pump => Call::Dispatch(0, 0, 0, 0),
            _ => self.first_call(variables),
        }
    }

    /// Its first call, likewise.
    fn first_call(&self, variables: &Variables) -> Call
        ensures { result ≡ first_call_of self.now variables.now }
    {
        match self {
            CompoundStatement::ShowWindow(window, on) => {
                Call::Show(window.value(variables), on.value(variables))
            }
            CompoundStatement::EnableWindow(window, on) => {
                Call::Enable(window.value(variables), on.value(variables))
            }
            CompoundStatement::SetWindowPos(window, after, left, top, right, bottom, flags) => {
                Call::Place(
                    window.value(variables),
                    after.edge(variables),
                    left.edge(variables),
                    top.edge(variables),
                    right.edge(variables),
                    bottom.edge(variables),
                    flags.value(variables),
                )
            }
            CompoundStatement::SetFocus(window) => Call::SetFocus(window.value(variables)),
            CompoundStatement::SetActive(window) => Call::SetActive(window.value(variables)),
            CompoundStatement::SetCapture(window) => Call::SetCapture(window.value(variables)),
            CompoundStatement::ReleaseCapture => Call::ReleaseCapture,
            CompoundStatement::BeginPaint(window) => Call::BeginPaint(window.value(variables)),
            CompoundStatement::UpdateWindow(window) => Call::UpdateRect(window.value(variables)),
            CompoundStatement::PostAll(_, _, _) => Call::NextTop(0),
            CompoundStatement::NotifyAll(_, _, _) => Call::NextTop(0),
            CompoundStatement::Pump => Call::Get(0, 0, 0),
            CompoundStatement::Dialog(window) => Call::BeginDialog(window.value(variables)),
        }
    }
}

/// A message for each top-level window.
fn broadcast(spread: Spread, number: u64, wparam: u64, lparam: u64) -> Broadcast
    ensures { result ≡ broadcast_of spread number wparam lparam }
{
    Broadcast {
        spread,
        number,
        wparam,
        lparam,
    }
}

impl CallStatement {
    /// Its call, with the values that its operands have where the variables are these.
    pub fn call(&self, variables: &Variables) -> Call
        ensures { result ≡ call_of self.now variables.now }
    {
        match self {
            CallStatement::Peek(window, min, max, flags) => Call::Peek(
                window.value(variables),
                min.value(variables),
                max.value(variables),
                flags.value(variables),
            ),
            CallStatement::Get(window, min, max) => Call::Get(
                window.value(variables),
                min.value(variables),
                max.value(variables),
            ),
            CallStatement::Post(window, number, wparam, lparam) => Call::Post(
                window.value(variables),
                number.value(variables),
                wparam.value(variables),
                lparam.value(variables),
            ),
            CallStatement::PostThread(thread, number, wparam, lparam) => Call::PostThread(
                thread.value(variables),
                number.value(variables),
                wparam.value(variables),
                lparam.value(variables),
            ),
            CallStatement::PostQuit(code) => Call::PostQuit(code.value(variables)),
            CallStatement::Status(flags) => Call::Status(flags.value(variables)),
            CallStatement::Dispatch => dispatch(&variables.got),
            CallStatement::Send(_, _, _, _) => self.send(variables),
            CallStatement::SendTimeout(_, _, _, _, _, _) => self.send(variables),
            CallStatement::SendNotify(_, _, _, _) => self.send(variables),
            CallStatement::SendCallback(_, _, _, _, _, _) => self.send(variables),
            CallStatement::Invalidate(_, _, _, _, _, _) => self.rectangle(variables),
            CallStatement::Validate(_, _, _, _, _) => self.rectangle(variables),
            CallStatement::Fill(_, _, _, _, _, _) => self.rectangle(variables),
            _ => self.short_call(variables),
        }
    }

    fn send(&self, variables: &Variables) -> Call
        requires { IsSend self.now }
        ensures { result ≡ call_of self.now variables.now }
    {
        match self {
            CallStatement::Send(window, number, wparam, lparam) => Call::Send(
                window.value(variables),
                number.value(variables),
                wparam.value(variables),
                lparam.value(variables),
            ),
            CallStatement::SendTimeout(window, number, wparam, lparam, flags, ms) => {
                Call::SendTimeout(
                    window.value(variables),
                    number.value(variables),
                    wparam.value(variables),
                    lparam.value(variables),
                    flags.value(variables),
                    ms.value(variables),
                )
            }
            CallStatement::SendNotify(window, number, wparam, lparam) => Call::SendNotify(
                window.value(variables),
                number.value(variables),
                wparam.value(variables),
                lparam.value(variables),
            ),
            CallStatement::SendCallback(window, number, wparam, lparam, procedure, extra) => {
                Call::SendCallback(
                    window.value(variables),
                    number.value(variables),
                    wparam.value(variables),
                    lparam.value(variables),
                    *procedure,
                    extra.value(variables),
                )
            }
            _ => unreachable!(),
        }
    }

    fn rectangle(&self, variables: &Variables) -> Call
        requires { IsRectangle self.now }
        ensures { result ≡ call_of self.now variables.now }
    {
        match self {
            CallStatement::Invalidate(window, left, top, right, bottom, erase) => Call::Invalidate(
                window.value(variables),
                left.edge(variables),
                top.edge(variables),
                right.edge(variables),
                bottom.edge(variables),
                erase.value(variables),
            ),
            CallStatement::Validate(window, left, top, right, bottom) => Call::Validate(
                window.value(variables),
                left.edge(variables),
                top.edge(variables),
                right.edge(variables),
                bottom.edge(variables),
            ),
            CallStatement::Fill(window, left, top, right, bottom, colour) => Call::Fill(
                window.value(variables),
                left.edge(variables),
                top.edge(variables),
                right.edge(variables),
                bottom.edge(variables),
                colour.value(variables),
            ),
            _ => unreachable!(),
        }
    }

    fn short_call(&self, variables: &Variables) -> Call
        requires { IsShort self.now }
        ensures { result ≡ call_of self.now variables.now }
    {
        match self {
            CallStatement::Reply(value) => Call::Reply(value.value(variables)),
            CallStatement::InSend => Call::InSend,
            CallStatement::Message(name) => Call::Message(*name),
            CallStatement::Register(class, procedure, colour) => {
                Call::Register(*class, *procedure, colour.value(variables))
            }
            CallStatement::Unregister(class) => Call::Unregister(*class),
            CallStatement::IsWindow(window) => Call::IsWindow(window.value(variables)),
            CallStatement::Parent(window) => Call::Parent(window.value(variables)),
            CallStatement::NextTop(window) => Call::NextTop(window.value(variables)),
            CallStatement::Find(title) => Call::Find(*title),
            CallStatement::AwaitTitle(title) => Call::AwaitTitle(*title),
            CallStatement::WindowAt(x, y) => {
                Call::WindowAt(x.edge(variables), y.edge(variables))
            }
            CallStatement::UpdateRect(window) => Call::UpdateRect(window.value(variables)),
            CallStatement::EndPaint(window) => Call::EndPaint(window.value(variables)),
            CallStatement::Snap => Call::Snap,
            CallStatement::SetTimer(window, id, ms) => Call::SetTimer(
                window.value(variables),
                id.value(variables),
                ms.value(variables),
            ),
            CallStatement::KillTimer(window, id) => {
                Call::KillTimer(window.value(variables), id.value(variables))
            }
            CallStatement::Clock => Call::Clock,
            CallStatement::Yield => Call::Yield,
            _ => self.input_call(variables),
        }
    }

    fn input_call(&self, variables: &Variables) -> Call
        requires { IsOfInput self.now }
        ensures { result ≡ call_of self.now variables.now }
    {
        match self {
            CallStatement::GetFocus => Call::GetFocus,
            CallStatement::GetActive => Call::GetActive,
            CallStatement::GetCapture => Call::GetCapture,
            CallStatement::Attach(thread, other) => {
                Call::Attach(thread.value(variables), other.value(variables))
            }
            CallStatement::Detach(thread, other) => {
                Call::Detach(thread.value(variables), other.value(variables))
            }
            CallStatement::Mouse(number, x, y) => Call::Mouse(
                number.value(variables),
                x.edge(variables),
                y.edge(variables),
            ),
            CallStatement::Key(down, key) => {
                Call::Key(down.value(variables), key.value(variables))
            }
            CallStatement::KeyState(key) => Call::KeyState(key.value(variables)),
            CallStatement::EndDialog(window, result) => {
                Call::EndDialog(window.value(variables), result.value(variables))
            }
            CallStatement::Translate => translate(&variables.got),
            _ => unreachable!(),
        }
    }
}

/// Hands a message that was got to its window's procedure.
pub fn dispatch(got: &Msg) -> Call
    ensures { result ≡ dispatch_of got.now }
{
    Call::Dispatch(
        u64::from(got.hwnd.0),
        u64::from(got.number),
        got.wparam,
        got.lparam,
    )
}

/// Posts the character of a message that was got, where that is of a key that is down.
pub fn translate(got: &Msg) -> Call
    ensures { result ≡ translate_of got.now }
{
    Call::Translate(
        u64::from(got.hwnd.0),
        u64::from(got.number),
        got.wparam,
        got.lparam,
    )
}

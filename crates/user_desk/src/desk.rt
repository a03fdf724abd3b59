//! The desk.

ghost use Rattle.std.specs.Prelude.{◌≡◌, ◌+◌, ◌<◌, ◌≤◌, length, All, IfOk, IfErr, OnErr};
ghost use Rattle.user_model.specs.Legal.{IsLawful};
ghost use Rattle.turn_lock.specs.Seats.{IsSameSeat, HasAllSeats, new_seats};
ghost use Rattle.user_desk.specs.Desks.{IsDeskSeat, HasLooked, CameTo, TurnCameTo, CameToAtLast, MayHaveWaited, Remembers, HasClosed, made_by, told_of};

use crate::news::News;
use crate::shared::Shared;
use std::alloc::{AllocError, Global};
use std::marker::Model;
use std::sync::Wait;
use turn_lock::{TurnLock, TurnSeat};
use user_model::{Answer, Call, Machine, Told};
use win_num::{Filter, SendId, Thread};

/// A seat of a desk: its number is that of the actor whose calls it makes, 0 for the clock and 1 to 15 for threads.
pub type DeskSeat<M> = TurnSeat<Shared<M>>;

/// One machine at which threads make calls, each through a seat of its own. Contracts see which desk it is, the
/// machine that it was opened with, and how many seats it has.
pub struct Desk<M: Machine> {
    lock: TurnLock<Shared<M>>,
    news: News,
}

impl<M: Machine + Drop> Drop for Desk<M> {
    fn drop(self) {
        let Self { lock, news } = self;
        drop(lock);
        drop(news);
    }
}

impl<M: Machine> Model for Desk<M> {
    ghost use Rattle.std.specs.Prelude.{◌≤◌};
    ghost use Rattle.turn_lock.specs.Seats.{Lock};
    ghost use Rattle.user_desk.specs.declared.shared.Shared.{Shared as SharedMachine};

    ghost Value = { Lock (SharedMachine M) };

    ghost view = { λ d. d.lock };

    ghost invariant = { λ d. d.lock.seats ≤ 256 };
}

/// What a turn is told.
fn told(answer: Option<Answer>) -> Told
    ensures { result ≡ told_of answer }
{
    match answer {
        Some(answer) => Told::Answered(answer),
        None => Told::Barred,
    }
}

impl<M: Machine> Desk<M> {
    /// A desk over a machine, and its seats: one for the clock and one for each thread, with the numbers from 0
    /// up, in order. Where memory is wanting the machine comes back.
    pub fn new(
        alloc: Global,
        machine: M,
        threads: u8,
    ) -> Result<(Desk<M>, Vec<DeskSeat<M>>), (AllocError, M)>
        requires legal { (length (M.past machine) ≤ 2097152) × IsLawful (M.setup machine) (M.past machine) }
        ensures desk { IfOk result (λ r. (r.0.opening.machine ≡ machine) × (r.0.seats ≡ threads + 1)) }
        ensures seats { IfOk result (λ r. r.1.items ≡ new_seats r.0 (threads + 1)) }
        ensures err { IfErr result (λ e. e.1 ≡ machine) }
    {
        match TurnLock::new(alloc, Shared { machine }, u32::from(threads) + 1) {
            Ok((lock, seats)) => {
                let news = News::new();
                Ok((Desk { lock, news }, seats))
            }
            Err((error, shared)) => Err((error, shared.machine)),
        }
    }

    /// Waits for the seat's turn and makes the call as the seat's actor.
    pub fn call<R: Wait>(
        &self,
        rt: &R,
        seat: &mut DeskSeat<M>,
        call: Call,
    ) -> Result<Answer, AllocError>
        requires { IsDeskSeat self.now seat.old }
        ensures same { IsSameSeat seat.old seat.new }
        ensures looked { HasLooked (M.setup self.now.opening.machine) (M.past self.now.opening.machine) seat.old seat.new }
        ensures came_to { IfOk result (λ answer. CameTo (M.setup self.now.opening.machine) (M.past self.now.opening.machine) seat.old seat.new call answer) }
        ensures no_memory { OnErr result (made_by seat.new ≡ made_by seat.old) }
    {
        let lock = &self.lock;
        let who = Thread(seat.number() as u8);
        let answer = lock.run(rt, seat, (who, call));
        self.news.tell(answer.is_ok());
        answer
    }

    /// Waits for the seat's turn and makes the call as the seat's actor, unless the actor has no call to make then.
    pub fn turn<R: Wait>(
        &self,
        rt: &R,
        seat: &mut DeskSeat<M>,
        call: Call,
    ) -> Result<Told, AllocError>
        requires { IsDeskSeat self.now seat.old }
        ensures same { IsSameSeat seat.old seat.new }
        ensures looked { HasLooked (M.setup self.now.opening.machine) (M.past self.now.opening.machine) seat.old seat.new }
        ensures came_to { IfOk result (λ told. TurnCameTo (M.setup self.now.opening.machine) (M.past self.now.opening.machine) seat.old seat.new call told) }
        ensures no_memory { OnErr result (made_by seat.new ≡ made_by seat.old) }
    {
        let lock = &self.lock;
        let who = Thread(seat.number() as u8);
        let answer = lock.run_if(rt, seat, (who, call))?;
        self.news.tell(answer.is_some());
        Ok(told(answer))
    }

    /// Takes the next message that the filter lets pass, and waits for one (Microsoft, GetMessage function). An
    /// `enter` or a `callback` is answered to the caller, who runs that procedure and then calls `leave`.
    pub fn get_message<R: Wait>(
        &self,
        rt: &R,
        seat: &mut DeskSeat<M>,
        filter: Filter,
    ) -> Result<Answer, AllocError>
        requires { IsDeskSeat self.now seat.old }
        ensures same { IsSameSeat seat.old seat.new }
        ensures remembers { Remembers (M.setup self.now.opening.machine) (M.past self.now.opening.machine) seat.old seat.new }
        ensures came_to { IfOk result (λ answer. CameToAtLast (M.setup self.now.opening.machine) (M.past self.now.opening.machine) seat.old seat.new (Call.Get filter.hwnd filter.min filter.max) answer) }
        ensures no_memory { OnErr result (MayHaveWaited seat.old seat.new (Call.Get filter.hwnd filter.min filter.max)) }
    {
        self.until_answered(rt, seat, Call::Get(filter.hwnd, filter.min, filter.max))
    }

    /// Waits for the answer of a send (Microsoft, SendMessage function). An `enter` or a `callback` is answered to
    /// the caller, who runs that procedure, calls `leave`, and then waits on.
    pub fn await_send<R: Wait>(
        &self,
        rt: &R,
        seat: &mut DeskSeat<M>,
        send: SendId,
    ) -> Result<Answer, AllocError>
        requires { IsDeskSeat self.now seat.old }
        ensures same { IsSameSeat seat.old seat.new }
        ensures remembers { Remembers (M.setup self.now.opening.machine) (M.past self.now.opening.machine) seat.old seat.new }
        ensures came_to { IfOk result (λ answer. CameToAtLast (M.setup self.now.opening.machine) (M.past self.now.opening.machine) seat.old seat.new (Call.Await send.0) answer) }
        ensures no_memory { OnErr result (MayHaveWaited seat.old seat.new (Call.Await send.0)) }
    {
        self.until_answered(rt, seat, Call::Await(u64::from(send.0)))
    }

    /// Makes the call, and where it waits tries it again until it waits no more. Between two tries it sleeps until another
    /// seat has made an entry.
    fn until_answered<R: Wait>(
        &self,
        rt: &R,
        seat: &mut DeskSeat<M>,
        call: Call,
    ) -> Result<Answer, AllocError>
        requires { IsDeskSeat self.now seat.old }
        ensures same { IsSameSeat seat.old seat.new }
        ensures remembers { Remembers (M.setup self.now.opening.machine) (M.past self.now.opening.machine) seat.old seat.new }
        ensures came_to { IfOk result (λ answer. CameToAtLast (M.setup self.now.opening.machine) (M.past self.now.opening.machine) seat.old seat.new call answer) }
        ensures no_memory { OnErr result (MayHaveWaited seat.old seat.new call) }
    {
        let first = self.call(rt, seat, call)?;
        if !matches!(first, Answer::Wait) {
            return Ok(first);
        }
        for _ in rt.forever() {
            let heard = self.news.ask();
            if let Told::Answered(answer) = self.turn(rt, seat, call)? {
                return Ok(answer);
            }
            self.news.sleep(rt, heard);
        }
        unreachable!()
    }

    /// Looks for the next message that the filter lets pass, with flags of which bit 0 removes it (Microsoft,
    /// PeekMessage function).
    pub fn peek_message<R: Wait>(
        &self,
        rt: &R,
        seat: &mut DeskSeat<M>,
        filter: Filter,
        flags: u64,
    ) -> Result<Answer, AllocError>
        requires { IsDeskSeat self.now seat.old }
        ensures same { IsSameSeat seat.old seat.new }
        ensures looked { HasLooked (M.setup self.now.opening.machine) (M.past self.now.opening.machine) seat.old seat.new }
        ensures came_to { IfOk result (λ answer. CameTo (M.setup self.now.opening.machine) (M.past self.now.opening.machine) seat.old seat.new (Call.Peek filter.hwnd filter.min filter.max flags) answer) }
        ensures no_memory { OnErr result (made_by seat.new ≡ made_by seat.old) }
    {
        self.call(
            rt,
            seat,
            Call::Peek(filter.hwnd, filter.min, filter.max, flags),
        )
    }

    /// Posts a message to a window, or for window 0 to the seat's thread (Microsoft, PostMessage function).
    pub fn post_message<R: Wait>(
        &self,
        rt: &R,
        seat: &mut DeskSeat<M>,
        hwnd: u64,
        number: u64,
        wparam: u64,
        lparam: u64,
    ) -> Result<Answer, AllocError>
        requires { IsDeskSeat self.now seat.old }
        ensures same { IsSameSeat seat.old seat.new }
        ensures looked { HasLooked (M.setup self.now.opening.machine) (M.past self.now.opening.machine) seat.old seat.new }
        ensures came_to { IfOk result (λ answer. CameTo (M.setup self.now.opening.machine) (M.past self.now.opening.machine) seat.old seat.new (Call.Post hwnd number wparam lparam) answer) }
        ensures no_memory { OnErr result (made_by seat.new ≡ made_by seat.old) }
    {
        self.call(rt, seat, Call::Post(hwnd, number, wparam, lparam))
    }

    /// Begins a send to a window: the call `send` alone, whose answer says whether the window's procedure runs at
    /// once or `await_send` waits for its answer (Microsoft, SendMessage function).
    pub fn send_message<R: Wait>(
        &self,
        rt: &R,
        seat: &mut DeskSeat<M>,
        hwnd: u64,
        number: u64,
        wparam: u64,
        lparam: u64,
    ) -> Result<Answer, AllocError>
        requires { IsDeskSeat self.now seat.old }
        ensures same { IsSameSeat seat.old seat.new }
        ensures looked { HasLooked (M.setup self.now.opening.machine) (M.past self.now.opening.machine) seat.old seat.new }
        ensures came_to { IfOk result (λ answer. CameTo (M.setup self.now.opening.machine) (M.past self.now.opening.machine) seat.old seat.new (Call.Send hwnd number wparam lparam) answer) }
        ensures no_memory { OnErr result (made_by seat.new ≡ made_by seat.old) }
    {
        self.call(rt, seat, Call::Send(hwnd, number, wparam, lparam))
    }

    /// Gives the machine back, where all seats of the desk are given. Where one is missing, all come back untouched.
    pub fn close(self, seats: Vec<DeskSeat<M>>) -> Result<M, (Desk<M>, Vec<DeskSeat<M>>)>
        requires { All (IsDeskSeat self) seats.items }
        ensures machine { IfOk result (λ machine. HasClosed (M.setup self.opening.machine) (M.past self.opening.machine) self.seats seats.items (M.setup machine) (M.past machine)) }
        ensures all { IfOk result (λ _. HasAllSeats self seats.items) }
        ensures missing { IfErr result (λ e. ¬ HasAllSeats self seats.items) }
        ensures untouched { IfErr result (λ e. (e.0 ≡ self) × (e.1.items ≡ seats.items)) }
    {
        let Desk { lock, news } = self;
        match lock.close(seats) {
            Ok(shared) => Ok(shared.machine),
            Err((lock, seats)) => Err((Desk { lock, news }, seats)),
        }
    }
}

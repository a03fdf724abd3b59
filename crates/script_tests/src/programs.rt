use script_proc::{Program, Worker};
use script_tree::{
    Body, CallStatement, Comparison, Creation, Letter, Name, Operand, Operator, Procedure, Script,
    Statement, Test, Variable,
};
use std::alloc::{AllocError, Global};
use std::process::Abort;
use user_model::{Answer, Call, Origin};
use win_num::{Cause, Code, Hwnd, Msg, Point, SendId, names};

fn number(number: u64) -> Operand {
    Operand::Number(number)
}

fn letter(letter: Letter) -> Operand {
    Operand::Variable(Variable::Letter(letter))
}

fn is(left: Operand, comparison: Comparison, right: u64) -> Test {
    Test {
        left,
        comparison,
        right: number(right),
    }
}

fn get() -> Statement {
    Statement::Call(CallStatement::Get(number(0), number(0), number(0)))
}

/// Posts two messages to thread 2 that number themselves, and then quit.
fn posts(alloc: Global) -> Result<Body, AllocError> {
    let next = letter(Letter::A);
    let number_two = Operand::Number(2);
    let message = Operand::Message(1024);
    let pass = vec![in alloc;
        Statement::Call(CallStatement::PostThread(number_two, message, next, number(0))),
        Statement::Compute(Letter::A, next, Operator::Plus, number(1)),
    ]?;
    let quit = CallStatement::PostThread(
        number_two,
        Operand::Message(names::WM_QUIT),
        number(0),
        number(0),
    );
    let statements = vec![in alloc;
        Statement::While(is(next, Comparison::Below, 2), pass),
        Statement::Call(quit),
    ]?;
    Ok(Body::new(statements))
}

/// Adds up what it gets, up to quit, and ends with that as its quit code.
fn adds(alloc: Global) -> Result<Body, AllocError> {
    let sum = letter(Letter::B);
    let got = Operand::Variable(Variable::GotWparam);
    let pass = vec![in alloc;
        Statement::Compute(Letter::B, sum, Operator::Plus, got),
        get(),
    ]?;
    let goes_on = is(Operand::Variable(Variable::Result), Comparison::Equal, 1);
    let statements = vec![in alloc;
        get(),
        Statement::While(goes_on, pass),
        Statement::Call(CallStatement::PostQuit(sum)),
    ]?;
    Ok(Body::new(statements))
}

/// After a refusal it makes a call in each pass until one isn't refused, and then a pass without a call.
fn branches(alloc: Global) -> Result<Body, AllocError> {
    let refused = is(Operand::Variable(Variable::Error), Comparison::Equal, 1444);
    let first = vec![in alloc; Statement::Call(CallStatement::PostQuit(Operand::Minus(1)))]?;
    let second = vec![in alloc; Statement::Let(Letter::C, number(7))]?;
    let pass = vec![in alloc; Statement::IfElse(refused, first, second)]?;
    let post = CallStatement::PostThread(number(9), number(1), number(0), number(0));
    let statements = vec![in alloc;
        Statement::If(is(number(1), Comparison::Different, 1), Vec::new(alloc)),
        Statement::Call(post),
        Statement::While(is(letter(Letter::C), Comparison::Equal, 0), pass),
    ]?;
    Ok(Body::new(statements))
}

/// `send W M P 0`
fn send(window: Operand, message: u32, wparam: u64) -> Statement {
    let message = Operand::Message(message);
    Statement::Call(CallStatement::Send(window, message, number(wparam), number(0)))
}

fn quits(variable: Variable) -> Statement {
    Statement::Call(CallStatement::PostQuit(Operand::Variable(variable)))
}

fn named(alloc: Global, body: Vec<Statement>) -> Result<Procedure, AllocError> {
    Ok(Procedure::new(Name::new(Vec::new(alloc)), Body::new(body)))
}

/// Hands WM_USER to its own window as 1025 and returns what that gives, which is 9.
fn hands_on(alloc: Global) -> Result<Procedure, AllocError> {
    let user = vec![in alloc;
        send(Operand::Variable(Variable::Window), 1025, 0),
        Statement::Return(Operand::Variable(Variable::Result)),
    ]?;
    let next = vec![in alloc; Statement::Return(number(9))]?;
    let message = Operand::Variable(Variable::Message);
    let body = vec![in alloc;
        Statement::If(is(message, Comparison::Equal, 1024), user),
        Statement::If(is(message, Comparison::Equal, 1025), next),
    ]?;
    named(alloc, body)
}

/// Registers a class, makes a window, tells thread 1 its number, and serves one send.
fn serves(alloc: Global) -> Result<Body, AllocError> {
    let creation = Creation {
        class: 0,
        title: 1,
        parent: number(0),
        style: number(0),
        extended_style: number(0),
        left: Operand::Minus(1),
        top: number(0),
        right: number(2),
        bottom: number(3),
    };
    let window = Operand::Variable(Variable::Result);
    let message = Operand::Message(1024);
    let body = vec![in alloc;
        Statement::Call(CallStatement::Register(0, 0, number(0))),
        Statement::Create(creation),
        Statement::Call(CallStatement::PostThread(number(1), message, window, number(0))),
        get(),
    ]?;
    Ok(Body::new(body))
}

/// Gets a window's number, and sends to it.
fn asks(alloc: Global) -> Result<Body, AllocError> {
    let body = vec![in alloc;
        get(),
        send(Operand::Variable(Variable::GotWparam), 1024, 5),
        quits(Variable::Result),
    ]?;
    Ok(Body::new(body))
}

/// Sleeps, and sends with a time and with a callback.
fn waits_for_others(alloc: Global) -> Result<Body, AllocError> {
    let window = number(16);
    let zero = number(0);
    let timeout = CallStatement::SendTimeout(window, number(1024), zero, zero, zero, number(50));
    let callback = CallStatement::SendCallback(window, number(1024), zero, zero, 0, number(7));
    let body = vec![in alloc;
        Statement::Sleep(number(5)),
        Statement::Call(timeout),
        quits(Variable::Error),
        Statement::Call(callback),
        quits(Variable::Result),
    ]?;
    Ok(Body::new(body))
}

/// Dispatches nothing, destroys a window, and returns.
fn destroys(alloc: Global) -> Result<Body, AllocError> {
    let body = vec![in alloc;
        Statement::Call(CallStatement::Dispatch),
        quits(Variable::Result),
        Statement::Destroy(number(18)),
        quits(Variable::Result),
        Statement::Return(number(3)),
        get(),
    ]?;
    Ok(Body::new(body))
}

/// Gets a message and dispatches it, makes a pixel dirty, and tells the kind of what is dirty.
fn paints(alloc: Global) -> Result<Body, AllocError> {
    let window = Operand::Variable(Variable::GotWindow);
    let dirty = CallStatement::Invalidate(
        window,
        Operand::Minus(1),
        number(0),
        number(1),
        number(1),
        number(1),
    );
    let body = vec![in alloc;
        get(),
        Statement::Call(CallStatement::Dispatch),
        Statement::Call(dirty),
        Statement::Call(CallStatement::UpdateRect(window)),
        quits(Variable::Result),
    ]?;
    Ok(Body::new(body))
}

fn body_of(alloc: Global, thread: u8) -> Result<Body, AllocError> {
    match thread {
        1 => posts(alloc),
        2 => adds(alloc),
        3 => branches(alloc),
        4 => serves(alloc),
        5 => asks(alloc),
        6 => waits_for_others(alloc),
        7 => destroys(alloc),
        _ => paints(alloc),
    }
}

fn script(alloc: Global) -> Result<Script, AllocError> {
    let procedures = vec![in alloc; hands_on(alloc)?, named(alloc, Vec::new(alloc))?]?;
    let mut threads = Vec::new(alloc);
    for thread in 1..9 {
        threads.push(body_of(alloc, thread)?)?;
    }
    Ok(Script::new(
        8,
        4,
        100,
        Vec::new(alloc),
        Vec::new(alloc),
        procedures,
        threads,
    ))
}

fn got(number: u32, wparam: u64) -> Answer {
    let msg = Msg {
        hwnd: Hwnd(0),
        number,
        wparam,
        lparam: 0,
        time: 0,
        point: Point { x: 0, y: 0 },
    };
    Answer::Got {
        origin: Origin::Posted,
        number: 1,
        msg,
    }
}

fn enter(send: u32, proc_no: u32, number: u32, wparam: u64) -> Answer {
    Answer::Enter {
        send: SendId(send),
        proc_no,
        hwnd: Hwnd(16),
        number,
        wparam,
        lparam: 0,
    }
}

fn inside(send: u32, proc_no: u32) -> Answer {
    Answer::Inside(SendId(send), proc_no)
}

fn left(send: u32) -> Answer {
    Answer::Left(SendId(send))
}

/// The thread's program makes exactly these calls where they are answered so, and then has ended.
fn makes(
    rt: &impl Abort,
    alloc: Global,
    thread: u8,
    wanted: &[(Call, Answer)],
) -> Result<(), AllocError> {
    let script = script(alloc)?;
    let program = Program::new(alloc, &script)?;
    let mut worker = Worker::new(alloc, &program, thread)?;
    for (call, answer) in wanted {
        assert!(rt; worker.used() < 100);
        let next = worker.next_call(&program)?;
        assert!(rt; next == Some(*call));
        if let Some(asked) = next {
            worker.take(&asked, answer);
        }
    }
    assert!(rt; worker.next_call(&program)? == None);
    assert!(rt; worker.used() as usize == wanted.len());
    Ok(())
}

#[test]
fn posts_until_the_test_fails(rt: HostRuntime) -> Result<(), AllocError> {
    let wanted = [
        (Call::PostThread(2, 1024, 0, 0), Answer::Posted(1)),
        (Call::PostThread(2, 1024, 1, 0), Answer::Posted(2)),
        (Call::PostThread(2, 18, 0, 0), Answer::Posted(3)),
        (Call::EndThread, Answer::Ended),
    ];
    makes(&rt, rt.alloc(), 1, &wanted)
}

#[test]
fn waits_and_adds(rt: HostRuntime) -> Result<(), AllocError> {
    let wanted = [
        (Call::Get(0, 0, 0), Answer::Wait),
        (Call::Get(0, 0, 0), got(1024, 0)),
        (Call::Get(0, 0, 0), got(1024, 5)),
        (Call::Get(0, 0, 0), Answer::Wait),
        (Call::Get(0, 0, 0), Answer::Wait),
        (Call::Get(0, 0, 0), got(1024, 7)),
        (Call::Get(0, 0, 0), got(18, 9)),
        (Call::PostQuit(12), Answer::Okay),
        (Call::EndThread, Answer::Ended),
    ];
    makes(&rt, rt.alloc(), 2, &wanted)
}

#[test]
fn yields_after_a_pass_without_a_call(rt: HostRuntime) -> Result<(), AllocError> {
    let post = Call::PostThread(9, 1, 0, 0);
    let quit = Call::PostQuit(18446744073709551615);
    let wanted = [
        (post, Answer::Refused(Code::Win(1444))),
        (quit, Answer::Refused(Code::Win(1444))),
        (quit, Answer::Okay),
        (Call::Yield, Answer::Okay),
        (Call::EndThread, Answer::Ended),
    ];
    makes(&rt, rt.alloc(), 3, &wanted)
}

#[test]
fn makes_a_window_and_serves(rt: HostRuntime) -> Result<(), AllocError> {
    let wanted = [
        (Call::Register(0, 0, 0), Answer::Value(1)),
        (
            Call::NewWindow(0, 1, 0, 0, 0, -1, 0, 2, 3),
            Answer::Window(Hwnd(16)),
        ),
        (Call::Send(16, 129, 0, 0), inside(1, 0)),
        (Call::Leave(1), left(1)),
        (Call::Send(16, 1, 0, 0), inside(2, 0)),
        (Call::Leave(0), left(2)),
        (Call::PostThread(1, 1024, 16, 0), Answer::Posted(1)),
        (Call::Get(0, 0, 0), Answer::Wait),
        (Call::Get(0, 0, 0), enter(3, 0, 1024, 5)),
        (Call::Send(16, 1025, 0, 0), inside(4, 0)),
        (Call::Leave(9), left(4)),
        (Call::Leave(9), left(3)),
        (Call::Get(0, 0, 0), Answer::Wait),
        (Call::Get(0, 0, 0), got(18, 0)),
        (Call::EndThread, Answer::Ended),
    ];
    makes(&rt, rt.alloc(), 4, &wanted)
}

#[test]
fn sends_and_serves_meanwhile(rt: HostRuntime) -> Result<(), AllocError> {
    let done = Answer::Done {
        result: 9,
        cause: Cause::Proc,
    };
    let wanted = [
        (Call::Get(0, 0, 0), got(1024, 16)),
        (Call::Send(16, 1024, 5, 0), Answer::Begun(SendId(3))),
        (Call::Await(3), Answer::Wait),
        (Call::Await(3), enter(4, 1, 16, 0)),
        (Call::Doom(16), Answer::Refused(Code::Win(1400))),
        (Call::Leave(0), left(4)),
        (Call::Await(3), Answer::Wait),
        (Call::Await(3), done),
        (Call::PostQuit(9), Answer::Okay),
        (Call::EndThread, Answer::Ended),
    ];
    makes(&rt, rt.alloc(), 5, &wanted)
}

#[test]
fn sleeps_times_out_and_is_called_back(rt: HostRuntime) -> Result<(), AllocError> {
    let timed_out = Answer::Done {
        result: 0,
        cause: Cause::Timeout,
    };
    let called_back = Answer::Callback {
        send: SendId(2),
        proc_no: 0,
        hwnd: Hwnd(16),
        number: 1024,
        extra: 7,
        result: 0,
    };
    let wanted = [
        (Call::Clock, Answer::Value(100)),
        (Call::SleepUntil(105), Answer::Wait),
        (Call::SleepUntil(105), Answer::Okay),
        (
            Call::SendTimeout(16, 1024, 0, 0, 0, 50),
            Answer::Begun(SendId(1)),
        ),
        (Call::Await(1), timed_out),
        (Call::PostQuit(1460), Answer::Okay),
        (Call::SendCallback(16, 1024, 0, 0, 0, 7), inside(2, 1)),
        (Call::Leave(0), called_back),
        (Call::Send(16, 1025, 0, 0), Answer::Refused(Code::Win(1400))),
        (Call::Leave(0), left(0)),
        (Call::PostQuit(1), Answer::Okay),
        (Call::EndThread, Answer::Ended),
    ];
    makes(&rt, rt.alloc(), 6, &wanted)
}

#[test]
fn destroys_and_returns(rt: HostRuntime) -> Result<(), AllocError> {
    let wanted = [
        (Call::Dispatch(0, 0, 0, 0), Answer::Okay),
        (Call::PostQuit(0), Answer::Okay),
        (Call::Doom(18), Answer::Okay),
        (Call::Unmake(18), Answer::Tell(Hwnd(18))),
        (Call::Send(18, 2, 0, 0), inside(1, 1)),
        (Call::Leave(0), left(1)),
        (Call::Unmake(18), Answer::Last(Hwnd(18))),
        (Call::Send(18, 130, 0, 0), inside(2, 1)),
        (Call::Leave(0), left(2)),
        (Call::Drop(18), Answer::Okay),
        (Call::Unmake(18), Answer::Gone),
        (Call::PostQuit(1), Answer::Okay),
        (Call::EndThread, Answer::Ended),
    ];
    makes(&rt, rt.alloc(), 7, &wanted)
}

#[test]
fn paints_by_default(rt: HostRuntime) -> Result<(), AllocError> {
    let msg = Msg {
        hwnd: Hwnd(16),
        number: 15,
        wparam: 0,
        lparam: 0,
        time: 0,
        point: Point { x: 0, y: 0 },
    };
    let paint = Answer::Got {
        origin: Origin::Paint,
        number: 0,
        msg,
    };
    let update = Answer::Update {
        kind: 2,
        l: 0,
        t: 0,
        r: 1,
        b: 1,
    };
    let wanted = [
        (Call::Get(0, 0, 0), paint),
        (Call::Dispatch(16, 15, 0, 0), Answer::Called(1)),
        (Call::Validate(16, 0, 0, 4096, 4096), Answer::Okay),
        (Call::Leave(0), left(0)),
        (Call::Invalidate(16, -1, 0, 1, 1, 1), Answer::Okay),
        (Call::UpdateRect(16), update),
        (Call::PostQuit(2), Answer::Okay),
        (Call::EndThread, Answer::Ended),
    ];
    makes(&rt, rt.alloc(), 8, &wanted)
}

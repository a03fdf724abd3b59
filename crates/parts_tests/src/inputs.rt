//! Input that no thread has taken: 513 key elements of one group, and each call once.
ghost use Rattle.std.specs.Prelude.{◌≡◌, ◌+◌, ◌≤◌, ◌<◌, pos, All, IsTrue};
ghost use Rattle.input_queue.specs.Elements.{is_in};

use input_queue::{Element, Inputs, Steps};
use std::marker::Brand;
use std::sync::ledger::{Blank, Ledger};
use std::test::Fail;
use win_num::names::{WM_KEYDOWN, WM_LBUTTONDOWN, WM_MOUSEMOVE};
use win_num::{Code, Fault, Point, Thread};

/// Thread 1 or 2, alone in its group or both in one.
#[derive(Clone, Copy)]
enum Who {
    One,
    Two,
    OneOfBoth,
    TwoOfBoth,
}

/// What is asked of a queue that stays as it is.
#[derive(Clone, Copy)]
enum Ask {
    /// Whether an element with this message would be refused.
    Room(u32),
    /// The first element that the thread may take, where each goes to its home.
    First,
    /// The same, in steps that are counted.
    Counted,
    /// The first key among them.
    Key,
}

/// What is done with a queue.
#[derive(Clone, Copy)]
enum Step {
    /// An element of the thread's with this message goes into its group.
    Add(u32),
    /// The element of this number is taken out.
    Take(u32),
    /// The thread's elements are taken out.
    Purge,
    Ask(Ask),
}

/// The element that is found, or why none goes in.
type Told = Result<Option<Element>, Fault>;

const DONE: Told = Ok(None);

const FULL: Told = Err(Fault::Refused(Code::Full));

fn input(number: u32, home: Thread, message: u32) -> Element
    ensures number { result.number ≡ number }
    ensures home { result.home ≡ home }
{
    let point = Point { x: 1, y: 2 };
    Element {
        number,
        home,
        message,
        key: 0,
        point,
        time: 3,
    }
}

/// The thread and its group.
fn place(who: Who) -> (Thread, u16)
    ensures thread { (1 ≤ result.0.0) × (result.0.0 ≤ 15) }
    ensures member { IsTrue (is_in result.1 result.0) }
{
    match who {
        Who::One => (Thread(1), 2),
        Who::Two => (Thread(2), 4),
        Who::OneOfBoth => (Thread(1), 6),
        Who::TwoOfBoth => (Thread(2), 6),
    }
}

fn add(inputs: &mut Inputs, e: Element, group: u16) -> Result<(), Fault>
    requires rising { All (λ x. x.number < e.number) inputs.old }
    requires thread { (1 ≤ e.home.0) × (e.home.0 ≤ 15) }
    requires member { IsTrue (is_in group e.home) }
    ensures { All (λ x. x.number < e.number + 1) inputs.new }
{
    inputs.add(e, group)
}

/// The first element that thread `t` may take, where each goes to its home.
fn first_counted<L: Ledger>(blank: Blank, inputs: &Inputs, t: Thread, group: u16) -> Option<Element>
    requires name { blank.name ≡ L.name }
    requires parts { blank.parts ≡ L.parts }
    requires one { blank.parts ≡ 1 }
{
    let mut steps = Steps::<L>::new(blank);
    inputs.first_counted(t, group, |x: &Element| x.home, |_| true, &mut steps)
}

fn counted(inputs: &Inputs, t: Thread, group: u16) -> Option<Element> {
    first_counted::<Brand>(Blank::new(1), inputs, t, group)
}

fn seen(inputs: &Inputs, t: Thread, group: u16, asked: Ask) -> Told {
    let home = |x: &Element| x.home;
    let key = |x: &Element| x.message == WM_KEYDOWN;
    match asked {
        Ask::Room(message) if inputs.lacks_place(message, group) => FULL,
        Ask::Room(_) => DONE,
        Ask::First => Ok(inputs.first_for(t, group, home, |_| true)),
        Ask::Counted => Ok(counted(inputs, t, group)),
        Ask::Key => Ok(inputs.first_for(t, group, home, key)),
    }
}

/// What the queue tells, where a new element gets this number.
fn act(inputs: &mut Inputs, number: u32, who: Who, step: Step) -> Told
    requires rising { All (λ x. x.number < number) inputs.old }
    ensures { All (λ x. x.number < number + 1) inputs.new }
{
    let (thread, group) = place(who);
    match step {
        Step::Add(message) => add(inputs, input(number, thread, message), group).and(DONE),
        Step::Take(taken) => Ok(inputs.take(taken)),
        Step::Purge => {
            inputs.purge(thread);
            DONE
        }
        Step::Ask(asked) => seen(inputs, thread, group, asked),
    }
}

#[test]
fn five_hundred_and_thirteen_keys(rt: HostRuntime) -> Result<(), Fail> {
    let mut inputs = Inputs::new(rt.alloc());
    let moved = input(518, Thread(1), WM_MOUSEMOVE);
    let steps = [
        (Who::One, Step::Add(WM_KEYDOWN), FULL),
        (Who::One, Step::Ask(Ask::Room(WM_KEYDOWN)), FULL),
        (Who::Two, Step::Ask(Ask::Room(WM_KEYDOWN)), DONE),
        // another group
        (Who::Two, Step::Add(WM_MOUSEMOVE), DONE),
        // 513 in both together
        (Who::TwoOfBoth, Step::Add(WM_KEYDOWN), FULL),
        // it replaces the move
        (Who::OneOfBoth, Step::Add(WM_MOUSEMOVE), DONE),
        (Who::One, Step::Take(516), DONE),
        (Who::One, Step::Take(518), Ok(Some(moved))),
    ];
    for number in 1..521 {
        let (who, step, told) = if number < 513 {
            (Who::One, Step::Add(WM_KEYDOWN), DONE)
        } else {
            steps[number as usize - 513]
        };
        assert_eq!(rt; act(&mut inputs, number, who, step), told, "at {number}");
    }
    Ok(())
}

#[test]
fn an_element_waits_for_the_earlier_ones(rt: HostRuntime) -> Result<(), Fail> {
    let mut inputs = Inputs::new(rt.alloc());
    let second = Ok(Some(input(2, Thread(2), WM_MOUSEMOVE)));
    let third = Ok(Some(input(3, Thread(1), WM_LBUTTONDOWN)));
    let fourth = Ok(Some(input(4, Thread(1), WM_KEYDOWN)));
    let steps = [
        (Who::OneOfBoth, Step::Add(WM_MOUSEMOVE), DONE),
        (Who::TwoOfBoth, Step::Add(WM_MOUSEMOVE), DONE),
        (Who::OneOfBoth, Step::Add(WM_LBUTTONDOWN), DONE),
        (Who::OneOfBoth, Step::Add(WM_KEYDOWN), DONE),
        // 2 is before 3, and 2 replaced 1
        (Who::OneOfBoth, Step::Ask(Ask::First), DONE),
        (Who::TwoOfBoth, Step::Ask(Ask::First), second),
        // alone in its group
        (Who::One, Step::Ask(Ask::First), third),
        (Who::TwoOfBoth, Step::Ask(Ask::Counted), second),
        (Who::One, Step::Ask(Ask::Key), fourth),
        (Who::Two, Step::Purge, DONE),
        (Who::OneOfBoth, Step::Ask(Ask::First), third),
    ];
    for number in 1..12 {
        let (who, step, told) = steps[number as usize - 1];
        assert_eq!(rt; act(&mut inputs, number, who, step), told, "at {number}");
    }
    Ok(())
}

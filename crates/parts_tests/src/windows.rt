//! Worked examples of windows and their destruction, with ample memory.

use std::alloc::Global;
use std::process::Abort;
use std::test::Fail;
use win_num::rect;
use win_tree::*;

const CHILD: u32 = 1073741824;

/// What is done with the windows.
#[derive(Clone, Copy)]
enum Step {
    /// Adds a window of this style, parent and owner.
    Add(u32, u32, u32),
    /// Adds a window of thread 2 and class 7.
    AddOther,
    /// Gives a window the style 5, where it is live.
    Restyle(u32),
    Doom(u32),
    Unmake(u32),
    /// Asks for the next step alone.
    Next(u32),
    Drop(u32),
    /// Drops the windows of thread 1.
    DropThread,
    Ask(Ask),
}

/// What is asked of windows that stay as they are.
#[derive(Clone, Copy)]
enum Ask {
    /// Whether these are the live windows.
    Live(&'static [Hwnd]),
    /// Whether a copy has the same windows, and gives the same number next.
    Copied,
    Marked(u32),
    LastGiven(u32),
    /// Whether the second is below the first.
    Child(u32, u32),
    Kin(u32, u32),
    Class(u32),
    NextTop(u32),
    NextChild(u32, u32),
    Find(u64),
    Owner(u32),
    Style(u32),
    /// The number that was given last.
    Last,
}

/// What it is answered by.
#[derive(Clone, Copy, Debug, PartialEq, Eq)]
enum Told {
    Number(Result<Hwnd, Fault>),
    Done(Result<(), Code>),
    Step(Unmade),
    Is(bool),
    Window(Option<Hwnd>),
    Value(Option<u32>),
    Nothing,
}

/// The window of this number was added.
macro_rules! number {
    ($w:expr) => {
        Told::Number(Ok(Hwnd($w)))
    };
}

/// None was added, for this error of Windows.
macro_rules! unmade {
    ($code:expr) => {
        Told::Number(Err(Fault::Refused(Code::Win($code))))
    };
}

const DONE: Told = Told::Done(Ok(()));

/// It was refused with this error of Windows.
macro_rules! refused {
    ($code:expr) => {
        Told::Done(Err(Code::Win($code)))
    };
}

macro_rules! tell {
    ($w:expr) => {
        Told::Step(Unmade::Tell(Hwnd($w)))
    };
}

macro_rules! last {
    ($w:expr) => {
        Told::Step(Unmade::Last(Hwnd($w)))
    };
}

/// Whether the live windows are these.
macro_rules! live {
    ($($w:expr),*) => {
        Step::Ask(Ask::Live(&[$(Hwnd($w)),*]))
    };
}

/// A window of thread 1 and class 2.
fn row(style: u32, parent: u32, owner: u32) -> Result<WindowRow, Fail> {
    let place = rect(0, 0, 4, 4)?;
    Ok(WindowRow {
        thread: Thread(1),
        class: 2,
        title: 3,
        parent: Hwnd(parent),
        owner: Hwnd(owner),
        style,
        ex: 0,
        place,
    })
}

/// A window of thread 2 and class 7.
fn other_row() -> Result<WindowRow, Fail> {
    Ok(WindowRow {
        thread: Thread(2),
        class: 7,
        ..row(0, 0, 0)?
    })
}

/// Gives a window the style 5, where it is live.
fn restyle(tree: &mut Tree, w: Hwnd) -> Result<Told, Fail> {
    let place = rect(0, 0, 4, 4)?;
    if tree.row(w).is_some() {
        tree.set_row(w, 5, 6, place);
    }
    Ok(Told::Nothing)
}

/// Whether a copy has the same windows, and gives the same number next.
fn copied(tree: &Tree) -> Result<bool, Fail> {
    let copy = tree.copy()?;
    Ok(copy.windows() == tree.windows() && copy.last() == tree.last())
}

/// What the windows tell.
fn seen(tree: &Tree, asked: Ask) -> Result<Told, Fail> {
    Ok(match asked {
        Ask::Live(windows) => Told::Is(tree.windows() == windows),
        Ask::Copied => Told::Is(copied(tree)?),
        Ask::Marked(w) => Told::Is(tree.marked(Hwnd(w))),
        Ask::LastGiven(w) => Told::Is(tree.last_given(Hwnd(w))),
        Ask::Child(above, w) => Told::Is(tree.is_child(Hwnd(above), Hwnd(w))),
        Ask::Kin(above, w) => Told::Is(tree.is_kin(Hwnd(above), Hwnd(w))),
        Ask::Class(class) => Told::Is(tree.has_class(class)),
        Ask::NextTop(w) => Told::Window(Some(tree.next_top(Hwnd(w)))),
        Ask::NextChild(w, above) => Told::Window(Some(tree.next_child(Hwnd(w), Hwnd(above)))),
        Ask::Find(w) => Told::Window(tree.find(w)),
        Ask::Owner(w) => Told::Window(tree.row(Hwnd(w)).map(|r| r.owner)),
        Ask::Style(w) => Told::Value(tree.row(Hwnd(w)).map(|r| r.style)),
        Ask::Last => Told::Value(Some(tree.last())),
    })
}

fn act(tree: &mut Tree, step: Step) -> Result<Told, Fail> {
    Ok(match step {
        Step::Add(style, parent, owner) => Told::Number(tree.add(row(style, parent, owner)?)),
        Step::AddOther => Told::Number(tree.add(other_row()?)),
        Step::Restyle(w) => restyle(tree, Hwnd(w))?,
        Step::Doom(w) => Told::Done(tree.doom(Hwnd(w))),
        Step::Unmake(w) => Told::Step(tree.unmake(Hwnd(w))),
        Step::Next(w) => Told::Step(tree.next_step(Hwnd(w))),
        Step::Drop(w) => Told::Done(tree.drop_one(Hwnd(w))),
        Step::DropThread => {
            tree.drop_thread(Thread(1));
            Told::Nothing
        }
        Step::Ask(asked) => seen(tree, asked)?,
    })
}

/// Each step in turn is answered by what stands beside it.
fn goes(rt: &impl Abort, tree: &mut Tree, steps: &[(Step, Told)]) -> Result<(), Fail> {
    for place in 0..steps.len() {
        let (step, wanted) = steps[place];
        assert_eq!(rt; act(tree, step)?, wanted, "at {place}");
    }
    Ok(())
}

/// The steps of these tables, one table after another.
fn all_go(rt: &impl Abort, tree: &mut Tree, tables: &[&[(Step, Told)]]) -> Result<(), Fail> {
    for table in tables {
        goes(rt, tree, table)?;
    }
    Ok(())
}

/// 16 with the child 17, whose child is 18; 16 owns 19; 20 stands alone.
static FAMILY: [(Step, Told); 5] = [
    (Step::Add(0, 0, 0), number!(16)),
    (Step::Add(CHILD, 16, 0), number!(17)),
    (Step::Add(CHILD, 17, 0), number!(18)),
    (Step::Add(0, 0, 18), number!(19)),
    (Step::Add(0, 0, 0), number!(20)),
];

static NUMBERS_AND_REFUSALS: [(Step, Told); 17] = [
    (Step::Add(0, 0, 0), number!(16)),
    (Step::Add(CHILD, 16, 0), number!(17)),
    (live!(16, 17), Told::Is(true)),
    (Step::Add(CHILD, 0, 9), unmade!(1400)),
    (Step::Add(CHILD, 0, 0), unmade!(1406)),
    (Step::Doom(17), DONE),
    (Step::Doom(17), refused!(1400)),
    (Step::Add(CHILD, 17, 0), unmade!(1400)),
    (Step::Drop(17), refused!(87)),
    (Step::Unmake(17), tell!(17)),
    (Step::Unmake(17), last!(17)),
    (Step::Drop(17), DONE),
    (Step::Drop(17), refused!(1400)),
    (Step::Ask(Ask::Copied), Told::Is(true)),
    (Step::Ask(Ask::Last), Told::Value(Some(17))),
    (Step::Add(0, 0, 0), number!(18)),
    (Step::Ask(Ask::Last), Told::Value(Some(18))),
];

#[test]
fn numbers_rise_and_are_refused_in_order(rt: HostRuntime) -> Result<(), Fail> {
    let mut tree = Tree::new(rt.alloc());
    goes(&rt, &mut tree, &NUMBERS_AND_REFUSALS)
}

static DESTROYED_FAMILY: [(Step, Told); 19] = [
    (Step::Ask(Ask::Owner(19)), Told::Window(Some(Hwnd(16)))),
    (Step::Unmake(16), Told::Step(Unmade::NotDoomed)),
    (Step::Doom(16), DONE),
    (Step::Ask(Ask::Marked(18)), Told::Is(true)),
    (Step::Ask(Ask::Marked(19)), Told::Is(true)),
    (Step::Ask(Ask::Marked(20)), Told::Is(false)),
    (Step::Unmake(16), tell!(19)),
    (Step::Unmake(16), last!(19)),
    (Step::Unmake(16), tell!(16)),
    (Step::Unmake(16), tell!(17)),
    (Step::Unmake(16), tell!(18)),
    (Step::Unmake(16), last!(18)),
    (Step::Unmake(16), last!(17)),
    (Step::Unmake(16), last!(16)),
    (Step::Unmake(16), last!(16)),
    (Step::Ask(Ask::LastGiven(17)), Told::Is(true)),
    (Step::Drop(16), DONE),
    (live!(20), Told::Is(true)),
    (Step::Unmake(16), Told::Step(Unmade::Gone)),
];

#[test]
fn a_family_is_destroyed_in_order(rt: HostRuntime) -> Result<(), Fail> {
    let mut tree = Tree::new(rt.alloc());
    all_go(&rt, &mut tree, &[&FAMILY, &DESTROYED_FAMILY])
}

static MEANWHILE: [(Step, Told); 13] = [
    (Step::Doom(16), DONE),
    (Step::Unmake(16), tell!(19)),
    (Step::Add(0, 0, 0), number!(21)),
    (Step::Unmake(16), last!(19)),
    (Step::Unmake(17), tell!(17)),
    (Step::Next(16), tell!(16)),
    (Step::Drop(19), DONE),
    (Step::Unmake(16), tell!(16)),
    (Step::Unmake(16), tell!(18)),
    (Step::Unmake(16), last!(18)),
    (Step::Unmake(16), last!(17)),
    (Step::Unmake(16), last!(16)),
    (Step::Unmake(17), last!(17)),
];

#[test]
fn other_windows_come_and_go_meanwhile(rt: HostRuntime) -> Result<(), Fail> {
    let mut tree = Tree::new(rt.alloc());
    all_go(&rt, &mut tree, &[&FAMILY, &MEANWHILE])
}

static WALKS: [(Step, Told); 12] = [
    (Step::Restyle(17), Told::Nothing),
    (Step::Ask(Ask::Child(16, 18)), Told::Is(true)),
    (Step::Ask(Ask::Child(16, 19)), Told::Is(false)),
    (Step::Ask(Ask::Child(16, 16)), Told::Is(false)),
    (Step::Ask(Ask::NextTop(0)), Told::Window(Some(Hwnd(16)))),
    (Step::Ask(Ask::NextTop(16)), Told::Window(Some(Hwnd(19)))),
    (Step::Ask(Ask::NextTop(20)), Told::Window(Some(Hwnd(0)))),
    (
        Step::Ask(Ask::NextChild(16, 0)),
        Told::Window(Some(Hwnd(17))),
    ),
    (
        Step::Ask(Ask::NextChild(16, 17)),
        Told::Window(Some(Hwnd(0))),
    ),
    (
        Step::Ask(Ask::NextChild(17, 9)),
        Told::Window(Some(Hwnd(18))),
    ),
    (Step::Ask(Ask::Style(17)), Told::Value(Some(5))),
    (Step::Ask(Ask::Style(9)), Told::Value(None)),
];

#[test]
fn rows_and_walks(rt: HostRuntime) -> Result<(), Fail> {
    let mut tree = Tree::new(rt.alloc());
    all_go(&rt, &mut tree, &[&FAMILY, &WALKS])
}

static TWO_THREADS: [(Step, Told); 13] = [
    (Step::AddOther, number!(21)),
    (Step::Ask(Ask::Class(7)), Told::Is(true)),
    (Step::Ask(Ask::Class(2)), Told::Is(true)),
    (Step::Ask(Ask::Class(3)), Told::Is(false)),
    (Step::Ask(Ask::Kin(16, 19)), Told::Is(true)),
    (Step::Ask(Ask::Kin(17, 16)), Told::Is(false)),
    (Step::Ask(Ask::Find(21)), Told::Window(Some(Hwnd(21)))),
    (Step::Ask(Ask::Find(4294967317)), Told::Window(None)),
    (Step::DropThread, Told::Nothing),
    (live!(21), Told::Is(true)),
    (Step::Ask(Ask::Class(2)), Told::Is(false)),
    (Step::Ask(Ask::Last), Told::Value(Some(21))),
    (Step::Next(21), Told::Step(Unmade::NotDoomed)),
];

#[test]
fn the_windows_of_a_thread(rt: HostRuntime) -> Result<(), Fail> {
    let mut tree = Tree::new(rt.alloc());
    all_go(&rt, &mut tree, &[&FAMILY, &TWO_THREADS])
}

const NEW: Step = Step::Add(0, 0, 0);

/// Adds 1024 windows, as many as there may be.
fn fill(rt: &impl Abort, tree: &mut Tree) -> Result<(), Fail> {
    for w in 16..1040u32 {
        goes(rt, tree, &[(NEW, number!(w))])?;
    }
    Ok(())
}

/// Destroys them, one after another.
fn clear(rt: &impl Abort, tree: &mut Tree) -> Result<(), Fail> {
    for w in 16..1040u32 {
        let steps = [
            (Step::Doom(w), DONE),
            (Step::Unmake(w), tell!(w)),
            (Step::Unmake(w), last!(w)),
            (Step::Drop(w), DONE),
        ];
        goes(rt, tree, &steps)?;
    }
    Ok(())
}

static ONE_TOO_MANY: [(Step, Told); 1] = [(NEW, Told::Number(Err(Fault::Refused(Code::Full))))];

static ONE_MORE: [(Step, Told); 1] = [(NEW, number!(1040))];

fn come_and_go(rt: &impl Abort, tree: &mut Tree) -> Result<(), Fail> {
    fill(rt, tree)?;
    goes(rt, tree, &ONE_TOO_MANY)?;
    clear(rt, tree)?;
    goes(rt, tree, &ONE_MORE)
}

#[test]
fn a_thousand_windows(rt: HostRuntime) -> Result<(), Fail> {
    let mut tree = Tree::new(rt.alloc());
    come_and_go(&rt, &mut tree)
}

//! What an entry does to the tables of classes and of windows.

ghost use Rattle.std.specs.Prelude.{◌≡◌, FitsSigned, None, false, is_ok, OnOk, OnErr};
ghost use Rattle.std.specs.Int.{w32};
ghost use Rattle.win_num.specs.PixelSets.{box, is_bad_rect};
ghost use Rattle.win_num.specs.Rects.{box_in};
ghost use Rattle.win_class.specs.ClassTable.{unregister_refusal, without_class};
ghost use Rattle.win_tree.specs.Kin.{doom_refusal, doomed, drop_refusal, dropped, refusal, with_window};
ghost use Rattle.window_state.specs.Effects.{IsMadeBy, IsRowOf, named_by, unmade_tree};
ghost use Rattle.window_state.specs.Needs.{FitsMaking, FitsNaming, FitsUnmaking, IsAnswered};
ghost use Rattle.window_state.specs.Orders.{FitsMakingOrder, IsOrderMade};

use crate::finding::window_or_none;
use crate::ranks::enter;
use std::alloc::{AllocError, Global};
use user_model::Call;
use win_class::Classes;
use win_num::{Fault, Hwnd, Rect, Thread, names, rect};
use win_order::Order;
use win_tree::{Tree, WindowRow};

/// Registers a class, or the name of a message, as the call says. After want of memory nothing has
/// changed.
pub fn name(classes: &mut Classes, call: Call) -> Result<(), AllocError>
    requires { FitsNaming classes.old call }
    ensures ok { OnOk result (classes.new ≡ named_by call classes.old) }
    ensures err { OnErr result (classes.new ≡ classes.old) }
{
    match call {
        Call::Register(name, proc_no, colour) => fault_of(classes.register(
            name,
            proc_no,
            colour as u8,
        )),
        Call::Message(name) => fault_of(classes.message_number(name)),
        _ => Ok(()),
    }
}

/// Want of memory; no refusal comes here.
fn fault_of(outcome: Result<u32, Fault>) -> Result<(), AllocError>
    requires { IsAnswered outcome }
    ensures { is_ok result ≡ is_ok outcome }
{
    match outcome {
        Ok(_) => Ok(()),
        Err(Fault::Memory) => Err(AllocError),
        Err(Fault::Refused(_)) => unreachable!(),
    }
}

/// Takes the class of the name back.
pub fn unregister(classes: &mut Classes, name: u32)
    requires { unregister_refusal classes.old name false ≡ None }
    ensures { classes.new ≡ without_class classes.old name }
{
    classes.unregister(name, false).unwrap();
}

/// Makes the window of a call, which comes to the top of its siblings. After want of memory nothing has
/// changed.
pub fn make(
    alloc: Global,
    tree: &mut Tree,
    order: &mut Order,
    who: Thread,
    call: Call,
) -> Result<(), AllocError>
    requires table { FitsMaking who.0 call tree.old }
    requires order { FitsMakingOrder who.0 call tree.old order.old }
    ensures table { OnOk result (IsMadeBy who.0 call tree.old tree.new) }
    ensures order { OnOk result (IsOrderMade call tree.old tree.new order.old order.new) }
    ensures table_stays { OnErr result (tree.new ≡ tree.old) }
    ensures order_stays { OnErr result (order.new ≡ order.old) }
{
    if let Call::NewWindow(class, title, parent, style, ex, l, t, r, b) = call {
        let place = place_of(l, t, r, b);
        let above = window_or_none(tree, parent);
        let row = row_from(who, class, title, above, style as u32, ex as u32, place);
        return enter(alloc, tree, order, row);
    }
    Ok(())
}

/// The rectangle with these edges.
pub(crate) fn place_of(l: i64, t: i64, r: i64, b: i64) -> Rect
    requires { is_bad_rect l t r b ≡ false }
    ensures { box_in result ≡ box l t r b }
{
    rect(narrow(l), narrow(t), narrow(r), narrow(b)).unwrap()
}

/// An edge in 32 bits.
fn narrow(edge: i64) -> i32
    requires { FitsSigned w32 edge }
    ensures same { result ≡ edge }
    ensures fits { FitsSigned w32 result }
{
    edge as i32
}

/// The row of a new window: `above` is the parent of a child, else the owner.
fn row_from(
    who: Thread,
    class: u32,
    title: u32,
    above: Hwnd,
    style: u32,
    ex: u32,
    place: Rect,
) -> WindowRow
    ensures row { IsRowOf who.0 class title above.0 style ex result }
    ensures place { result.place ≡ place }
{
    let is_child = u64::from(style) & names::WS_CHILD == names::WS_CHILD;
    WindowRow {
        thread: who,
        class,
        title,
        parent: if is_child { above } else { Hwnd(0) },
        owner: if is_child { Hwnd(0) } else { above },
        style,
        ex,
        place,
    }
}

/// Marks a window with its kin.
pub fn doom(tree: &mut Tree, w: u64)
    requires { doom_refusal tree.old.live w ≡ None }
    ensures { tree.new ≡ record tree.old { live = doomed tree.old.live w } }
{
    let window = window_or_none(tree, w);
    tree.doom(window).unwrap();
}

/// Gives the next step of a destruction.
pub fn unmake(tree: &mut Tree, call: Call)
    requires { FitsUnmaking tree.old call }
    ensures { tree.new ≡ unmade_tree call tree.old }
{
    if let Call::Unmake(w) = call {
        let window = window_or_none(tree, w);
        let _step = tree.unmake(window);
    }
}

/// Takes out a window with its kin.
pub fn drop_window(tree: &mut Tree, w: Hwnd)
    requires { drop_refusal tree.old.live w.0 ≡ None }
    ensures { tree.new ≡ record tree.old { live = dropped tree.old.live w.0 } }
{
    tree.drop_one(w).unwrap();
}

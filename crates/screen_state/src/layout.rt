//! The windows and how they lie above one another, as an entry makes them.

ghost use Rattle.std.specs.Prelude.{◌≡◌, IfOk, OnOk};
ghost use Rattle.std.specs.List.Sorted.{IsNonDecreasingBy};
ghost use Rattle.window_state.specs.Boxes.{AreMoved};
ghost use Rattle.window_state.specs.Effects.{carried_tree, IsLookedAt};
ghost use Rattle.window_state.specs.Needs.{FitsLooking};
ghost use Rattle.window_state.specs.Orders.{carried_order, reordered_by, FitsLeaving, FitsReordering};
ghost use Rattle.screen_state.specs.Entries.{FitsCarryingOut, FitsEntry, IsEntered, IsMade};

use std::alloc::{AllocError, Global};
use user_model::{Answer, Call, Entry};
use win_num::Hwnd;
use win_order::Order;
use win_tree::Tree;
use window_state::{
    doom, drop_window, leave, make, moved_windows, relook, reorder, unmake, window_or_none,
};

/// A table of windows with the z-order of its windows.
#[derive(Drop)]
pub struct Layout {
    pub tree: Tree,
    pub order: Order,
}

/// The windows as an entry makes them, beside what is there.
pub fn layout_after(
    alloc: Global,
    tree: &Tree,
    order: &Order,
    entry: Entry,
) -> Result<Layout, AllocError>
    requires { FitsEntry entry.who.0 entry.answer entry.call tree.now order.now }
    ensures { IfOk result (λ l. IsEntered entry.who.0 entry.answer entry.call tree.now l.tree order.now l.order) }
{
    let mut tree = tree.copy()?;
    let mut order = order.copy(alloc)?;
    enter(alloc, &mut tree, &mut order, entry)?;
    Ok(Layout { tree, order })
}

/// Does to the table and to the order what an entry does.
fn enter(alloc: Global, tree: &mut Tree, order: &mut Order, entry: Entry) -> Result<(), AllocError>
    requires { FitsEntry entry.who.0 entry.answer entry.call tree.old order.old }
    ensures { OnOk result (IsEntered entry.who.0 entry.answer entry.call tree.old tree.new order.old order.new) }
{
    match entry.answer {
        Answer::Window(_) => make(alloc, tree, order, entry.who, entry.call),
        Answer::Value(_) => place(alloc, tree, order, entry.call),
        Answer::Okay => {
            carry_out(tree, order, entry.call);
            Ok(())
        }
        Answer::Tell(_) | Answer::Last(_) => {
            unmake(tree, entry.call);
            Ok(())
        }
        Answer::Ended => {
            tree.drop_thread(entry.who);
            leave(tree, order);
            Ok(())
        }
        _ => Ok(()),
    }
}

/// The windows that an entry has moved on the screen, by rising number. Only the call that puts a window at a
/// place moves one that stays, so no table is looked at for any other.
pub fn moved_by(
    alloc: Global,
    tree: &Tree,
    layout: &Layout,
    entry: Entry,
) -> Result<Vec<Hwnd>, AllocError>
    requires { IsMade tree.now layout.now.tree entry }
    ensures sorted { IfOk result (λ v. IsNonDecreasingBy (λ h. h.0) v.items) }
    ensures moved { IfOk result (λ v. AreMoved tree.now layout.now.tree v.items) }
{
    match entry.call {
        Call::Place(..) => moved_windows(alloc, tree, &layout.tree),
        _ => Ok(Vec::new(alloc)),
    }
}

/// Puts a window at a place and among its siblings, or shows or hides it, as the call says.
fn place(alloc: Global, tree: &mut Tree, order: &mut Order, call: Call) -> Result<(), AllocError>
    requires table { FitsLooking tree.old call }
    requires order { FitsReordering call order.old }
    ensures table { OnOk result (IsLookedAt call tree.old tree.new) }
    ensures order { OnOk result (order.new ≡ reordered_by call order.old) }
{
    reorder(alloc, order, call)?;
    relook(tree, call);
    Ok(())
}

/// Does what a call says that was answered by ok.
fn carry_out(tree: &mut Tree, order: &mut Order, call: Call)
    requires table { FitsCarryingOut call tree.old }
    requires order { FitsLeaving call tree.old order.old }
    ensures table { tree.new ≡ carried_tree call tree.old }
    ensures order { order.new ≡ carried_order call tree.new order.old }
{
    match call {
        Call::Doom(w) => doom(tree, w),
        Call::Drop(w) => {
            let window = window_or_none(tree, w);
            drop_window(tree, window);
            leave(tree, order);
        }
        _ => {}
    }
}

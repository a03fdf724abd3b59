//! What an entry does to the z-order.

ghost use Rattle.std.specs.Prelude.{◌≡◌, ◌==◌, ◌<◌, ℕ, suc, true, false, int_lt, pos, map, None, Some, OnOk, OnErr};
ghost use Rattle.win_rows.specs.declared.window.Window.{Window};
ghost use Rattle.win_rows.specs.Windows.{number_of, window_of};
ghost use Rattle.win_tree.specs.Kin.{refusal, with_window};
ghost use Rattle.win_order.specs.Layers.{IsNew, may_stay};
ghost use Rattle.user_model.specs.ZOrder.{after_of};
ghost use Rattle.window_state.specs.Orders.{FitsEntering, FitsReordering, IsRankable, added_as, kept_by, reordered_by, with_row};

use crate::looks::has_flag;
use std::alloc::{AllocError, Global};
use user_model::Call;
use win_num::{Fault, Hwnd, names};
use win_order::{After, Order};
use win_tree::{Tree, WindowRow};

/// Adds a window to the table, and to the top of its siblings. After want of memory nothing has changed.
pub fn enter(
    alloc: Global,
    tree: &mut Tree,
    order: &mut Order,
    row: WindowRow,
) -> Result<(), AllocError>
    requires table { refusal tree.old row ≡ None }
    requires order { FitsEntering tree.old order.old row }
    ensures table { OnOk result (tree.new ≡ with_window tree.old row) }
    ensures order { OnOk result (order.new ≡ with_row (added_as tree.old row) order.old) }
    ensures table_stays { OnErr result (tree.new ≡ tree.old) }
    ensures order_stays { OnErr result (order.new ≡ order.old) }
{
    add(tree, row)?;
    let ranked = rank_newest(alloc, tree, order);
    if ranked.is_err() {
        tree.forget_newest();
    }
    ranked
}

/// Adds a window that can be made. After want of memory nothing has changed.
fn add(tree: &mut Tree, row: WindowRow) -> Result<(), AllocError>
    requires { refusal tree.old row ≡ None }
    ensures ok { OnOk result (tree.new ≡ with_window tree.old row) }
    ensures err { OnErr result (tree.new ≡ tree.old) }
{
    match tree.add(row) {
        Ok(_) => Ok(()),
        Err(Fault::Memory) => Err(AllocError),
        Err(Fault::Refused(_)) => unreachable!(),
    }
}

/// Puts the window that the table got last to the top of its siblings. After want of memory nothing has
/// changed.
fn rank_newest(alloc: Global, tree: &Tree, order: &mut Order) -> Result<(), AllocError>
    requires { IsRankable tree.now order.old }
    ensures ok { OnOk result ((x : Window) → window_of tree.now.live tree.now.last ≡ Some x → order.new ≡ with_row x order.old) }
    ensures err { OnErr result (order.new ≡ order.old) }
{
    let newest = Hwnd(tree.last());
    match tree.row(newest) {
        Some(row) => {
            let is_topmost = u64::from(row.ex) == names::WS_EX_TOPMOST;
            order.insert(alloc, newest, row.parent, row.owner, is_topmost)
        }
        None => Ok(()),
    }
}

/// Puts the window of a call elsewhere among its siblings, where its flags don't keep the order. After
/// want of memory nothing has changed.
pub fn reorder(alloc: Global, order: &mut Order, call: Call) -> Result<(), AllocError>
    requires { FitsReordering call order.old }
    ensures ok { OnOk result (order.new ≡ reordered_by call order.old) }
    ensures err { OnErr result (order.new ≡ order.old) }
{
    match call {
        Call::Place(w, after, _, _, _, _, flags) if !has_flag(flags, names::SWP_NOZORDER) => {
            order.place(alloc, Hwnd(w as u32), after_of(after))
        }
        _ => Ok(()),
    }
}

/// Where a window is put among its siblings.
fn after_of(after: i64) -> After
    requires { int_lt after (pos 4294967296) ≡ true }
    ensures { result ≡ after_of after }
{
    match after {
        -1 => After::Topmost,
        -2 => After::NoTopmost,
        1 => After::Bottom,
        sibling if sibling > 1 => After::Below(Hwnd(sibling as u32)),
        _ => After::Top,
    }
}

/// Takes the windows out of the order that the table hasn't any more.
pub fn leave(tree: &Tree, order: &mut Order)
    requires { may_stay (map number_of tree.now.live) order.old.standings ≡ true }
    ensures { order.new ≡ kept_by tree.now order.old }
{
    order.keep(tree.windows());
}

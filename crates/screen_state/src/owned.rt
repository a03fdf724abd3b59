//! Which window owns each pixel of the screen.

ghost use Rattle.std.specs.Prelude.{◌≡◌, ◌==◌, [], IfOk};
ghost use Rattle.std.specs.List.{list_all};
ghost use Rattle.screen_state.specs.Owned.{AreOwnersAt};
ghost use Rattle.screen_state.specs.Shown.{changes_owners, shows};

use screen_owners::{Owners, Screen, owned_regions};
use std::alloc::{AllocError, Global};
use user_model::{Answer, Call, Entry, Setup};
use win_num::{Hwnd, names};
use win_order::Order;
use win_tree::Tree;

/// The regions before any entry: no window owns a pixel. Want of memory is the only error.
pub fn first_owners(alloc: Global, setup: Setup) -> Result<Owners, AllocError>
    ensures { IfOk result (AreOwnersAt setup []) }
{
    owned_regions(
        alloc,
        screen_of(setup),
        &Tree::new(alloc),
        &Order::new(alloc),
    )
}

/// The screen of a machine of this setup.
pub fn screen_of(setup: Setup) -> Screen
    ensures width { result.width ≡ setup.width }
    ensures height { result.height ≡ setup.height }
{
    Screen {
        width: setup.width,
        height: setup.height,
    }
}

/// Whether an entry may change which window owns a pixel.
pub fn changes_owners(entry: Entry) -> bool
    ensures { result ≡ changes_owners entry.call entry.answer }
{
    match entry.answer {
        Answer::Ended => true,
        Answer::Window(_) => matches!(entry.call, Call::NewWindow(..)),
        Answer::Okay => matches!(entry.call, Call::Drop(_)),
        Answer::Value(_) => matches!(entry.call, Call::Place(..) | Call::Show(..)),
        _ => false,
    }
}

/// Whether it may give a pixel to a window where no window owned one.
pub fn shows(entry: Entry) -> bool
    ensures { result ≡ shows entry.call entry.answer }
{
    match (entry.answer, entry.call) {
        (Answer::Window(_), Call::NewWindow(_, _, _, style, ..)) => {
            style & names::WS_VISIBLE == names::WS_VISIBLE
        }
        (Answer::Value(_), Call::Place(..) | Call::Show(..)) => true,
        _ => false,
    }
}

/// Whether no window has an entry.
pub fn owns_nothing(owners: &Owners) -> bool
    ensures { result ≡ list_all (λ o. o.window.0 == 0) owners.now }
{
    owners.entries().iter().all(|o| o.window == Hwnd(0))
}

/// The window that an entry makes, drops, shows or puts at a place, or 0. It alone may stand elsewhere among its
/// siblings, as far as the regions are computed anew in a part of the screen alone.
pub fn subject(tree: &Tree, entry: Entry) -> Hwnd {
    match (entry.call, entry.answer) {
        (_, Answer::Window(w)) => w,
        (Call::Place(w, ..) | Call::Show(w, _) | Call::Drop(w), _) => {
            tree.find(w).unwrap_or(Hwnd(0))
        }
        _ => Hwnd(0),
    }
}

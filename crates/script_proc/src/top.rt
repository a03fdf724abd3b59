//! The last of a list of items.

ghost use Rattle.std.specs.Prelude.{◌≡◌, ◌≢◌, ◌+◌, ◌≤◌, [], ◌∷◌, ◌++◌, List, vec_len, vec_capacity, OnOk};
ghost use Rattle.script_proc.specs.declared.item.Item.{Item};
ghost use Rattle.script_proc.specs.Items.{few_items};

use crate::item::{Few, Item};
use std::alloc::AllocError;

/// Takes the last item away.
pub fn drop_last(items: &mut Vec<Item>)
    requires { items.old.items ≢ [] }
    ensures room { (vec_len items.new + 1 ≡ vec_len items.old) × (vec_capacity items.new ≡ vec_capacity items.old) }
    ensures items { (below : List Item) (item : Item) → items.old.items ≡ below ++ item ∷ [] → items.new.items ≡ below }
{
    items.pop();
}

/// Puts an item in the place of the last.
pub fn put_one(items: &mut Vec<Item>, first: Item)
    requires { items.old.items ≢ [] }
    ensures room { (vec_len items.new ≡ vec_len items.old) × (vec_capacity items.new ≡ vec_capacity items.old) }
    ensures items { (below : List Item) (item : Item) → items.old.items ≡ below ++ item ∷ [] → items.new.items ≡ below ++ first ∷ [] }
{
    let last = items.len() - 1;
    items[last] = first;
}

/// Takes room for seven items more.
pub fn take_room(items: &mut Vec<Item>) -> Result<(), AllocError>
    ensures room { OnOk result (vec_len items.new + 7 ≤ vec_capacity items.new) }
    ensures items { items.new.items ≡ items.old.items }
{
    if items.capacity() - items.len() >= 7 {
        return Ok(());
    }
    make_room(items)
}

/// The same where there is no such room yet.
#[inline(never)]
fn make_room(items: &mut Vec<Item>) -> Result<(), AllocError>
    ensures room { OnOk result (vec_len items.new + 7 ≤ vec_capacity items.new) }
    ensures items { items.new.items ≡ items.old.items }
{
    items.reserve(7)
}

/// Puts a few items above the others, where there is room.
pub fn push_few(items: &mut Vec<Item>, few: &Few)
    requires { vec_len items.old + 5 ≤ vec_capacity items.old }
    ensures { items.new.items ≡ items.old.items ++ few_items few.now }
{
    match *few {
        Few::Nothing => {}
        Few::Single(first) => items.push_reserved(first),
        Few::Two(first, a) => {
            items.push_reserved(first);
            items.push_reserved(a);
        }
        Few::Three(first, a, b) => {
            items.push_reserved(first);
            items.push_reserved(a);
            items.push_reserved(b);
        }
        Few::Four(first, a, b, c) => {
            items.push_reserved(first);
            items.push_reserved(a);
            items.push_reserved(b);
            items.push_reserved(c);
        }
        Few::Five(first, a, b, c, d) => {
            items.push_reserved(first);
            items.push_reserved(a);
            items.push_reserved(b);
            items.push_reserved(c);
            items.push_reserved(d);
        }
    }
}

/// Puts them in the place of the last.
pub fn set_last(items: &mut Vec<Item>, few: &Few)
    requires room { vec_len items.old + 4 ≤ vec_capacity items.old }
    requires some { items.old.items ≢ [] }
    ensures { (below : List Item) (item : Item) → items.old.items ≡ below ++ item ∷ [] → items.new.items ≡ below ++ few_items few.now }
{
    drop_last(items);
    push_few(items, few);
}

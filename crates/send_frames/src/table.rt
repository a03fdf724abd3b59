//! The known sends, by number.

ghost use Rattle.std.specs.Prelude.{◌≡◌, ◌+◌, ◌<◌, ◌^◌, ◌↔◌, IsTrue, Some, None, IsSome, IfSome, IfErr, OnOk, OnErr, option_copied, option_map, find, nat_lt};
ghost use Rattle.std.specs.FinMap as map;
ghost use Rattle.send_frames.specs.Items.{is_kept, changed, counted_up, counted_down, with_answer, without_debt, is_unanswered, new_item};

use crate::row::SendRow;
use std::alloc::Global;
use std::collections::BTreeMap;
use std::marker::Model;
use std::ops::Bound;
use win_num::{Cause, Fault, SendId};

/// What the table has of a send.
#[derive(Clone, Copy)]
pub(crate) struct Item {
    pub(crate) row: SendRow,
    /// The first answer.
    pub(crate) answer: Option<(u64, Cause)>,
    /// Whether its result is still owed to a callback procedure.
    pub(crate) owed: bool,
    /// How many frames name it.
    pub(crate) frames: u32,
}

impl Item {
    /// A send as it is known from its beginning.
    pub(crate) fn new(row: SendRow) -> Self
        ensures { result ≡ new_item row }
    {
        Item {
            row,
            answer: None,
            owed: row.is_owed(),
            frames: u32::from(row.pushes()),
        }
    }

    /// Whether the send is still known.
    fn is_kept(&self) -> bool
        ensures { result ≡ is_kept self.now }
    {
        self.answer.is_none() || self.owed || self.frames > 0
    }
}

/// The known sends, seen as a map from their numbers.
#[derive(Drop)]
pub(crate) struct Table {
    items: BTreeMap<u32, Item>,
}

impl Model for Table {
    ghost use Rattle.std.specs.Ordering.{nat_cmp};
    ghost use Rattle.std.specs.FinMap as map;
    ghost use Rattle.std.specs.Coded.{coded_ℕ};
    ghost use Rattle.send_frames.specs.declared.table.Item.{Item};
    ghost use Rattle.send_frames.specs.contracts.table.Item as item;

    ghost Value = { map.FinMap nat_cmp Item };

    ghost coded = { map.code coded_ℕ item.the_row.coded };

    ghost view = { λ a. map.from_entries a.items.entries };
}

impl Table {
    /// No send is known.
    pub(crate) fn new(alloc: Global) -> Self
        ensures { result ≡ map.empty }
    {
        Table {
            items: BTreeMap::new(alloc),
        }
    }

    /// How many sends are known.
    pub(crate) fn len(&self) -> usize
        ensures { result ≡ map.len self.now }
    {
        self.items.len()
    }

    /// What is kept of a send, where it is known.
    pub(crate) fn get(&self, send: SendId) -> Option<&Item>
        ensures { option_copied result ≡ map.get self.now send.0 }
    {
        self.items.get(&send.0)
    }

    /// The known send of least number above this one.
    pub(crate) fn next(&self, after: SendId) -> Option<SendId>
        ensures { option_map (λ s. s.0) result ≡ find (λ n. nat_lt after.0 n) (map.keys self.now) }
    {
        let rest = (Bound::Excluded(after.0), Bound::Unbounded);
        let (number, _) = self.items.range(rest).next()?;
        Some(SendId(*number))
    }

    /// Adds a send.
    pub(crate) fn add(&mut self, send: SendId, item: Item) -> Result<(), Fault>
        ensures ok { OnOk result (self.new ≡ map.insert self.old send.0 item) }
        ensures err { OnErr result (self.new ≡ self.old) }
        ensures cause { IfErr result (λ fault. fault ≡ Fault.Memory) }
    {
        let Ok(_) = self.items.insert(send.0, item) else {
            return Err(Fault::Memory);
        };
        Ok(())
    }

    /// Counts one more frame that names the send, if there is one.
    pub(crate) fn count_up(&mut self, named: Option<SendId>)
        requires { IfSome named (λ s. IfSome (map.get self.old s.0) (λ i. i.frames + 1 < 2 ^ 32)) }
        ensures { self.new ≡ counted_up self.old (option_map (λ s. s.0) named) }
    {
        let Some(send) = named else {
            return;
        };
        if let Some(item) = self.get(send).copied() {
            let frames = item.frames + 1;
            self.change(send, Item { frames, ..item });
        }
    }

    /// Counts one frame less that names the send, if there is one.
    pub(crate) fn count_down(&mut self, named: Option<SendId>)
        requires { IfSome named (λ s. IfSome (map.get self.old s.0) (λ i. 0 < i.frames)) }
        ensures { self.new ≡ counted_down self.old (option_map (λ s. s.0) named) }
    {
        let Some(send) = named else {
            return;
        };
        if let Some(item) = self.get(send).copied() {
            let frames = item.frames - 1;
            self.change(send, Item { frames, ..item });
        }
    }

    /// Keeps the first answer of a known send, and tells whether this is it.
    pub(crate) fn answer(&mut self, send: SendId, value: u64, cause: Cause) -> bool
        ensures told { result ≡ is_unanswered (map.get self.old send.0) }
        ensures kept { self.new ≡ with_answer self.old send.0 (value, cause) }
    {
        let Some(item) = self.get(send).copied() else {
            return false;
        };
        if item.answer.is_some() {
            return false;
        }
        let answer = Some((value, cause));
        self.change(send, Item { answer, ..item });
        true
    }

    /// The send's result is owed to nobody from now on.
    pub(crate) fn forget(&mut self, send: SendId)
        ensures { self.new ≡ without_debt self.old send.0 }
    {
        if let Some(item) = self.get(send).copied() {
            self.change(
                send,
                Item {
                    owed: false,
                    ..item
                },
            );
        }
    }

    /// Changes what is known of a send, and takes it out where nothing keeps it known.
    fn change(&mut self, send: SendId, item: Item)
        requires { IsSome (map.get self.old send.0) }
        ensures { self.new ≡ changed self.old send.0 item }
    {
        if item.is_kept() {
            self.set(send, item);
        } else {
            self.items.remove(&send.0);
        }
    }

    /// Writes what is known of a send.
    fn set(&mut self, send: SendId, item: Item)
        requires { IsSome (map.get self.old send.0) }
        ensures { self.new ≡ map.insert self.old send.0 item }
    {
        if let Some(old) = self.items.get_mut(&send.0) {
            *old = item;
        }
    }
}

//! What is told of the runs that were made.

ghost use Rattle.std.specs.Prelude.{◌≡◌, ◌<◌, ◌≤◌, ◌+◌, ◌*◌, ℕ, Bool, true, false, List, [], ◌∷◌, length, IfOk, OnOk, Option, Some, is_some};
ghost use Rattle.user_model.specs.Past.{Past};
ghost use Rattle.script_tree.specs.Tree.{Tree};
ghost use Rattle.log_text.specs.Ends.{end_of};
ghost use Rattle.run_explorer.specs.Reports.{IsOrderOf, with_mover};
ghost use Rattle.run_explorer.specs.Marks.{is_marked};
ghost use Rattle.run_explorer.specs.Steps.{AreStepsOf};

use crate::step::Step;
use log_text::End;
use std::alloc::{AllocError, Global};

/// How many numbers an order list has at most.
const LONGEST_ORDER: usize = 65_536;

/// Who moved in the first run of a kind.
#[derive(Drop)]
pub enum Order {
    /// There was no such run.
    Nowhere,
    /// Its threads, the first mover first, at most 65,536; in the place of a script's order list they make it again.
    Movers(Vec<u8>),
    /// There are more than 65,536 of them.
    Long,
}

/// How many runs there were of a kind, and who moved in the first one.
#[derive(Drop)]
pub struct Found {
    pub count: u32,
    pub order: Order,
}

/// What is told of the runs that were made: how many they are, how many entries they have together, how many
/// ended with all threads, those that got stuck, those whose budgets were used up, those that are marked and
/// whether a mark is asked for, and whether they are all.
#[derive(Drop)]
pub struct Report {
    pub runs: u32,
    pub entries: u64,
    pub done: u32,
    pub stuck: Found,
    pub spent: Found,
    pub marked: Found,
    pub asks_marked: bool,
    pub is_all: bool,
}

/// Adds the mover, if it is a thread. False where there are as many already as an order list has.
fn add_mover(numbers: &mut Vec<u8>, mover: u8) -> Result<bool, AllocError>
    requires few { length numbers.old.items ≤ 65536 }
    ensures few { OnOk result (length numbers.new.items ≤ 65536) }
    ensures added { IfOk result (λ fits. fits ≡ true → numbers.new.items ≡ with_mover numbers.old.items mover) }
    ensures full { IfOk result (λ fits. fits ≡ false → (0 < mover) × (length numbers.old.items ≡ 65536)) }
{
    if mover == 0 {
        return Ok(true);
    }
    if numbers.len() == LONGEST_ORDER {
        return Ok(false);
    }
    numbers.push(mover)?;
    Ok(true)
}

/// The movers of these steps. `AllocError` comes only for want of memory.
fn order_of(alloc: Global, steps: &[Step]) -> Result<Order, AllocError>
    ensures { IfOk result (λ order. (s : Tree) (bound : ℕ) (past : Past) → AreStepsOf s bound past steps.now → IsOrderOf (Some past) order) }
{
    let mut numbers = Vec::new(alloc);
    for step in steps {
        if !add_mover(&mut numbers, step.mover)? {
            return Ok(Order::Long);
        }
    }
    Ok(Order::Movers(numbers))
}

impl Found {
    ghost use Rattle.run_explorer.specs.Reports.{AreFound};

    /// None were found yet.
    fn new() -> Found
        ensures { (test : Past → Bool) → AreFound test [] result }
    {
        Found {
            count: 0,
            order: Order::Nowhere,
        }
    }

    /// The first one was found, which these steps made. `AllocError` comes only for want of memory.
    fn add_first(&mut self, alloc: Global, steps: &[Step]) -> Result<(), AllocError>
        requires none { self.old.count ≡ 0 }
        ensures count { OnOk result (self.new.count ≡ self.old.count + 1) }
        ensures found { OnOk result ((test : Past → Bool) (s : Tree) (bound : ℕ) (past : Past) (runs : List Past) → AreStepsOf s bound past steps.now → test past ≡ true → AreFound test runs self.old → AreFound test (past ∷ runs) self.new) }
    {
        self.order = order_of(alloc, steps)?;
        self.count = 1;
        Ok(())
    }

    /// One more was found, which these steps made. `AllocError` comes only for want of memory.
    fn add(&mut self, alloc: Global, steps: &[Step]) -> Result<(), AllocError>
        requires room { self.old.count < 4294967295 }
        ensures count { OnOk result (self.new.count ≡ self.old.count + 1) }
        ensures found { OnOk result ((test : Past → Bool) (s : Tree) (bound : ℕ) (past : Past) (runs : List Past) → AreStepsOf s bound past steps.now → test past ≡ true → AreFound test runs self.old → AreFound test (past ∷ runs) self.new) }
    {
        if self.count == 0 {
            return self.add_first(alloc, steps);
        }
        self.count += 1;
        Ok(())
    }
}

impl Report {
    ghost use Rattle.run_explorer.specs.Reports.{AreEndsTold, IsTold, IsSized};

    /// No run was made yet. A mark is asked for, or none is.
    pub fn new(asks_marked: bool) -> Report
        ensures told { (s : Tree) (name : Option (List ℕ)) → is_some name ≡ asks_marked → IsTold s name [] result }
        ensures sized { IsSized result }
        ensures more { result.is_all ≡ false }
        ensures none { result.runs ≡ 0 }
    {
        Report {
            runs: 0,
            entries: 0,
            done: 0,
            stuck: Found::new(),
            spent: Found::new(),
            marked: Found::new(),
            asks_marked,
            is_all: false,
        }
    }

    /// One more run was made, by these steps, which ended so. `AllocError` comes only for want of memory.
    fn add_end(&mut self, alloc: Global, end: End, steps: &[Step]) -> Result<(), AllocError>
        requires room { self.old.runs < 4294967295 }
        requires sized { IsSized self.old }
        requires short { length steps.now ≤ 2097152 }
        ensures told { OnOk result ((s : Tree) (bound : ℕ) (past : Past) (runs : List Past) → AreStepsOf s bound past steps.now → end ≡ end_of s past → AreEndsTold s runs self.old → AreEndsTold s (past ∷ runs) self.new) }
        ensures count { OnOk result (self.new.runs ≡ self.old.runs + 1) }
        ensures sized { OnOk result (IsSized self.new) }
        ensures marked { OnOk result (self.new.marked ≡ self.old.marked) }
        ensures asks { OnOk result (self.new.asks_marked ≡ self.old.asks_marked) }
        ensures same { self.new.is_all ≡ self.old.is_all }
    {
        self.runs += 1;
        self.entries += steps.len() as u64;
        match end {
            End::Done => self.done += 1,
            End::Stuck => self.stuck.add(alloc, steps)?,
            End::Spent => self.spent.add(alloc, steps)?,
            End::Cut => {}
        }
        Ok(())
    }

    /// One more run was made, by these steps, which ended so and is marked or isn't. `AllocError` comes only
    /// for want of memory.
    pub fn add(
        &mut self,
        alloc: Global,
        end: End,
        marks: bool,
        steps: &[Step],
    ) -> Result<(), AllocError>
        requires room { self.old.runs < 4294967295 }
        requires sized { IsSized self.old }
        requires short { length steps.now ≤ 2097152 }
        ensures told { OnOk result ((s : Tree) (bound : ℕ) (name : Option (List ℕ)) (past : Past) (runs : List Past) → AreStepsOf s bound past steps.now → end ≡ end_of s past → marks ≡ is_marked s name past → IsTold s name runs self.old → IsTold s name (past ∷ runs) self.new) }
        ensures count { OnOk result (self.new.runs ≡ self.old.runs + 1) }
        ensures sized { OnOk result (IsSized self.new) }
        ensures same { self.new.is_all ≡ self.old.is_all }
    {
        self.add_end(alloc, end, steps)?;
        if marks {
            self.marked.add(alloc, steps)?;
        }
        Ok(())
    }
}

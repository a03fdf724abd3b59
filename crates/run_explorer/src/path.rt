//! The way that the next run takes.

ghost use Rattle.std.specs.Prelude.{◌≡◌, ◌≤◌, ℕ, true, false, List, [], length, Contains};
ghost use Rattle.user_model.specs.Past.{Past};
ghost use Rattle.script_tree.specs.Tree.{Tree};
ghost use Rattle.run_explorer.specs.declared.part.Part.{Part};
ghost use Rattle.run_explorer.specs.Parts.{IsPartOf};
ghost use Rattle.run_explorer.specs.Steps.{IsMadeBy};

use crate::step::{Position, Step};
use std::alloc::Global;

/// The steps along which the next run goes as the one before, where it stands then, and the thread that moves
/// there in place of the one that moved; none before the first run.
#[derive(Drop)]
pub struct Path {
    pub steps: Vec<Step>,
    pub position: Position,
    pub turn: Option<u8>,
}

impl Path {
    ghost use Rattle.run_explorer.specs.Searches.{IsClosed, IsWay, HasTurned};

    /// The way of the first run.
    pub fn new(alloc: Global) -> Path
        ensures { (s : Tree) (bound : ℕ) (part : Part) → IsWay s bound part [] result }
    {
        Path {
            steps: Vec::new(alloc),
            position: Position {
                last: 0,
                switches: 0,
            },
            turn: None,
        }
    }

    /// Goes back to the last step at which a higher thread might have moved, and lets it move there. False
    /// where there is no such step.
    pub fn turn_back(&mut self) -> bool
        ensures turned { result ≡ true → (s : Tree) (bound : ℕ) (part : Part) (runs : List Past) (last : Past) → IsMadeBy s bound self.old.steps.items last → IsClosed s bound part runs last → IsWay s bound part runs self.new }
        ensures further { result ≡ true → (s : Tree) (bound : ℕ) (last : Past) → length s.threads ≤ 15 → IsMadeBy s bound self.old.steps.items last → HasTurned self.new self.old }
        ensures none { result ≡ false → (s : Tree) (bound : ℕ) (part : Part) (runs : List Past) (last : Past) → IsMadeBy s bound self.old.steps.items last → IsClosed s bound part runs last → (run : Past) → IsPartOf s bound part run → Contains runs run }
    {
        while let Some(step) = self.steps.pop() {
            if let Some(thread) = step.next {
                self.position = step.position;
                self.turn = Some(thread);
                return true;
            }
        }
        false
    }
}

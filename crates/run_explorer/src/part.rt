//! Parts of the runs within a bound, so that several processes make them.

ghost use Rattle.std.specs.Prelude.{◌≡◌, ◌<◌, ◌≤◌, ℕ, ◌+◌, ◌-◌, ◌==◌, [], ◌∷◌, length};
ghost use Rattle.user_model.specs.declared.entry.Entry.{Entry};
ghost use Rattle.user_model.specs.Past.{Past};
ghost use Rattle.script_tree.specs.Tree.{Tree};
ghost use Rattle.run_explorer.specs.Steps.{deciding, counts};
ghost use Rattle.run_explorer.specs.Parts.{IsShareOf};

use crate::step::Step;

/// A part of the runs within a bound: its number, from 1, and how many parts there are.
#[derive(Clone, Copy, Debug, PartialEq, Eq)]
pub struct Part {
    pub number: u32,
    pub count: u32,
}

impl Part {
    ghost use Rattle.run_explorer.specs.Parts.{IsPart};

    /// The one part that has all runs.
    pub fn whole() -> Part
        ensures part { IsPart result }
        ensures count { result.count ≡ 1 }
    {
        Part {
            number: 1,
            count: 1,
        }
    }
}

/// How many entries have decided the part of a run so far, and to which residue.
#[derive(Clone, Copy)]
pub struct Share {
    pub turns: usize,
    pub residue: u32,
}

/// How many entries decide the part of a run.
pub fn deciding(bound: u16) -> usize
    ensures value { result ≡ deciding bound }
    ensures few { result ≤ 4 }
{
    if bound < 2 {
        2
    } else if bound < 4 {
        bound as usize
    } else {
        4
    }
}

impl Share {
    ghost use Rattle.run_explorer.specs.Parts.{IsShare};

    /// Before the first entry.
    fn new() -> Share
        ensures share { (s : Tree) (bound count : ℕ) → IsShare s bound count [] result }
        ensures none { result.turns ≡ 0 }
    {
        Share {
            turns: 0,
            residue: 0,
        }
    }

    /// With one entry more, of a mover at a place from 0, which is one that decides or isn't.
    pub fn after(self, counted: bool, place: usize, mover: u8, count: u32) -> Share
        requires place { place ≤ 2097152 }
        requires count { 0 < count }
        requires room { self.turns ≤ 2097152 }
        ensures share { (s : Tree) (bound : ℕ) (past : Past) (e : Entry) → IsShare s bound count past self → counted ≡ counts s bound past e.who.0 → place ≡ length past → mover ≡ e.who.0 → IsShare s bound count (e ∷ past) result }
        ensures turns { result.turns ≤ self.turns + 1 }
    {
        if !counted {
            return self;
        }
        let number = u64::from(self.residue) * 7 + place as u64 + u64::from(mover);
        Share {
            turns: self.turns + 1,
            residue: (number % u64::from(count)) as u32,
        }
    }

    /// Whether a run of this share is of the part.
    pub fn is_of(self, part: Part) -> bool
        requires { 0 < part.number }
        ensures { result ≡ (self.residue == part.number - 1) }
    {
        self.residue == part.number - 1
    }
}

/// What the steps of a run have decided.
pub fn share_of(steps: &[Step], count: u32) -> Share
    requires short { length steps.now ≤ 2097152 }
    requires count { 0 < count }
    ensures { IsShareOf count steps.now result }
{
    let mut share = Share::new();
    let mut place = 0;
    for step in steps {
        share = share.after(step.counted, place, step.mover, count);
        place += 1;
    }
    share
}

//! All windows that are being painted.

ghost use Rattle.std.specs.Prelude.{if◌then◌else◌, ◌≡◌, ◌≢◌, ◌==◌, ℕ, [], true, not, ◌&&◌, ◌||◌, Some, None, OnOk, OnErr, option_copied};
ghost use Rattle.paint_sessions.specs.LookUps.{clip_in, is_among, is_begun, AreSorted};

use crate::sessions::{Session, clip_of, keep_listed, place_of, put, remove};
use band_region::Region;
use std::alloc::{AllocError, Global};
use std::marker::Model;
use win_num::Hwnd;

/// The windows that are being painted, each with its clip. Contracts see a list of sessions by rising
/// number of their windows, no two of one window.
#[derive(Drop)]
pub struct PaintSessions {
    sessions: Vec<Session>,
}

impl Model for PaintSessions {
    ghost use Rattle.std.specs.Prelude.{List};
    ghost use Rattle.paint_sessions.specs.declared.sessions.Session.{Session};
    ghost use Rattle.paint_sessions.specs.LookUps.{RisesFrom};

    ghost Value = { List Session };

    ghost view = { λ a. a.sessions.items };

    ghost invariant = { λ a. RisesFrom 0 a.sessions.items };
}

impl PaintSessions {
    /// No window is being painted.
    pub fn new(alloc: Global) -> PaintSessions
        ensures { result ≡ [] }
    {
        PaintSessions {
            sessions: Vec::new(alloc),
        }
    }

    /// Whether the window is being painted.
    pub fn is_begun(&self, w: Hwnd) -> bool
        ensures { result ≡ is_begun self.now w.0 }
    {
        place_of(&self.sessions, w).is_ok()
    }

    /// The pixels that the painting of the window may change. None comes where it isn't being painted.
    pub fn clip_of(&self, w: Hwnd) -> Option<&Region>
        ensures { option_copied result ≡ clip_in self.now w.0 }
    {
        clip_of(&self.sessions, w)
    }

    /// Begins the painting of the window with this clip, which takes the place of that of a session that
    /// it has. Want of memory is the only error.
    pub fn begin(&mut self, w: Hwnd, clip: Region) -> Result<(), AllocError>
        ensures begun { OnOk result ((v : ℕ) → is_begun self.new v ≡ (is_begun self.old v || (w.0 == v))) }
        ensures clip { OnOk result (clip_in self.new w.0 ≡ Some clip) }
        ensures others { OnOk result ((v : ℕ) → v ≢ w.0 → clip_in self.new v ≡ clip_in self.old v) }
        ensures err { OnErr result (self.new ≡ self.old) }
    {
        put(&mut self.sessions, w, clip)
    }

    /// Gives the window's session another clip. It takes no memory, so a session may begin with no pixel,
    /// and get its clip once nothing can fail any more.
    pub fn set_clip(&mut self, w: Hwnd, clip: Region)
        requires { is_begun self.old w.0 ≡ true }
        ensures begun { (v : ℕ) → is_begun self.new v ≡ is_begun self.old v }
        ensures clip { clip_in self.new w.0 ≡ Some clip }
        ensures others { (v : ℕ) → v ≢ w.0 → clip_in self.new v ≡ clip_in self.old v }
    {
        if let Ok(i) = place_of(&self.sessions, w) {
            self.sessions[i] = Session { window: w, clip };
        }
    }

    /// Ends the painting of the window. It takes no memory.
    pub fn end(&mut self, w: Hwnd)
        ensures begun { (v : ℕ) → is_begun self.new v ≡ (is_begun self.old v && not (w.0 == v)) }
        ensures others { (v : ℕ) → v ≢ w.0 → clip_in self.new v ≡ clip_in self.old v }
    {
        remove(&mut self.sessions, w);
    }

    /// Leaves the sessions of these windows, and no others. It takes no memory.
    pub fn keep(&mut self, live: &[Hwnd])
        requires { AreSorted live.now }
        ensures begun { (v : ℕ) → is_begun self.new v ≡ (is_among v live.now && is_begun self.old v) }
        ensures clips { (v : ℕ) → clip_in self.new v ≡ (if is_among v live.now then clip_in self.old v else None) }
    {
        keep_listed(&mut self.sessions, live);
    }
}

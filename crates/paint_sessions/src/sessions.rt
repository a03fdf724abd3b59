//! Sessions of painting, by rising number of their windows.

ghost use Rattle.std.specs.Prelude.{◌≡◌, IfOk, IfErr, OnOk, OnErr, Some, None, option_copied};
ghost use Rattle.std.specs.List.{filter};
ghost use Rattle.paint_sessions.specs.LookUps.{clip_in, is_among, AreSorted, RisesFrom};
ghost use Rattle.paint_sessions.specs.Places.{IsAt, IsMissingAt, IsPut};

use band_region::Region;
use std::alloc::AllocError;
use win_num::Hwnd;
use win_rows::has_number;

/// A window that is being painted.
#[derive(Drop)]
pub struct Session {
    /// The window's number.
    pub window: Hwnd,
    /// The pixels that its painting may change: those that were dirty when it began.
    pub clip: Region,
}

/// Where the window's session stands, or as an error where it would have to.
pub fn place_of(sessions: &[Session], w: Hwnd) -> Result<usize, usize>
    requires { RisesFrom 0 sessions.now }
    ensures found { IfOk result (IsAt sessions.now w.0) }
    ensures missing { IfErr result (IsMissingAt sessions.now w.0) }
{
    let i = sessions.partition_point(|s| s.window < w);
    if i < sessions.len() && sessions[i].window == w {
        Ok(i)
    } else {
        Err(i)
    }
}

/// The clip of the window's session. None comes where it has no session.
pub fn clip_of(sessions: &[Session], w: Hwnd) -> Option<&Region>
    requires { RisesFrom 0 sessions.now }
    ensures { option_copied result ≡ clip_in sessions.now w.0 }
{
    match place_of(sessions, w) {
        Ok(i) => Some(&sessions[i].clip),
        Err(_) => None,
    }
}

/// Puts a session of this clip in the place of the window's, or where it belongs.
pub fn put(sessions: &mut Vec<Session>, w: Hwnd, clip: Region) -> Result<(), AllocError>
    requires { RisesFrom 0 sessions.old.items }
    ensures ok { OnOk result (IsPut w.0 (Some clip) sessions.old.items sessions.new.items) }
    ensures err { OnErr result (sessions.new.items ≡ sessions.old.items) }
{
    match place_of(sessions, w) {
        Ok(i) => {
            sessions[i] = Session { window: w, clip };
            Ok(())
        }
        Err(i) => {
            sessions.insert(i, Session { window: w, clip })?;
            Ok(())
        }
    }
}

/// Takes the window's session out, if it has one.
pub fn remove(sessions: &mut Vec<Session>, w: Hwnd)
    requires { RisesFrom 0 sessions.old.items }
    ensures { IsPut w.0 None sessions.old.items sessions.new.items }
{
    if let Ok(i) = place_of(sessions, w) {
        sessions.remove(i);
    }
}

/// Takes out the sessions of all windows but these.
pub fn keep_listed(sessions: &mut Vec<Session>, live: &[Hwnd])
    requires { AreSorted live.now }
    ensures { sessions.new.items ≡ filter (λ s. is_among s.window.0 live.now) sessions.old.items }
{
    sessions.retain(|s| has_number(live, s.window));
}

//! What is kept of the screen, and what an entry does to it.

ghost use Rattle.std.specs.Prelude.{◌≡◌, ℕ, [], true, false, None, IfOk, IfSome, OnOk, OnErr, option_copied, option_map};
ghost use Rattle.win_num.specs.PixelSets.{box, kind_of};
ghost use Rattle.user_model.specs.declared.entry.Setup.{Setup};
ghost use Rattle.user_model.specs.Past.{Past};
ghost use Rattle.user_model.specs.Legal.{IsLawful};
ghost use Rattle.user_model.specs.Windows.{is_live};
ghost use Rattle.user_model.specs.Pixels.{origin};
ghost use Rattle.user_model.specs.Dirty.{dirty_pixels};
ghost use Rattle.user_model.specs.Painting.{to_paint};
ghost use Rattle.user_model.specs.Refusals.{is_no_rect};
ghost use Rattle.user_model.specs.ReplyDrawing.{bounds_from};
ghost use Rattle.window_state.specs.Orders.{IsOrderAt};
ghost use Rattle.window_state.specs.Trees.{IsTreeAt};
ghost use Rattle.screen_owners.specs.Owners.{entry_of, owned_region, AreChildren};
ghost use Rattle.dirty_windows.specs.LookUps.{RisesFrom, entry_area, entry_of as dirty_of, erases_in};
ghost use Rattle.paint_sessions.specs.LookUps.{is_begun};
ghost use Rattle.dirty_windows.specs.Carrying.{IsShort};
ghost use Rattle.screen_state.specs.Carried.{IsCarriedBy};
ghost use Rattle.screen_state.specs.Entries.{IsMade};
ghost use Rattle.screen_state.specs.Owned.{IsNext};
ghost use Rattle.screen_state.specs.Parts.{IsLiveAt};
ghost use Rattle.screen_state.specs.Screens.{draws, keeps_screen, replaced, DrawsScreen, FollowsCarried, FollowsScreen, IsChangeOn, IsDrawn, IsEnded, IsInvalidated, IsReached, IsReachedPart, IsScreenAt, IsTaken, IsValidated, LeavesCarried, LeavesScreen};

use crate::carry::{Carried, shift_of};
use crate::layout::{Layout, layout_after, moved_by};
use crate::owned::{changes_owners, first_owners, owns_nothing, screen_of, shows, subject};
use crate::part::client_part;
use crate::reach::let_through;
use crate::update::{UpdateBox, update_box};
use crate::walk::first_to_paint;
use band_region::Region;
use dirty_windows::{DirtyWindow, DirtyWindows, Shift};
use paint_sessions::PaintSessions;
use screen_owners::{Owners, changed_part, owned_regions_again};
use std::alloc::{AllocError, Global};
use std::marker::Model;
use user_model::{Answer, Call, Entry, Setup};
use win_num::{Filter, Hwnd, Thread};
use win_order::Order;
use win_tree::Tree;
use window_state::{Edges, window_or_none};

/// What is kept of the screen: the pixels that each window owns, the dirty pixels and the erase flags of the
/// windows, and which windows are being painted.
#[derive(Drop)]
pub struct ScreenState {
    owners: Owners,
    dirty: DirtyWindows,
    sessions: PaintSessions,
}

impl Model for ScreenState {
    ghost use Rattle.screen_state.specs.Screens.{Kept};

    ghost Value = { Kept };

    ghost view = { λ s. record { owners = s.owners; dirty = s.dirty; sessions = s.sessions } };
}

/// The owners of pixels and the dirty pixels as an entry that changes windows leaves them, and the pixels that it
/// carries from another place of the screen.
#[derive(Drop)]
pub struct ScreenChange {
    owners: Owners,
    dirty: DirtyWindows,
    carried: Carried,
}

impl Model for ScreenChange {
    ghost use Rattle.screen_state.specs.Screens.{Change};

    ghost Value = { Change };

    ghost view = { λ c. record { owners = c.owners; dirty = c.dirty; carried = c.carried.region; dx = c.carried.shift.dx; dy = c.carried.shift.dy } };
}

impl ScreenChange {
    /// The pixels that the entry carries, where they are now.
    pub fn carried(&self) -> &Region
        ensures { result.now ≡ self.now.carried }
    {
        &self.carried.region
    }

    /// How far they were moved.
    pub fn shift(&self) -> Shift
        ensures across { result.dx ≡ self.now.dx }
        ensures down { result.dy ≡ self.now.dy }
    {
        self.carried.shift
    }
}

impl ScreenState {
    /// The screen before any entry: no window owns a pixel, and none is dirty. Want of memory is the only
    /// error.
    pub fn new(alloc: Global, setup: Setup) -> Result<ScreenState, AllocError>
        ensures { IfOk result (IsScreenAt setup []) }
    {
        let owners = first_owners(alloc, setup)?;
        Ok(ScreenState {
            owners,
            dirty: DirtyWindows::new(alloc),
            sessions: PaintSessions::new(alloc),
        })
    }

    /// The owners and the dirty pixels after an entry that doesn't draw, where it may change them, and the pixels
    /// that it carries; None comes where owners and dirty pixels stay, and none is carried. `tree` and `order` are
    /// those before it. Want of memory is the only error.
    pub fn after(
        &self,
        alloc: Global,
        setup: Setup,
        tree: &Tree,
        order: &Order,
        entry: Entry,
    ) -> Result<Option<ScreenChange>, AllocError>
        requires { IsNext setup tree.now order.now entry }
        ensures windows { IfOk result (λ o. draws entry.call entry.answer ≡ false → FollowsScreen setup tree.now order.now entry self.now (replaced o self.now)) }
        ensures carried { IfOk result (λ o. draws entry.call entry.answer ≡ false → FollowsCarried setup tree.now order.now entry self.now o) }
        ensures near { IfOk result (λ o. IfSome o (IsChangeOn setup)) }
        ensures drawing { IfOk result (λ o. draws entry.call entry.answer ≡ true → o ≡ None) }
    {
        if self.stays(entry) {
            return Ok(None);
        }
        let layout = layout_after(alloc, tree, order, entry)?;
        self.changed(alloc, setup, tree, order, &layout, entry)
    }

    /// The owners and the dirty pixels where an entry has made other windows of a table, as `layout` has them, and the
    /// pixels that it carries. Only the regions in the part of the screen are computed anew whose pixels may have
    /// another owner.
    fn changed(
        &self,
        alloc: Global,
        setup: Setup,
        tree: &Tree,
        order: &Order,
        layout: &Layout,
        entry: Entry,
    ) -> Result<Option<ScreenChange>, AllocError>
        requires before { AreChildren tree.now.live order.now }
        requires children { AreChildren layout.now.tree.live layout.now.order }
        requires made { IsMade tree.now layout.now.tree entry }
        ensures screen { IfOk result (λ o. LeavesScreen setup tree.now order.now layout.now.tree layout.now.order entry self.now (replaced o self.now)) }
        ensures carried { IfOk result (λ o. LeavesCarried setup tree.now order.now layout.now.tree layout.now.order entry self.now o) }
        ensures near { IfOk result (λ o. IfSome o (IsChangeOn setup)) }
    {
        let w = subject(tree, entry);
        let screen = screen_of(setup);
        let part = changed_part(alloc, screen, tree, order, &layout.tree, &layout.order, w)?;
        let owners = owned_regions_again(alloc, &part, &layout.tree, &layout.order, &self.owners)?;
        let moved = moved_by(alloc, tree, layout, entry)?;
        let shift = shift_of(setup, tree, layout, entry);
        let carried = self.carried(alloc, setup, &owners, &moved, shift)?;
        let mut dirty = self
            .dirty
            .after_change(alloc, &self.owners, &owners, &moved, &carried.region)?;
        dirty.keep(layout.tree.windows());
        Ok(Some(ScreenChange {
            owners,
            dirty,
            carried,
        }))
    }

    /// The pixels that windows carry that are moved so far, or none.
    fn carried(
        &self,
        alloc: Global,
        setup: Setup,
        owners: &Owners,
        moved: &[Hwnd],
        shift: Option<Shift>,
    ) -> Result<Carried, AllocError>
        requires { IfSome shift IsShort }
        ensures { IfOk result (IsCarriedBy setup self.now owners.now moved.now shift) }
    {
        match shift {
            Some(shift) => {
                let screen = screen_of(setup);
                let region = self
                    .dirty
                    .carried(alloc, &self.owners, owners, moved, screen, shift)?;
                Ok(Carried { region, shift })
            }
            None => Ok(Carried {
                region: Region::empty(alloc),
                shift: Shift { dx: 0, dy: 0 },
            }),
        }
    }

    /// Whether an entry surely leaves the owners of pixels and, where it doesn't draw, the dirty pixels: it
    /// changes no window that could own one, or no window owns one, none is dirty, and the entry shows none.
    fn stays(&self, entry: Entry) -> bool
        ensures { result ≡ keeps_screen entry.call entry.answer self.now }
    {
        !changes_owners(entry)
            || !shows(entry) && (owns_nothing(&self.owners) && self.dirty.entries().is_empty())
    }

    /// Takes over the owners and the dirty pixels that an entry has changed.
    pub fn take_over(&mut self, change: Option<ScreenChange>)
        ensures { self.new ≡ replaced change self.old }
    {
        if let Some(change) = change {
            self.owners = change.owners;
            self.dirty = change.dirty;
        }
    }

    /// Does what an entry does that draws: makes pixels dirty or clean, begins to paint a window, or ends it
    /// (Microsoft, InvalidateRect, ValidateRect, BeginPaint and EndPaint functions). One that gives pixels a
    /// colour or keeps a frame changes nothing here, nor does any other entry. Want of memory is the only error.
    pub fn draw(&mut self, alloc: Global, tree: &Tree, entry: Entry) -> Result<(), AllocError>
        requires { IsDrawn tree.now entry }
        ensures drawn { OnOk result (draws entry.call entry.answer ≡ true → DrawsScreen tree.now entry self.old self.new) }
        ensures same { OnOk result (draws entry.call entry.answer ≡ false → self.new ≡ self.old) }
        ensures err { OnErr result (self.new ≡ self.old) }
    {
        match (entry.call, entry.answer) {
            (Call::Invalidate(w, l, t, r, b, erase), Answer::Okay) => {
                let w = window_or_none(tree, w);
                self.invalidate(alloc, tree, w, Edges { l, t, r, b }, erase == 1)
            }
            (Call::Validate(w, l, t, r, b), Answer::Okay) => {
                let w = window_or_none(tree, w);
                self.validate(alloc, tree, w, Edges { l, t, r, b })
            }
            (Call::BeginPaint(w), Answer::Painting { .. }) => {
                self.begin(alloc, window_or_none(tree, w))
            }
            (Call::EndPaint(w), Answer::Okay) => {
                self.end(window_or_none(tree, w));
                Ok(())
            }
            (Call::Fill(..), Answer::Okay) => Ok(()),
            (Call::Erase(_), Answer::Okay) => Ok(()),
            (Call::Snap, Answer::Snap(_)) => Ok(()),
            _ => Ok(()),
        }
    }

    /// Makes the pixels of a rectangle dirty that the window owns, and sets its flag where `erase` is true.
    fn invalidate(
        &mut self,
        alloc: Global,
        tree: &Tree,
        w: Hwnd,
        place: Edges,
        erase: bool,
    ) -> Result<(), AllocError>
        requires live { IsLiveAt tree.now w.0 }
        requires place { is_no_rect place.l place.t place.r place.b ≡ false }
        ensures ok { OnOk result (IsInvalidated tree.now w.0 place.l place.t place.r place.b erase self.old self.new) }
        ensures err { OnErr result (self.new ≡ self.old) }
    {
        let part = client_part(alloc, tree, w, place)?;
        self.dirty.invalidate(alloc, w, &part, &self.owners, erase)
    }

    /// Makes the pixels of a rectangle clean for the window, and clears its flag where none is dirty then.
    fn validate(
        &mut self,
        alloc: Global,
        tree: &Tree,
        w: Hwnd,
        place: Edges,
    ) -> Result<(), AllocError>
        requires live { IsLiveAt tree.now w.0 }
        requires place { is_no_rect place.l place.t place.r place.b ≡ false }
        ensures ok { OnOk result (IsValidated tree.now w.0 place.l place.t place.r place.b self.old self.new) }
        ensures err { OnErr result (self.new ≡ self.old) }
    {
        let part = client_part(alloc, tree, w, place)?;
        self.dirty.validate(alloc, w, &part)
    }

    /// Begins to paint the window: its dirty pixels are those that its painting may change, and none is dirty
    /// then.
    fn begin(&mut self, alloc: Global, w: Hwnd) -> Result<(), AllocError>
        ensures ok { OnOk result (IsTaken w.0 self.old self.new) }
        ensures err { OnErr result (self.new ≡ self.old) }
    {
        self.sessions.begin(w, Region::empty(alloc))?;
        let (clip, _) = self.dirty.take(w);
        self.sessions.set_clip(w, clip);
        Ok(())
    }

    /// Ends to paint the window.
    fn end(&mut self, w: Hwnd)
        ensures { IsEnded w.0 self.old self.new }
    {
        self.sessions.end(w);
    }

    /// The pixels that a window owns. None comes where it owns none.
    pub fn owned_region(&self, w: Hwnd) -> Option<&Region>
        ensures { option_copied result ≡ option_map owned_region (entry_of self.now.owners w.0) }
    {
        self.owners.region_of(w)
    }

    /// The windows that have a dirty pixel or an erase flag, by rising number, which is above 0.
    pub fn dirty(&self) -> &[DirtyWindow]
        ensures value { result.now ≡ self.now.dirty }
        ensures rising { RisesFrom 0 result.now }
    {
        self.dirty.entries()
    }

    /// The dirty pixels of a window. None comes where none is dirty.
    pub fn update_region(&self, w: Hwnd) -> Option<&Region>
        ensures { option_copied result ≡ option_map entry_area (dirty_of self.now.dirty w.0) }
    {
        self.dirty.region_of(w)
    }

    /// Whether the background of a window is to be erased.
    pub fn erases(&self, w: Hwnd) -> bool
        ensures { result ≡ erases_in self.now.dirty w.0 }
    {
        self.dirty.erases(w)
    }

    /// Whether a window is being painted.
    pub fn is_painting(&self, w: Hwnd) -> bool
        ensures { result ≡ is_begun self.now.sessions w.0 }
    {
        self.sessions.is_begun(w)
    }

    /// The pixels of a window that painting in it reaches: those that it owns, and while it is being painted
    /// those of its clip (Microsoft, BeginPaint function). Want of memory is the only error.
    pub fn reached(&self, alloc: Global, w: Hwnd) -> Result<Region, AllocError>
        ensures { IfOk result (IsReached self.now w.0) }
    {
        let owned = self.owners.region_of(w);
        let clip = self.sessions.clip_of(w);
        let_through(alloc, owned, clip)
    }

    /// Those of them that lie in a rectangle, given from the window's left top corner (Microsoft, FillRect
    /// function). Want of memory is the only error.
    pub fn reached_part(
        &self,
        alloc: Global,
        tree: &Tree,
        w: Hwnd,
        place: Edges,
    ) -> Result<Region, AllocError>
        requires live { IsLiveAt tree.now w.0 }
        requires place { is_no_rect place.l place.t place.r place.b ≡ false }
        ensures { IfOk result (IsReachedPart tree.now self.now w.0 place.l place.t place.r place.b) }
    {
        let part = client_part(alloc, tree, w, place)?;
        let reached = self.reached(alloc, w)?;
        part.and(alloc, &reached)
    }

    /// The kind of the window's dirty pixels and the least rectangle around them, in pixels from its own left
    /// top corner (Microsoft, GetUpdateRgn and GetUpdateRect functions).
    pub fn update_box(&self, tree: &Tree, w: Hwnd) -> UpdateBox
        ensures kind { (setup : Setup) (past : Past) → IsLawful setup past → IsTreeAt past tree.now → IsScreenAt setup past self.now → is_live past w.0 ≡ true → result.kind ≡ kind_of (dirty_pixels setup past w.0) }
        ensures edges { (setup : Setup) (past : Past) → IsLawful setup past → IsTreeAt past tree.now → IsScreenAt setup past self.now → is_live past w.0 ≡ true → box result.l result.t result.r result.b ≡ bounds_from (origin past w.0) (dirty_pixels setup past w.0) }
    {
        update_box(tree, &self.dirty, w)
    }

    /// The first window of the thread in painting order that has a dirty pixel and whose WM_PAINT the filter lets
    /// pass (Microsoft, WM_PAINT message).
    pub fn to_paint(
        &self,
        tree: &Tree,
        order: &Order,
        thread: Thread,
        filter: Filter,
    ) -> Option<Hwnd>
        ensures { (setup : Setup) (past : Past) → IsLawful setup past → IsTreeAt past tree.now → IsOrderAt past order.now → IsScreenAt setup past self.now → result ≡ to_paint setup past thread.0 filter }
    {
        first_to_paint(tree, order, &self.dirty, thread, filter)
    }
}

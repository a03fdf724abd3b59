//! What is shown, and what an entry does to it.

ghost use Rattle.std.specs.Prelude.{◌≡◌, [], true, false, length, None, Some, IfOk, OnOk, OnErr, option_copied};
ghost use Rattle.win_class.specs.ClassTable.{ClassTable};
ghost use Rattle.user_model.specs.declared.entry.Setup.{Setup};
ghost use Rattle.user_model.specs.Past.{Past};
ghost use Rattle.user_model.specs.Colours.{frame_of, snapped};
ghost use Rattle.screen_state.specs.Owned.{IsNext};
ghost use Rattle.screen_state.specs.Screens.{draws, IsDrawn};
ghost use Rattle.display_state.specs.Displays.{recolours, DrawsDisplay, FitsDisplay, FollowsDisplay, IsBaring, IsCarrying, IsDisplayAt, IsFilled, IsPainting, IsShown, IsSnapped};

use crate::erasing::class_colour;
use band_region::Region;
use screen_buf::Screen;
use screen_state::{ScreenChange, ScreenState};
use std::alloc::{AllocError, Global};
use std::marker::Model;
use user_model::{Answer, Call, Entry, Setup};
use win_class::Classes;
use win_num::Hwnd;
use win_order::Order;
use win_tree::Tree;
use window_state::{Edges, window_or_none};

/// What is shown: what is kept of the screen, the colour of each of its pixels, and the frames that were kept.
#[derive(Drop)]
pub struct Display {
    screen: ScreenState,
    colours: Screen,
    frames: Vec<Vec<u8>>,
}

impl Model for Display {
    ghost use Rattle.std.specs.Prelude.{map};
    ghost use Rattle.display_state.specs.Displays.{Shown};

    ghost Value = { Shown };

    ghost view = { λ d. record { screen = d.screen; colours = d.colours; frames = map (λ f. f.items) d.frames.items } };
}

impl Display {
    /// The display before any entry: each pixel has colour 0, and no frame was kept. Want of memory is the only
    /// error.
    pub fn new(alloc: Global, setup: Setup) -> Result<Display, AllocError>
        ensures { IfOk result (IsDisplayAt setup []) }
    {
        let screen = ScreenState::new(alloc, setup)?;
        let colours = Screen::new(alloc, setup.width, setup.height)?;
        Ok(Display {
            screen,
            colours,
            frames: Vec::new(alloc),
        })
    }

    /// The owners and the dirty pixels after an entry that doesn't draw, where it may change them; None comes
    /// where they stay. `tree` and `order` are those before it. Want of memory is the only error.
    pub fn after(
        &self,
        alloc: Global,
        setup: Setup,
        tree: &Tree,
        order: &Order,
        entry: Entry,
    ) -> Result<Option<ScreenChange>, AllocError>
        requires { IsNext setup tree.now order.now entry }
        ensures windows { IfOk result (λ o. draws entry.call entry.answer ≡ false → FollowsDisplay setup tree.now order.now o entry self.now) }
        ensures near { (past : Past) → IsDisplayAt setup past self.now → IfOk result (λ o. FitsDisplay o self.now) }
        ensures drawing { IfOk result (λ o. draws entry.call entry.answer ≡ true → o ≡ None) }
    {
        self.screen.after(alloc, setup, tree, order, entry)
    }

    /// Takes over the owners and the dirty pixels that an entry has changed. The pixels that it carries get the
    /// colours that they had where they came from, and the pixels that no window owns then get colour 0.
    pub fn take_over(&mut self, change: Option<ScreenChange>)
        requires { FitsDisplay change self.old }
        ensures { IsShown change self.old self.new }
    {
        if let Some(change) = change {
            self.carry(&change);
            self.screen.take_over(Some(change));
            self.bare();
        }
    }

    /// Gives the pixels that an entry carries the colours that they had where they came from (Microsoft, SetWindowPos
    /// function: the valid contents of the client area are copied).
    fn carry(&mut self, change: &ScreenChange)
        requires { FitsDisplay (Some change.now) self.old }
        ensures { IsCarrying change.now self.old self.new }
    {
        let shift = change.shift();
        self.colours.carry(change.carried(), shift.dx, shift.dy);
    }

    /// Gives colour 0 to the pixels that no window owns.
    fn bare(&mut self)
        ensures { IsBaring self.old self.new }
    {
        if let Some(region) = self.screen.owned_region(Hwnd(0)) {
            self.colours.fill(region, 0);
        }
    }

    /// Does what an entry does that draws: makes pixels dirty or clean, begins to paint a window or ends it, paints
    /// pixels, or keeps their colours as a frame (Microsoft, InvalidateRect, ValidateRect, BeginPaint, EndPaint and
    /// FillRect functions, WM_ERASEBKGND message). Any other entry changes nothing here. Want of memory is the only
    /// error.
    pub fn draw(
        &mut self,
        alloc: Global,
        tree: &Tree,
        classes: &Classes,
        entry: Entry,
    ) -> Result<(), AllocError>
        requires { IsPainting tree.now classes.now entry }
        ensures drawn { OnOk result (draws entry.call entry.answer ≡ true → DrawsDisplay tree.now classes.now entry self.old self.new) }
        ensures same { OnOk result (draws entry.call entry.answer ≡ false → self.new ≡ self.old) }
        ensures err { OnErr result (self.new ≡ self.old) }
    {
        match (entry.call, entry.answer) {
            (Call::Fill(w, l, t, r, b, colour), Answer::Okay) => {
                let w = window_or_none(tree, w);
                let region = self
                    .screen
                    .reached_part(alloc, tree, w, Edges { l, t, r, b })?;
                self.paint(alloc, tree, entry, &region, colour as u8)
            }
            (Call::Erase(w), Answer::Okay) => {
                let w = window_or_none(tree, w);
                let region = self.screen.reached(alloc, w)?;
                self.paint(alloc, tree, entry, &region, class_colour(tree, classes, w))
            }
            (Call::Snap, Answer::Snap(_)) => self.snap(alloc, tree, entry),
            _ => self.draw_other(alloc, tree, entry),
        }
    }

    /// Does what an entry does that gives no colour, and keeps none.
    fn draw_other(&mut self, alloc: Global, tree: &Tree, entry: Entry) -> Result<(), AllocError>
        requires drawn { IsDrawn tree.now entry }
        requires quiet { recolours entry.call entry.answer ≡ false }
        ensures drawn { (c : ClassTable) → OnOk result (draws entry.call entry.answer ≡ true → DrawsDisplay tree.now c entry self.old self.new) }
        ensures same { OnOk result (draws entry.call entry.answer ≡ false → self.new ≡ self.old) }
        ensures err { OnErr result (self.new ≡ self.old) }
    {
        self.screen.draw(alloc, tree, entry)
    }

    /// Gives the colour to the pixels of a region.
    fn paint(
        &mut self,
        alloc: Global,
        tree: &Tree,
        entry: Entry,
        region: &Region,
        colour: u8,
    ) -> Result<(), AllocError>
        requires drawn { IsDrawn tree.now entry }
        requires draws { draws entry.call entry.answer ≡ true }
        ensures ok { OnOk result (IsFilled tree.now entry region.now colour self.old self.new) }
        ensures err { OnErr result (self.new ≡ self.old) }
    {
        self.screen.draw(alloc, tree, entry)?;
        self.colours.fill(region, colour);
        Ok(())
    }

    /// Keeps the colours of the screen as a frame.
    fn snap(&mut self, alloc: Global, tree: &Tree, entry: Entry) -> Result<(), AllocError>
        requires drawn { IsDrawn tree.now entry }
        requires draws { draws entry.call entry.answer ≡ true }
        ensures ok { OnOk result (IsSnapped tree.now entry self.old self.new) }
        ensures err { OnErr result (self.new ≡ self.old) }
    {
        let frame = self.colours.frame(alloc)?;
        self.frames.reserve(1)?;
        self.screen.draw(alloc, tree, entry)?;
        self.frames.push(frame).unwrap();
        Ok(())
    }

    /// What is kept of the screen.
    pub fn screen(&self) -> &ScreenState
        ensures { result.now ≡ self.now.screen }
    {
        &self.screen
    }

    /// The colours of the frame of a number, counted from 1, row after row, each from left to right. None comes
    /// exactly where there is no frame of the number.
    pub fn frame(&self, number: u32) -> Option<&[u8]>
        ensures { (setup : Setup) (past : Past) → IsDisplayAt setup past self.now → option_copied result ≡ frame_of setup past number }
    {
        if number == 0 {
            return None;
        }
        match self.frames.get(number as usize - 1) {
            Some(frame) => Some(frame.as_slice()),
            None => None,
        }
    }

    /// How many frames were kept.
    pub fn frame_count(&self) -> usize
        ensures { (setup : Setup) (past : Past) → IsDisplayAt setup past self.now → result ≡ length (snapped past) }
    {
        self.frames.len()
    }
}

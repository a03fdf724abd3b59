//! The colour that erases a window.

ghost use Rattle.display_state.specs.Displays.{IsColourOf};

use win_class::Classes;
use win_num::Hwnd;
use win_tree::Tree;

/// The colour of the class of a window, or 0.
pub fn class_colour(tree: &Tree, classes: &Classes, w: Hwnd) -> u8
    ensures { IsColourOf tree.now classes.now w.0 result }
{
    let Some(row) = tree.row(w) else {
        return 0;
    };
    match classes.class(row.class) {
        Some(class) => class.colour,
        None => 0,
    }
}

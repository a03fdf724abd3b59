//! Dialogs.

/// How a dialog stands on its window (Microsoft, DialogBox and EndDialog functions).
#[derive(Clone, Copy, Debug, PartialEq, Eq)]
pub enum Dialog {
    /// It runs, and has no result yet.
    Running,
    /// It has this result, which nobody was told yet.
    Finished(u64),
}

//! The calls of the machine.

ghost use Rattle.std.specs.Prelude.{◌≡◌};
ghost use Rattle.user_model.specs.Retrievals.{removes};

use win_num::names;

/// A call of the machine, with its arguments in the order in which scripts and logs write them. Windows,
/// threads and message numbers are 64-bit numbers as they were written, which no call narrows before it
/// has tested them.
#[derive(Clone, Copy, Debug, PartialEq, Eq)]
pub enum Call {
    /// Looks for the first message that a filter lets pass: the window (0 for all, minus one for messages
    /// without a window), the least and the greatest number, where 0 and 0 let every number pass, and
    /// flags, of which bit 0 removes the message (Microsoft, PeekMessage function).
    Peek(u64, u64, u64, u64),
    /// Takes the first message that a filter lets pass, or waits for one: the window, the least and the
    /// greatest number (Microsoft, GetMessage function).
    Get(u64, u64, u64),
    /// Posts a message to a window, or for window 0 to the caller: the window, the message's number,
    /// wParam and lParam (Microsoft, PostMessage function).
    Post(u64, u64, u64, u64),
    /// Posts a message without a window to a thread, and goes on: the thread, the message's number,
    /// wParam and lParam (Microsoft, PostThreadMessage function).
    PostThread(u64, u64, u64, u64),
    /// Posts quit to the caller, with its code (Microsoft, PostQuitMessage function).
    PostQuit(u64),
    /// Which kinds of messages are there for the caller, and which of them came since it looked last, as far as a mask of 0 to 127 has
    /// their bits (Microsoft, GetQueueStatus function).
    Status(u64),
    /// Hands a message to the procedure of an own window, or for window 0 to nobody: the window, the
    /// message's number, wParam and lParam (Microsoft, DispatchMessage function).
    Dispatch(u64, u64, u64, u64),
    /// Sends a message and waits for its answer: the window, the message's number, wParam and lParam
    /// (Microsoft, SendMessage function).
    Send(u64, u64, u64, u64),
    /// Sends a message and waits for its answer for a time: the same, flags, of which those of the setup are known, and
    /// milliseconds (Microsoft, SendMessageTimeout function).
    SendTimeout(u64, u64, u64, u64, u64, u64),
    /// Sends a message and goes on (Microsoft, SendNotifyMessage function).
    SendNotify(u64, u64, u64, u64),
    /// Sends a message and goes on; the callback procedure of this number gets the result with the extra
    /// word (Microsoft, SendMessageCallback function).
    SendCallback(u64, u64, u64, u64, u32, u64),
    /// Waits for the answer of this send, and serves others meanwhile.
    Await(u64),
    /// Ends the procedure on top with this result.
    Leave(u64),
    /// Answers the send on top before its procedure ends (Microsoft, ReplyMessage function).
    Reply(u64),
    /// Which kind of send the caller is in (Microsoft, InSendMessageEx function).
    InSend,
    /// The number of the registered message of this name, which is a place in the script's list of names
    /// (Microsoft, RegisterWindowMessage function).
    Message(u32),
    /// Posts the character that a key makes to the window of its message, or for window 0 to the caller: the window, the message's
    /// number, its key and its lParam (Microsoft, TranslateMessage function).
    Translate(u64, u64, u64, u64),
    /// Registers a class: its name, a place in the script's list of names; the number of its procedure;
    /// its colour, 0 to 15 (Microsoft, RegisterClass function).
    Register(u32, u32, u64),
    /// Takes the class of this name back (Microsoft, UnregisterClass function).
    Unregister(u32),
    /// Makes a window: the names of its class and its title, its parent or owner or 0, style, extended
    /// style, and the left, top, right and bottom edge in pixels from its parent's or the screen's left
    /// top corner (Microsoft, CreateWindowEx function).
    NewWindow(u32, u32, u64, u64, u64, i64, i64, i64, i64),
    /// Marks a window for destruction, with all below it and owned by it (Microsoft, DestroyWindow
    /// function, whose steps these three calls are).
    Doom(u64),
    /// The next step of the destruction of a marked window.
    Unmake(u64),
    /// Takes a window away at the end of its destruction, with all below it and owned by it.
    Drop(u64),
    /// Puts a window at a place: the window; where it comes among its siblings, 0 to the top, 1 to the bottom, minus one to
    /// the top with the topmost flag set, minus two to the top with it cleared, else directly below the sibling of this
    /// number; the left, top, right and bottom edge in pixels from its parent's or the screen's left top corner; flags, which
    /// keep the size (1), the corner (2) or the order (4), show (64) or hide it (128), or leave behind what it shows (256)
    /// (Microsoft, SetWindowPos function).
    Place(u64, i64, i64, i64, i64, i64, u64),
    /// Shows a window (1) or hides it (0) (Microsoft, ShowWindow function).
    Show(u64, u64),
    /// Lets a window take part in input (1) or not (0) (Microsoft, EnableWindow function).
    Enable(u64, u64),
    /// The highest top-level window of this title, which is a place in the script's list of names
    /// (Microsoft, FindWindow function).
    Find(u32),
    /// The same, but waits until there is one.
    AwaitTitle(u32),
    /// The top-level window of least number above this one.
    NextTop(u64),
    /// The child of a window of least number above another: the window, and the number, 0 for the first
    /// child (Microsoft, GetWindow function).
    ChildAfter(u64, u64),
    /// The style bits of a window as they are now (Microsoft, GetWindowLong function with GWL_STYLE).
    StyleOf(u64),
    /// The window that owns the pixel of the screen at this x and y, counted from its left top corner
    /// (Microsoft, WindowFromPoint function).
    WindowAt(i64, i64),
    /// Whether this is a live window (Microsoft, IsWindow function).
    IsWindow(u64),
    /// The window's parent, or its owner (Microsoft, GetParent function).
    Parent(u64),
    /// Sets the window that keys go to, for the caller and those attached to it, or for 0 takes the focus away (Microsoft,
    /// SetFocus function).
    SetFocus(u64),
    /// Makes a top-level window the active one, for the caller and those attached to it, or for 0 none; a window makes the caller
    /// the foreground thread (Microsoft, SetActiveWindow function).
    SetActive(u64),
    /// Sets the own window that the mouse goes to wherever it is (Microsoft, SetCapture function).
    SetCapture(u64),
    /// Takes the capture away (Microsoft, ReleaseCapture function).
    ReleaseCapture,
    /// The window that keys go to (Microsoft, GetFocus function).
    GetFocus,
    /// The active window (Microsoft, GetActiveWindow function).
    GetActive,
    /// The window that the mouse goes to wherever it is (Microsoft, GetCapture function).
    GetCapture,
    /// Attaches two threads to each other, so that they and those attached to them share focus, active window and capture (Microsoft,
    /// AttachThreadInput function).
    Attach(u64, u64),
    /// Undoes an attachment of two threads, made in either order (Microsoft, AttachThreadInput function).
    Detach(u64, u64),
    /// Injects a message of the mouse and puts the cursor to its pixel: the message's number, and the pixel's x and y, counted from
    /// the left top corner of the screen (Microsoft, SendInput function, and Mouse Input).
    Mouse(u64, i64, i64),
    /// Injects a key that goes down (1) or up (0): which, and the key's number (Microsoft, SendInput function, and Virtual-Key Codes).
    Key(u64, u64),
    /// Whether a key or a button of the mouse is down, by the input that the caller and those attached to it have taken (Microsoft,
    /// GetKeyState function).
    KeyState(u64),
    /// Begins a dialog on an own window, and tells its owner (Microsoft, DialogBox function).
    BeginDialog(u64),
    /// How the dialog on an own window stands; one that has a result runs no more once that was told (Microsoft, DialogBox function).
    DialogState(u64),
    /// Gives the dialog on an own window its result; a later one replaces it (Microsoft, EndDialog function).
    EndDialog(u64, u64),
    /// Makes the pixels of a rectangle dirty that the window owns: the window, the left, top, right and bottom edge in
    /// pixels from its own left top corner, and 1 where its background is to be erased too, else 0 (Microsoft,
    /// InvalidateRect function).
    Invalidate(u64, i64, i64, i64, i64, u64),
    /// Makes the pixels of a rectangle clean: the window, and the left, top, right and bottom edge in pixels from its own
    /// left top corner (Microsoft, ValidateRect function).
    Validate(u64, i64, i64, i64, i64),
    /// The window's dirty pixels, by kind and least rectangle (Microsoft, GetUpdateRgn and GetUpdateRect functions).
    UpdateRect(u64),
    /// Begins to paint a window: makes all of it clean, and tells what was dirty (Microsoft, BeginPaint function).
    BeginPaint(u64),
    /// Ends what BeginPaint has begun (Microsoft, EndPaint function).
    EndPaint(u64),
    /// Paints the pixels of a rectangle that the window owns, and while it is being painted of those alone that were dirty then:
    /// the window, the left, top, right and bottom edge in pixels from its own left top corner, and the colour, 0 to 15
    /// (Microsoft, FillRect function).
    Fill(u64, i64, i64, i64, i64, u64),
    /// Paints all of a window in the same way with the colour of its class (Microsoft, WM_ERASEBKGND message).
    Erase(u64),
    /// Keeps the colours of the screen as a frame.
    Snap,
    /// Sets a timer of an own window: the window, the timer's id, and its period in milliseconds, where below 10 count as 10 and above
    /// 2147483647 as that. A timer of the window with this id is replaced (Microsoft, SetTimer function).
    SetTimer(u64, u64, u64),
    /// Takes a timer back: its window and its id (Microsoft, KillTimer function).
    KillTimer(u64, u64),
    /// Ends the thread that makes it, and drops its windows.
    EndThread,
    /// The virtual clock (Microsoft, GetTickCount64 function).
    Clock,
    /// Waits until the clock has reached a time in milliseconds (Microsoft, Sleep function).
    SleepUntil(u64),
    /// Does nothing, and lets others go on.
    Yield,
    /// Moves the clock on by so many milliseconds. Actor 0 alone makes it.
    Tick(u64),
    /// Lets the clock go on where every thread waits. Actor 0 alone makes it.
    Advance,
}

impl Call {
    /// Whether the call removes what it retrieves: a get does, and a peek with bit 0 of its flags, PM_REMOVE (Microsoft, PeekMessage
    /// function).
    pub fn removes(&self) -> bool
        ensures { result ≡ removes self.now }
    {
        match self {
            Call::Get(..) => true,
            Call::Peek(_, _, _, flags) => flags & names::PM_REMOVE == names::PM_REMOVE,
            _ => false,
        }
    }
}

//! Statements.

use crate::operand::{Letter, Operand, Operator, Test};

/// A statement that makes one call, with its operands in the order in which they are written. A class, a
/// title or a name is its place in the list of names, and a procedure its place in the list of procedures,
/// both from 0.
#[derive(Clone, Copy)]
pub enum CallStatement {
    /// `peek W MIN MAX FLAGS` (Microsoft, PeekMessage function).
    Peek(Operand, Operand, Operand, Operand),
    /// `get W MIN MAX` (Microsoft, GetMessage function).
    Get(Operand, Operand, Operand),
    /// `post W M P Q` (Microsoft, PostMessage function).
    Post(Operand, Operand, Operand, Operand),
    /// `post_thread T M P Q` (Microsoft, PostThreadMessage function).
    PostThread(Operand, Operand, Operand, Operand),
    /// `post_quit V` (Microsoft, PostQuitMessage function).
    PostQuit(Operand),
    /// `status FLAGS` (Microsoft, GetQueueStatus function).
    Status(Operand),
    /// `dispatch`, with the last message got (Microsoft, DispatchMessage function).
    Dispatch,
    /// `translate`, with the last message got (Microsoft, TranslateMessage function).
    Translate,
    /// `send W M P Q` (Microsoft, SendMessage function).
    Send(Operand, Operand, Operand, Operand),
    /// `send_timeout W M P Q FLAGS MS` (Microsoft, SendMessageTimeout function).
    SendTimeout(Operand, Operand, Operand, Operand, Operand, Operand),
    /// `send_notify W M P Q` (Microsoft, SendNotifyMessage function).
    SendNotify(Operand, Operand, Operand, Operand),
    /// `send_callback W M P Q PROC EXTRA` (Microsoft, SendMessageCallback function).
    SendCallback(Operand, Operand, Operand, Operand, u32, Operand),
    /// `reply V` (Microsoft, ReplyMessage function).
    Reply(Operand),
    /// `in_send` (Microsoft, InSendMessageEx function).
    InSend,
    /// `message NAME` (Microsoft, RegisterWindowMessage function).
    Message(u32),
    /// `register CLASS PROC COLOUR` (Microsoft, RegisterClass function).
    Register(u32, u32, Operand),
    /// `unregister CLASS` (Microsoft, UnregisterClass function).
    Unregister(u32),
    /// `is_window W` (Microsoft, IsWindow function).
    IsWindow(Operand),
    /// `parent W` (Microsoft, GetParent function).
    Parent(Operand),
    /// `next_top W`
    NextTop(Operand),
    /// `find TITLE` (Microsoft, FindWindow function).
    Find(u32),
    /// `await_title TITLE`
    AwaitTitle(u32),
    /// `window_at X Y`; a value from 2^63 on is a number below 0, by two's complement (Microsoft, WindowFromPoint function).
    WindowAt(Operand, Operand),
    /// `get_focus` (Microsoft, GetFocus function).
    GetFocus,
    /// `get_active` (Microsoft, GetActiveWindow function).
    GetActive,
    /// `get_capture` (Microsoft, GetCapture function).
    GetCapture,
    /// `attach T U` (Microsoft, AttachThreadInput function).
    Attach(Operand, Operand),
    /// `detach T U` (Microsoft, AttachThreadInput function).
    Detach(Operand, Operand),
    /// `mouse M X Y`; a value from 2^63 on is a number below 0, by two's complement (Microsoft, SendInput function).
    Mouse(Operand, Operand, Operand),
    /// `key DOWN VK` (Microsoft, SendInput function).
    Key(Operand, Operand),
    /// `key_state VK` (Microsoft, GetKeyState function).
    KeyState(Operand),
    /// `end_dialog W V` (Microsoft, EndDialog function).
    EndDialog(Operand, Operand),
    /// `invalidate W L T R B ERASE`; an edge from 2^63 on is a number below 0, by two's complement (Microsoft,
    /// InvalidateRect function).
    Invalidate(Operand, Operand, Operand, Operand, Operand, Operand),
    /// `validate W L T R B`, likewise (Microsoft, ValidateRect function).
    Validate(Operand, Operand, Operand, Operand, Operand),
    /// `update_rect W` (Microsoft, GetUpdateRgn and GetUpdateRect functions).
    UpdateRect(Operand),
    /// `end_paint W` (Microsoft, EndPaint function).
    EndPaint(Operand),
    /// `fill W L T R B COLOUR`; an edge from 2^63 on is a number below 0, by two's complement (Microsoft, FillRect function).
    Fill(Operand, Operand, Operand, Operand, Operand, Operand),
    /// `snap`
    Snap,
    /// `set_timer W ID MS` (Microsoft, SetTimer function).
    SetTimer(Operand, Operand, Operand),
    /// `kill_timer W ID` (Microsoft, KillTimer function).
    KillTimer(Operand, Operand),
    /// `clock` (Microsoft, GetTickCount64 function).
    Clock,
    /// `yield`
    Yield,
}

/// A compound statement that makes a call and then sends messages, that goes through the top-level windows, or
/// that is a loop of messages or a dialog with one, with its operands in the order in which they are written.
#[derive(Clone, Copy, PartialEq, Eq)]
pub enum CompoundStatement {
    /// `show_window W ON` (Microsoft, ShowWindow function).
    ShowWindow(Operand, Operand),
    /// `enable_window W ON` (Microsoft, EnableWindow function).
    EnableWindow(Operand, Operand),
    /// `set_window_pos W AFTER L T R B FLAGS`; a place in the order or an edge from 2^63 on is a number below 0, by
    /// two's complement (Microsoft, SetWindowPos function).
    SetWindowPos(Operand, Operand, Operand, Operand, Operand, Operand, Operand),
    /// `set_focus W` (Microsoft, SetFocus function).
    SetFocus(Operand),
    /// `set_active W` (Microsoft, SetActiveWindow function).
    SetActive(Operand),
    /// `set_capture W` (Microsoft, SetCapture function).
    SetCapture(Operand),
    /// `release_capture` (Microsoft, ReleaseCapture function).
    ReleaseCapture,
    /// `begin_paint W` (Microsoft, BeginPaint function).
    BeginPaint(Operand),
    /// `update_window W` (Microsoft, UpdateWindow function).
    UpdateWindow(Operand),
    /// `post_all M P Q` (Microsoft, PostMessage function, HWND_BROADCAST).
    PostAll(Operand, Operand, Operand),
    /// `notify_all M P Q` (Microsoft, SendNotifyMessage function, HWND_BROADCAST).
    NotifyAll(Operand, Operand, Operand),
    /// `pump` (Microsoft, GetMessage, TranslateMessage and DispatchMessage functions).
    Pump,
    /// `dialog W` (Microsoft, DialogBox function).
    Dialog(Operand),
}

/// What `create` makes a window of (Microsoft, CreateWindowEx function).
#[derive(Clone, Copy)]
pub struct Creation {
    /// The class, a place in the list of names.
    pub class: u32,
    /// The title, a place in the list of names.
    pub title: u32,
    /// The parent or owner, or 0.
    pub parent: Operand,
    pub style: Operand,
    pub extended_style: Operand,
    /// The edges in pixels; a value from 2^63 on is a number below 0, by two's complement.
    pub left: Operand,
    pub top: Operand,
    pub right: Operand,
    pub bottom: Operand,
}

/// A statement.
#[derive(Drop)]
pub enum Statement {
    /// `let V A`
    Let(Letter, Operand),
    /// `let V A OP B`
    Compute(Letter, Operand, Operator, Operand),
    /// `if A CMP B`, its body, `end`
    If(Test, Vec<Statement>),
    /// `if A CMP B`, its body, `else`, the other body, `end`
    IfElse(Test, Vec<Statement>, Vec<Statement>),
    /// `while A CMP B`, its body, `end`
    While(Test, Vec<Statement>),
    /// `return A`: ends its procedure with this result. It stands in procedures alone: a text with one in a thread is refused.
    Return(Operand),
    /// A statement that makes a call.
    Call(CallStatement),
    /// `sleep MS` (Microsoft, Sleep function).
    Sleep(Operand),
    /// `create CLASS TITLE PARENT STYLE EX L T R B` (Microsoft, CreateWindowEx function).
    Create(Creation),
    /// `destroy W` (Microsoft, DestroyWindow function).
    Destroy(Operand),
    /// One of the other compound statements.
    Compound(CompoundStatement),
    /// `default`, with the message of the procedure (Microsoft, DefWindowProc function). In procedures alone.
    Default,
}

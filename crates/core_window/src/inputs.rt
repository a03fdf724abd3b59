//! What the calls on the mouse and on keys answer.

ghost use Rattle.std.specs.Prelude.{◌≡◌, ◌<◌, ◌≤◌, false};
ghost use Rattle.user_model.specs.Past.{is_full};
ghost use Rattle.user_model.specs.Inputs.{Injection, home_of, key_message, message_in};
ghost use Rattle.user_model.specs.Pixels.{point};
ghost use Rattle.user_model.specs.ReplyInput.{inject, is_no_key, is_no_mouse, key_reply, key_state_reply, mouse_reply};

use core_deliver::codes::INVALID_PARAMETER;
use core_state::{CoreState, is_of_mouse};
use user_model::Answer;
use win_num::Code;
use win_num::names::{WM_KEYDOWN, WM_KEYUP};

/// The greatest number of a key or a button (Microsoft, Virtual-Key Codes).
const LAST_KEY: u64 = 254;

/// How it is said that a key is down (Microsoft, GetKeyState function).
const IS_DOWN: u64 = 32768;

/// The answer where a message of the mouse is to be injected at a pixel.
pub fn mouse_answer(state: &CoreState, number: u64, x: i64, y: i64) -> Answer
    requires { is_full state.now.past ≡ false }
    ensures { result ≡ mouse_reply state.now.setup state.now.past number x y }
{
    if is_no_mouse(state, number, x, y) {
        return Answer::Refused(INVALID_PARAMETER);
    }
    inject_answer(state, state.mouse_home(x, y), message_of(number))
}

/// The answer where a key is to be injected, down (1) or up.
pub fn key_answer(state: &CoreState, down: u64, key: u64) -> Answer
    requires { is_full state.now.past ≡ false }
    ensures { result ≡ key_reply state.now.setup state.now.past down key }
{
    if down > 1 || is_no_key(key) {
        return Answer::Refused(INVALID_PARAMETER);
    }
    inject_answer(state, state.key_home(), key_message(down))
}

/// Whether a key is down for the caller's group: 32768, or 0.
pub fn key_state_answer(state: &CoreState, who: u8, key: u64) -> Answer
    requires some { 0 < who }
    requires known { who ≤ state.now.setup.threads }
    ensures { result ≡ key_state_reply state.now.past who key }
{
    if is_no_key(key) {
        return Answer::Refused(INVALID_PARAMETER);
    }
    if state.is_key_down(who, key_of(key)) {
        return Answer::Value(IS_DOWN);
    }
    Answer::Value(0)
}

/// The answer of an injection that is meant for a thread, or for none (0).
fn inject_answer(state: &CoreState, home: u8, message: u32) -> Answer
    requires room { is_full state.now.past ≡ false }
    requires known { home ≤ state.now.setup.threads }
    ensures { (i : Injection) → home ≡ home_of state.now.setup state.now.past i → message ≡ message_in i → result ≡ inject state.now.setup state.now.past i }
{
    if home == 0 {
        return Answer::Refused(Code::NoTarget);
    }
    if state.lacks_place(home, message) {
        return Answer::Refused(Code::Full);
    }
    Answer::Input(state.next_input_number())
}

/// Whether it is no message of the mouse at a pixel of the screen.
fn is_no_mouse(state: &CoreState, number: u64, x: i64, y: i64) -> bool
    ensures { result ≡ is_no_mouse state.now.setup number (point x y) }
{
    !is_of_mouse(number) || !state.is_on_screen(x, y)
}

/// Whether it is the number of no key and no button.
fn is_no_key(key: u64) -> bool
    ensures { result ≡ is_no_key key }
{
    key == 0 || key > LAST_KEY
}

/// The number of a message.
fn message_of(number: u64) -> u32
    requires { number ≤ 65535 }
    ensures { result ≡ number }
{
    number as u32
}

/// The message of a key that goes down (1) or up (Microsoft, WM_KEYDOWN and WM_KEYUP messages).
fn key_message(down: u64) -> u32
    ensures { result ≡ key_message down }
{
    if down == 1 { WM_KEYDOWN } else { WM_KEYUP }
}

/// The number of a key.
fn key_of(key: u64) -> u8
    requires { key ≤ 255 }
    ensures { result ≡ key }
{
    key as u8
}

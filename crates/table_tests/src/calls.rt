//! Each public call, at one call of each kind of field.

use crate::facts::hold;
use call_fields::Value;
use call_table::*;
use user_model::Call;

#[test]
fn calls_again(rt: HostRuntime) {
    for (call, word) in [
        (Call::Peek(1, 2, 3, 4), b"peek".as_slice()),
        (Call::SendCallback(1, 2, 3, 4, 5, 6), b"send_callback"),
        (Call::NewWindow(1, 2, 3, 4, 5, -6, -7, 8, 9), b"new_window"),
        (Call::SetFocus(16), b"set_focus"),
        (Call::ReleaseCapture, b"release_capture"),
        (Call::Detach(1, 2), b"detach"),
        (Call::Mouse(513, 7, -3), b"mouse"),
        (Call::Key(1, 65), b"key"),
        (Call::KeyState(16), b"key_state"),
        (Call::BeginDialog(16), b"begin_dialog"),
        (Call::DialogState(16), b"dialog_state"),
        (Call::EndDialog(16, 7), b"end_dialog"),
        (Call::Translate(16, 256, 65, 1), b"translate"),
        (Call::Status(127), b"status"),
        (Call::Invalidate(16, -1, 2, 3, 4, 1), b"invalidate"),
        (Call::Validate(16, -1, 2, 3, 4), b"validate"),
        (Call::UpdateRect(16), b"update_rect"),
        (Call::BeginPaint(16), b"begin_paint"),
        (Call::EndPaint(16), b"end_paint"),
        (Call::Fill(16, -1, 2, 3, 4, 15), b"fill"),
        (Call::Erase(16), b"erase"),
        (Call::Snap, b"snap"),
        (Call::Clock, b"clock"),
    ] {
        let form = call_form(call_name(call));
        assert_eq!(rt; form.word, word);
        assert_eq!(rt;
            call_of_parts(call_name(call), &call_parts(call)),
            Some(call)
        );
    }
}

#[test]
fn parts_of_no_call(rt: HostRuntime) {
    let doom = CallName::Window(WindowCall::Doom);
    let get = CallName::Delivery(DeliveryCall::Get);
    let one = [Value::Number(1)];
    let other = [Value::Message(1)];
    let two = [Value::Number(1), Value::Number(2)];
    let facts = [
        call_of_parts(doom, &one) == Some(Call::Doom(1)),
        call_of_parts(doom, &other) == None,
        call_of_parts(doom, &two) == None,
        call_of_parts(get, &two) == None,
    ];
    hold(&rt, &facts);
}

//! Each public call on its happy path, and at values of another kind.

use crate::facts::hold;
use call_fields::*;
use user_model::Origin;
use win_num::{Cause, Code, Hwnd, SendId, Thread};

#[test]
fn words_of_fields(rt: HostRuntime) {
    let facts = [
        source_word(Origin::Posted) == b"posted".as_slice(),
        source_word(Origin::Paint) == b"paint".as_slice(),
        source_word(Origin::Input) == b"input".as_slice(),
        cause_word(Cause::Timeout) == b"timeout".as_slice(),
        code_word(Code::NotNow) == Some(b"not_now".as_slice()),
        code_word(Code::Win(5)) == None,
        field_of(Value::Count(1)) == Field::Count,
        row_of(b"doom", &[Field::Number]).word == b"doom".as_slice(),
    ];
    hold(&rt, &facts);
}

fn numbers() -> Values {
    values_of(&[
        Value::Number(1),
        Value::Message(2),
        Value::Signed(-3),
        Value::Name(4),
        Value::Procedure(5),
        Value::Window(Hwnd(16)),
        Value::Send(SendId(7)),
        Value::Thread(Thread(8)),
        Value::Count(9),
    ])
}

#[test]
fn values_at_places(rt: HostRuntime) {
    let values = numbers();
    let facts = [
        number_at(&values, 0) == 1,
        message_at(&values, 1) == 2,
        signed_at(&values, 2) == -3,
        name_at(&values, 3) == 4,
        procedure_at(&values, 4) == 5,
        window_at(&values, 5) == Hwnd(16),
        send_at(&values, 6) == SendId(7),
        thread_at(&values, 7) == Thread(8),
        count_at(&values, 8) == 9,
        number_at(&values, 1) == 0,
        number_at(&values, 9) == 0,
    ];
    hold(&rt, &facts);
}

fn others() -> Values {
    values_of(&[
        Value::ShortMessage(1),
        Value::Pixel(-2),
        Value::Source(Origin::Quit),
        Value::Cause(Cause::Loss),
        Value::Code(Code::Full),
        Value::Byte(3),
    ])
}

#[test]
fn other_values_at_places(rt: HostRuntime) {
    let values = others();
    let facts = [
        short_message_at(&values, 0) == 1,
        pixel_at(&values, 1) == -2,
        source_at(&values, 2) == Origin::Quit,
        cause_at(&values, 3) == Cause::Loss,
        code_at(&values, 4) == Code::Full,
        byte_at(&values, 5) == 3,
    ];
    hold(&rt, &facts);
}

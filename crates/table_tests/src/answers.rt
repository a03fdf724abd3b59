//! Each public call, at one answer of each kind of field.

use answer_table::*;
use call_fields::Value;
use user_model::{Answer, Origin};
use win_num::{Cause, Code, Hwnd, Msg, Point, SendId};

/// The word of the answer's form, and the answer made again of its word and its values.
fn again(answer: Answer) -> Option<(&'static [u8], Answer)> {
    let form = answer_form(answer_name(answer));
    let name = answer_named(form.word)?;
    let same = answer_of_parts(name, &answer_parts(answer))?;
    Some((form.word, same))
}

#[test]
fn answers_again(rt: HostRuntime) {
    let msg = Msg {
        hwnd: Hwnd(16),
        number: 15,
        wparam: 1,
        lparam: 2,
        time: 3,
        point: Point { x: -1, y: 5 },
    };
    for (answer, word) in [
        (
            Answer::Got {
                origin: Origin::Quit,
                number: 0,
                msg,
            },
            b"got".as_slice(),
        ),
        (
            Answer::Done {
                result: 7,
                cause: Cause::Loss,
            },
            b"done",
        ),
        (
            Answer::Update {
                kind: 3,
                l: -1,
                t: 2,
                r: 3,
                b: 4,
            },
            b"update",
        ),
        (
            Answer::Painting {
                erase: 1,
                l: -1,
                t: 2,
                r: 3,
                b: 4,
            },
            b"painting",
        ),
        (Answer::Snap(5), b"snap"),
        (Answer::Was(Hwnd(0)), b"was"),
        (Answer::Running, b"running"),
        (Answer::Finished(7), b"result"),
        (Answer::Input(3), b"input"),
        (Answer::Inside(SendId(3), 4), b"inside"),
        (Answer::Refused(Code::Full), b"refused"),
    ] {
        assert_eq!(rt; again(answer), Some((word, answer)));
    }
}

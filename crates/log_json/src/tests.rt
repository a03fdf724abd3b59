//! Lines of JSON.

ghost use Rattle.std.specs.Prelude.{IfOk};
ghost use Rattle.log_json.specs.Texts.{AreTexts};

use crate::entry::put_entry;
use crate::frame::put_frame;
use crate::line::put_line;
use log_text::Words;
use script_tree::{Body, Script};
use serde_json::Value;
use std::alloc::{AllocError, Global};
use std::test::Fail;
use user_model::{Answer, Call, Entry};
use win_num::{Code, Thread};

const ENTRIES: &[u8] =
    b"{\"answer\":\"posted 1\",\"call\":\"post_thread 3 WM_USER 1 0\",\"who\":1}\n{\"answer\":\"refused 1444\",\"call\":\"post_thread 9 1025 2 0\",\"who\":15}\n{\"answer\":\"stuck\",\"call\":\"advance\",\"who\":0}\n";

const COLOURS: [u8; 32] = [
    0, 1, 2, 3, 4, 5, 6, 7, 8, 9, 10, 11, 12, 13, 14, 15, 0, 0, 0, 0, 0, 0, 0, 0, 0, 0, 0, 0, 0, 0,
    0, 15,
];

const FRAME: &[u8] = b"{\"frame\":[\"01234567\",\"89abcdef\",\"00000000\",\"0000000f\"]}\n";

const ESCAPED: &[u8] = b"\"a \\\"b\\\" \\\\ \\n \\u0001\"\n";

/// A script of one thread that names nothing.
fn nameless(alloc: Global) -> Result<Script, AllocError>
    ensures { IfOk result (λ script. AreTexts script) }
{
    let threads = vec![in alloc; Body::new(Vec::new(alloc))]?;
    Ok(Script::new(
        8,
        4,
        9,
        Vec::new(alloc),
        Vec::new(alloc),
        Vec::new(alloc),
        threads,
    ))
}

/// The post of a message to a thread.
fn post(thread: u64, number: u64, wparam: u64) -> Call {
    Call::PostThread(thread, number, wparam, 0)
}

/// An entry of these parts.
fn entry(who: u8, call: Call, answer: Answer) -> Entry {
    let who = Thread(who);
    Entry { who, call, answer }
}

#[test]
fn entries(rt: HostRuntime) -> Result<(), Fail> {
    let alloc = rt.alloc();
    let script = nameless(alloc)?;
    let words = Words::new(&script);
    let mut out = Vec::new(alloc);
    let refused = Answer::Refused(Code::Win(1444));
    let posted = entry(1, post(3, 1024, 1), Answer::Posted(1));
    let lost = entry(15, post(9, 1025, 2), refused);
    let stuck = entry(0, Call::Advance, Answer::Stuck);
    put_entry(alloc, &mut out, &words, posted)?;
    put_entry(alloc, &mut out, &words, lost)?;
    put_entry(alloc, &mut out, &words, stuck)?;
    assert_eq!(rt; out.as_slice(), ENTRIES);
    Ok(())
}

#[test]
fn frames(rt: HostRuntime) -> Result<(), Fail> {
    let alloc = rt.alloc();
    let script = nameless(alloc)?;
    let words = Words::new(&script);
    let mut out = Vec::new(alloc);
    put_frame(alloc, &mut out, &words, None)?;
    put_frame(alloc, &mut out, &words, Some(&COLOURS))?;
    assert_eq!(rt; out.as_slice(), FRAME);
    Ok(())
}

#[test]
fn escapes(rt: HostRuntime) -> Result<(), Fail> {
    let alloc = rt.alloc();
    let mut out = Vec::new(alloc);
    let text = Value::try_from_str(alloc, "a \"b\" \\ \n \u{1}")?;
    put_line(alloc, &mut out, &text)?;
    assert_eq!(rt; out.as_slice(), ESCAPED);
    Ok(())
}

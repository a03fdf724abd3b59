//! Logs that are read, and texts that are none.

use crate::facts::hold;
use log_read::{Extra, Log, ReadFault, Reason, read_log};
use log_text::End;
use std::alloc::Global;
use std::process::Abort;
use std::test::Fail;
use user_model::{Answer, Call, Entry};
use win_num::{Cause, Code, SendId, Thread};

const SCRIPT: &[u8] =
    b"user 1\nscreen 8 4\nbudget 9\norder\nproc pa\ndefault\nend\nthread\nregister ca pa 0\ncreate ca tb 0 0 0 0 0 1 1\nend\nthread\nend\n";

const WHOLE: &[u8] =
    b"log 1\n1 register ca pa 0 = value 1\n1 new_window ca tb 0 268435456 8 -5 0 9223372036854775807 -9223372036854775808 = window 16\n2 post 16 WM_USER 5 6 = posted 1\n2 post 16 2000 5 18446744073709551615 = refused 1816\n2 post_quit 7 = refused full\n1 get 0 0 0 = got posted 1 16 WM_USER 5 6 0 -1 2147483647\n1 get 0 0 0 = got quit 0 0 WM_QUIT 7 0 4294967296 -2147483648 0\n2 send 16 WM_CLOSE 0 0 = begun 1\n1 get 0 0 0 = enter 1 pa 16 WM_CLOSE 0 0\n1 leave 3 = left 1\n2 await 1 = done 3 proc\n2 in_send = value 0\n0 tick 5 = value 5\n0 advance = busy 255\n15 sleep_until 9 = wait\n0 advance = stuck\nend stuck\nwaits 1 get 0 0 0\nwaits 15 sleep_until 9\nsends begun 1 entered 1 proc 1 reply 0 loss 0 timeout 0 open 4294967295\n";

/// A script with sends between threads, and the log that the program prints of its run.
const SENDS: &[u8] =
    b"user 1\nscreen 8 4\nbudget 100\norder\nproc shop\nif msg = WM_USER\nsend lp WM_USER 0 0\nlet a r + r\nreturn a\nend\nif msg = WM_DESTROY\npost_quit 0\nend\nend\nproc buyer\nif msg = WM_USER\nreturn 3\nend\nend\nthread\nregister shops shop 0\ncreate shops counter 0 0 0 0 0 8 2\npost_thread 2 WM_APP r 0\nget 0 0 0\nend\nthread\nregister people buyer 0\ncreate people customer 0 0 0 0 2 8 4\nlet a r\nget 0 0 0\nsend gwp WM_USER 0 a\nlet b r\nsend gwp WM_CLOSE 0 0\nis_window gwp\nend\n";

const SENDS_LOG: &[u8] =
    b"log 1\n1 register shops shop 0 = value 1\n2 register people buyer 0 = value 2\n1 new_window shops counter 0 0 0 0 0 8 2 = window 16\n2 new_window people customer 0 0 0 0 2 8 4 = window 17\n1 send 16 WM_NCCREATE 0 0 = inside 1 shop\n2 send 17 WM_NCCREATE 0 0 = inside 2 buyer\n1 leave 1 = left 1\n2 leave 1 = left 2\n1 send 16 WM_CREATE 0 0 = inside 3 shop\n2 send 17 WM_CREATE 0 0 = inside 4 buyer\n1 leave 0 = left 3\n2 leave 0 = left 4\n1 post_thread 2 WM_APP 16 0 = posted 1\n2 get 0 0 0 = got posted 1 0 WM_APP 16 0 0 0 0\n1 get 0 0 0 = wait\n2 send 16 WM_USER 0 17 = begun 5\n1 get 0 0 0 = enter 5 shop 16 WM_USER 0 17\n2 await 5 = wait\n1 send 17 WM_USER 0 0 = begun 6\n2 await 5 = enter 6 buyer 17 WM_USER 0 0\n1 await 6 = wait\n2 leave 3 = left 6\n1 await 6 = done 3 proc\n2 await 5 = wait\n1 leave 6 = left 5\n2 await 5 = done 6 proc\n1 get 0 0 0 = wait\n2 send 16 WM_CLOSE 0 0 = begun 7\n1 get 0 0 0 = enter 7 shop 16 WM_CLOSE 0 0\n2 await 7 = wait\n1 doom 16 = ok\n1 unmake 16 = tell 16\n1 send 16 WM_DESTROY 0 0 = inside 8 shop\n1 post_quit 0 = ok\n1 leave 0 = left 8\n1 unmake 16 = last 16\n1 send 16 WM_NCDESTROY 0 0 = inside 9 shop\n1 leave 0 = left 9\n1 drop 16 = ok\n1 unmake 16 = gone\n1 leave 0 = left 7\n2 await 7 = done 0 proc\n1 get 0 0 0 = got quit 0 0 WM_QUIT 0 0 0 0 0\n2 is_window 16 = value 0\n1 end_thread = ended\n2 end_thread = ended\nend done\nsends begun 9 entered 9 proc 9 reply 0 loss 0 timeout 0 open 0\n";

const COUNTS: &[u8] = b"sends begun 0 entered 0 proc 0 reply 0 loss 0 timeout 0 open 0\n";

/// A script whose screen is one pixel wide.
const NARROW: &[u8] = b"user 1\nscreen 1 3\nbudget 9\norder\nthread\nend\n";

const FRAMES: &[u8] =
    b"log 1\n1 snap = snap 1\n01234567\n89abcdef\neeeeeeee\n10000000\n2 yield = ok\n2 snap = snap 2\n00000000\n0000000f\nf0000000\n00000000\nend done\nsends begun 0 entered 0 proc 0 reply 0 loss 0 timeout 0 open 0\n";

/// Ends, with and without extra lines.
static ENDS: [(&[u8], bool); 21] = [
    (b"end done\n", true),
    (b"end cut\n", true),
    (b"end stuck\n", true),
    (b"end spent\n", true),
    (b"end spent\nspent 2\nspent 1\nspent 2\n", true),
    (b"end spent\nspent 0\n", true),
    (b"end stuck\nwaits 0 advance\n", true),
    (b"end spent\nspent 16\n", false),
    (b"end spent\nspent 01\n", false),
    (b"end spent\nwaits 1 yield\n", false),
    (b"end stuck\nspent 1\n", false),
    (b"end stuck\nwaits 16 yield\n", false),
    (b"end stuck\nwaits 1 yields\n", false),
    (b"end stuck\nwaits 1\n", false),
    (b"end done\nspent 1\n", false),
    (b"end cut\nwaits 1 yield\n", false),
    (b"end over\n", false),
    (b"end\n", false),
    (b"end done \n", false),
    (b"end done\nend done\n", false),
    (b"", false),
];

/// Lines on both sides of each limit.
static LINES: [(&[u8], bool); 54] = [
    (b"1 yield = ok\nend done\n", true),
    (b"15 yield = ok\nend done\n", true),
    (b"16 yield = ok\nend done\n", false),
    (b"01 yield = ok\nend done\n", false),
    (b"1  yield = ok\nend done\n", false),
    (b"1 yield  = ok\nend done\n", false),
    (b"1 yield = ok \nend done\n", false),
    (b" 1 yield = ok\nend done\n", false),
    (b"1 yield ok\nend done\n", false),
    (b"1 yield - ok\nend done\n", false),
    (b"1 yield = okay\nend done\n", false),
    (b"1 yield\nend done\n", false),
    (b"\nend done\n", false),
    (b"1 yield 1 = ok\nend done\n", false),
    (b"1 post_quit = ok\nend done\n", false),
    (b"1 post_quit 18446744073709551615 = ok\nend done\n", true),
    (b"1 post_quit 18446744073709551616 = ok\nend done\n", false),
    (b"1 post_quit WM_USER = ok\nend done\n", false),
    (b"1 post_quit -1 = ok\nend done\n", false),
    (b"1 post 16 15 0 0 = posted 1\nend done\n", false),
    (b"1 post 16 WM_PAINT 0 0 = posted 1\nend done\n", true),
    (b"1 post 16 WM_NONE 0 0 = posted 1\nend done\n", false),
    (b"1 post 16 65536 0 0 = posted 4294967295\nend done\n", true),
    (
        b"1 post 16 65536 0 0 = posted 4294967296\nend done\n",
        false,
    ),
    (b"1 unregister ca = ok\nend done\n", true),
    (b"1 unregister pa = ok\nend done\n", false),
    (b"1 unregister 0 = ok\nend done\n", false),
    (b"1 unregister 2 = ok\nend done\n", false),
    (b"1 register ca pa 1 = refused 65535\nend done\n", true),
    (b"1 register ca pa 1 = refused 65536\nend done\n", false),
    (b"1 register ca pb 1 = ok\nend done\n", false),
    (b"1 register ca 0 1 = ok\nend done\n", false),
    (b"0 advance = busy 256\nend done\n", false),
    (b"1 await 1 = done 3 replies\nend done\n", false),
    (b"1 await 1 = done 3 reply\nend done\n", true),
    (b"1 await 1 = done 0 hung\nend done\n", true),
    (
        b"1 child_after 16 0 = window 17\n1 style_of 17 = value 0\nend done\n",
        true,
    ),
    (b"1 await 1 = done 3\nend done\n", false),
    (
        b"1 get 0 0 0 = got paint 0 16 WM_PAINT 0 0 0 0 0\nend done\n",
        true,
    ),
    (
        b"1 invalidate 16 -1 0 2 3 1 = ok\n1 validate 16 -1 0 2 3 = ok\nend done\n",
        true,
    ),
    (
        b"1 update_rect 16 = update 255 -1 0 2147483647 -2147483648\nend done\n",
        true,
    ),
    (b"1 update_rect 16 = update 256 0 0 0 0\nend done\n", false),
    (b"1 begin_paint 16 = painting 1 0 0 2 3\nend done\n", true),
    (
        b"1 begin_paint 16 = painting 0 0 0 2 3\n1 end_paint 16 = ok\nend done\n",
        true,
    ),
    (b"1 begin_paint 16 = painting 255 0 0 2 3\nend done\n", true),
    (
        b"1 begin_paint 16 = painting 256 0 0 2 3\nend done\n",
        false,
    ),
    (b"1 begin_paint 16 = painting 01 0 0 2 3\nend done\n", false),
    (
        b"1 get 0 0 0 = got posted 1 16 WM_USER 5 6 0 -1 2147483648\nend done\n",
        false,
    ),
    (
        b"1 get 0 0 0 = got posted 1 16 WM_USER 5 6 0 -0 0\nend done\n",
        false,
    ),
    (
        b"1 mouse WM_MOUSEMOVE 3 -2 = input 1\n1 key 1 65 = input 4294967295\nend done\n",
        true,
    ),
    (b"1 mouse 512 3 2 = input 1\nend done\n", false),
    (b"1 key 1 65 = input 4294967296\nend done\n", false),
    (
        b"1 get 0 0 0 = got input 1 16 WM_MOUSEMOVE 0 65539 0 3 1\nend done\n",
        true,
    ),
    (
        b"1 get 0 0 0 = got mouse 1 16 WM_MOUSEMOVE 0 65539 0 3 1\nend done\n",
        false,
    ),
];

/// Rows of frames.
static ROWS: [(&[u8], bool); 16] = [
    (
        b"1 snap = snap 1\n01234567\n89abcdef\neeeeeeee\n10000000\nend done\n",
        true,
    ),
    // Rows too short and too long, also where the number of all digits is right.
    (
        b"1 snap = snap 1\n01234567\n89abcde\neeeeeeee\n10000000\nend done\n",
        false,
    ),
    (
        b"1 snap = snap 1\n01234567\n89abcdef0\neeeeeeee\n10000000\nend done\n",
        false,
    ),
    (
        b"1 snap = snap 1\n01234567\n89abcde\nfeeeeeeee\n10000000\nend done\n",
        false,
    ),
    // Letters that are no digits of colours.
    (
        b"1 snap = snap 1\n01234567\n89abcdeg\neeeeeeee\n10000000\nend done\n",
        false,
    ),
    (
        b"1 snap = snap 1\n01234567\n89ABCDEF\neeeeeeee\n10000000\nend done\n",
        false,
    ),
    (
        b"1 snap = snap 1\n01234567\n89abc ef\neeeeeeee\n10000000\nend done\n",
        false,
    ),
    // Rows too few, none, and too many.
    (
        b"1 snap = snap 1\n01234567\n89abcdef\neeeeeeee\nend done\n",
        false,
    ),
    (b"1 snap = snap 1\nend done\n", false),
    (
        b"1 snap = snap 1\n01234567\n89abcdef\neeeeeeee\n10000000\n10000000\nend done\n",
        false,
    ),
    (
        b"1 snap = snap 1\n01234567\n89abcdef\neeeeeeee\n10000000\n",
        false,
    ),
    // Frames behind entries that kept none, and above their entries.
    (
        b"1 snap = refused full\n01234567\n89abcdef\neeeeeeee\n10000000\nend done\n",
        false,
    ),
    (
        b"1 yield = ok\n01234567\n89abcdef\neeeeeeee\n10000000\nend done\n",
        false,
    ),
    (
        b"01234567\n89abcdef\neeeeeeee\n10000000\n1 snap = snap 1\nend done\n",
        false,
    ),
    // The largest number of a frame, and one more.
    (
        b"1 snap = snap 4294967295\n01234567\n89abcdef\neeeeeeee\n10000000\nend done\n",
        true,
    ),
    (
        b"1 snap = snap 4294967296\n01234567\n89abcdef\neeeeeeee\n10000000\nend done\n",
        false,
    ),
];

/// Rows of frames that are one pixel wide.
static NARROW_ROWS: [(&[u8], bool); 4] = [
    (b"1 snap = snap 1\ne\n1\ne\nend done\n", true),
    (b"1 snap = snap 1\ne\n1\nend done\n", false),
    (b"1 snap = snap 1\ne\n1\ne\ne\nend done\n", false),
    (b"1 snap = snap 1\ne\n\ne\nend done\n", false),
];

/// Texts that are no logs: cut short, with another first line, with counts one too large or with other zeros.
static NO_LOGS: [&[u8]; 9] = [
    b"",
    b"\n",
    b"log 1\n",
    b"log 2\nend done\nsends begun 0 entered 0 proc 0 reply 0 loss 0 timeout 0 open 0\n",
    b"log 1\nend done\nsends begun 0 entered 0 proc 0 reply 0 loss 0 timeout 0\n",
    b"log 1\nend done\nsends begun 0 entered 0 proc 0 reply 0 loss 0 timeout 0 open 4294967296\n",
    b"log 1\nend done\nsends begun 00 entered 0 proc 0 reply 0 loss 0 timeout 0 open 0\n",
    b"log 1\nend done\nsends begun 0 entered 0 proc 0 reply 0 loss 0 timeout 0 open 0\n\n",
    b"log 1\nend done\nsends begun 0 entered 0 proc 0 reply 0 loss 0 timeout 0 open 0",
];

/// Where and why a text is refused.
static REFUSALS: [(&[u8], u32, Reason); 10] = [
    (b"", 1, Reason::End),
    (b"log 1", 1, Reason::Bytes),
    (b"log 2\n", 1, Reason::Operand),
    (b"log 1\n1 yield = ok\r\n", 2, Reason::Bytes),
    (b"log 1\n1 yields = ok\n", 2, Reason::Operand),
    (b"log 1\n16 yield = ok\n", 2, Reason::Limit),
    (b"log 1\n1 unregister pa = ok\n", 2, Reason::Name),
    (b"log 1\n1 post 16 15 0 0 = posted 1\n", 2, Reason::Operand),
    (b"log 1\n1 snap = snap 1\n0123456\n", 3, Reason::Operand),
    (b"log 1\nend done\nspent 1\n", 3, Reason::Words),
];

/// The log of a script.
fn log_of(alloc: Global, script: &[u8], text: &[u8]) -> Result<Log, Fail> {
    let script = script_text::read(alloc, script)?;
    let log = read_log(alloc, &script, text)?;
    Ok(log)
}

/// Where and why a text is refused that is no log of the script; none comes where it is one.
fn refusal_of(alloc: Global, script: &[u8], text: &[u8]) -> Result<Option<(u32, Reason)>, Fail> {
    let script = script_text::read(alloc, script)?;
    match read_log(alloc, &script, text) {
        Ok(_) => Ok(None),
        Err(ReadFault::Refused(refusal)) => Ok(Some((refusal.line, refusal.reason))),
        Err(ReadFault::Memory) => Err(Fail::from("memory")),
    }
}

/// Whether a log of these lines, with no sends, is read as one of the script.
fn are_read(alloc: Global, script: &[u8], lines: &[u8]) -> Result<bool, Fail> {
    let mut text = Vec::from_slice(alloc, b"log 1\n")?;
    text.extend_from_slice(lines)?;
    text.extend_from_slice(COUNTS)?;
    let refusal = refusal_of(alloc, script, &text)?;
    Ok(refusal.is_none())
}

/// Each of these is read, or isn't, as it is told here.
fn all_are_read(
    rt: &impl Abort,
    alloc: Global,
    script: &[u8],
    cases: &[(&[u8], bool)],
) -> Result<(), Fail> {
    for place in 0..cases.len() {
        let (lines, want) = cases[place];
        assert_eq!(rt; are_read(alloc, script, lines)?, want, "case {place}");
    }
    Ok(())
}

/// The entry at this place, from 0 on.
fn entry_at(log: &Log, place: usize) -> Option<Entry> {
    match log.entries().get(place) {
        Some(entry) => Some(entry.entry()),
        None => None,
    }
}

fn call_at(log: &Log, place: usize) -> Option<Call> {
    match entry_at(log, place) {
        Some(entry) => Some(entry.call),
        None => None,
    }
}

fn answer_at(log: &Log, place: usize) -> Option<Answer> {
    match entry_at(log, place) {
        Some(entry) => Some(entry.answer),
        None => None,
    }
}

fn who_at(log: &Log, place: usize) -> Option<Thread> {
    match entry_at(log, place) {
        Some(entry) => Some(entry.who),
        None => None,
    }
}

/// Whether the entry at this place kept a frame of these colours, or none where these are none.
fn has_frame(log: &Log, place: usize, colours: Option<&[u8]>) -> bool {
    match log.entries().get(place) {
        Some(entry) => entry.frame() == colours,
        None => false,
    }
}

#[test]
fn parts(rt: HostRuntime) -> Result<(), Fail> {
    let log = log_of(rt.alloc(), SCRIPT, WHOLE)?;
    let window = Call::NewWindow(
        0,
        1,
        0,
        268435456,
        8,
        -5,
        0,
        9223372036854775807,
        -9223372036854775808,
    );
    let done = Answer::Done {
        result: 3,
        cause: Cause::Proc,
    };
    let facts = [
        log.entries().len() == 16,
        call_at(&log, 0) == Some(Call::Register(0, 0, 0)),
        has_frame(&log, 0, None),
        call_at(&log, 1) == Some(window),
        answer_at(&log, 4) == Some(Answer::Refused(Code::Full)),
        answer_at(&log, 9) == Some(Answer::Left(SendId(1))),
        answer_at(&log, 10) == Some(done),
        who_at(&log, 14) == Some(Thread(15)),
    ];
    hold(&rt, &facts);
    Ok(())
}

#[test]
fn end_and_extra_lines(rt: HostRuntime) -> Result<(), Fail> {
    let log = log_of(rt.alloc(), SCRIPT, WHOLE)?;
    let extras = [
        Extra::Waits(Thread(1), Call::Get(0, 0, 0)),
        Extra::Waits(Thread(15), Call::SleepUntil(9)),
    ];
    let facts = [
        log.end() == End::Stuck,
        log.extras() == extras.as_slice(),
        log.sends().unfinished == 4294967295,
    ];
    hold(&rt, &facts);
    Ok(())
}

#[test]
fn ends(rt: HostRuntime) -> Result<(), Fail> {
    all_are_read(&rt, rt.alloc(), SCRIPT, &ENDS)
}

#[test]
fn lines(rt: HostRuntime) -> Result<(), Fail> {
    all_are_read(&rt, rt.alloc(), SCRIPT, &LINES)
}

#[test]
fn rows(rt: HostRuntime) -> Result<(), Fail> {
    all_are_read(&rt, rt.alloc(), SCRIPT, &ROWS)
}

#[test]
fn narrow_rows(rt: HostRuntime) -> Result<(), Fail> {
    all_are_read(&rt, rt.alloc(), NARROW, &NARROW_ROWS)
}

#[test]
fn texts(rt: HostRuntime) -> Result<(), Fail> {
    let alloc = rt.alloc();
    assert!(rt; refusal_of(alloc, SCRIPT, WHOLE)?.is_none());
    assert!(rt; refusal_of(alloc, SCRIPT, &WHOLE[1..])?.is_some());
    assert!(rt; refusal_of(alloc, SCRIPT, &WHOLE[..WHOLE.len() - 1])?.is_some());
    for place in 0..NO_LOGS.len() {
        assert!(rt;
            refusal_of(alloc, SCRIPT, NO_LOGS[place])?.is_some(),
            "text {place}"
        );
    }
    Ok(())
}

#[test]
fn printed_log(rt: HostRuntime) -> Result<(), Fail> {
    let log = log_of(rt.alloc(), SENDS, SENDS_LOG)?;
    let facts = [
        log.entries().len() == 46,
        log.end() == End::Done,
        log.extras().is_empty(),
    ];
    hold(&rt, &facts);
    Ok(())
}

/// The colours of the first frame, in which each digit stands.
const FIRST: &[u8] =
    b"\x00\x01\x02\x03\x04\x05\x06\x07\x08\x09\x0a\x0b\x0c\x0d\x0e\x0f\x0e\x0e\x0e\x0e\x0e\x0e\x0e\x0e\x01\x00\x00\x00\x00\x00\x00\x00";

/// The colours of the second one.
const SECOND: &[u8] =
    b"\x00\x00\x00\x00\x00\x00\x00\x00\x00\x00\x00\x00\x00\x00\x00\x0f\x0f\x00\x00\x00\x00\x00\x00\x00\x00\x00\x00\x00\x00\x00\x00\x00";

#[test]
fn frames(rt: HostRuntime) -> Result<(), Fail> {
    let log = log_of(rt.alloc(), SCRIPT, FRAMES)?;
    let facts = [
        log.entries().len() == 3,
        answer_at(&log, 0) == Some(Answer::Snap(1)),
        has_frame(&log, 0, Some(FIRST)),
        has_frame(&log, 1, None),
        has_frame(&log, 2, Some(SECOND)),
    ];
    hold(&rt, &facts);
    Ok(())
}

#[test]
fn refusals(rt: HostRuntime) -> Result<(), Fail> {
    for place in 0..REFUSALS.len() {
        let (text, line, reason) = REFUSALS[place];
        let told = refusal_of(rt.alloc(), SCRIPT, text)?;
        assert_eq!(rt; told, Some((line, reason)), "text {place}");
    }
    Ok(())
}

//! The messages that have names.

ghost use Rattle.std.specs.Prelude.{◌≡◌};
ghost use Rattle.name_table.specs.Messages.{message_rows};

use crate::table::{NameTable, Row};

/// The messages that have names, with their numbers (Microsoft, Windows and Messages).
static MESSAGES: [Row; 39] = [
    Row {
        name: b"WM_NULL",
        number: 0,
    },
    Row {
        name: b"WM_CREATE",
        number: 1,
    },
    Row {
        name: b"WM_DESTROY",
        number: 2,
    },
    Row {
        name: b"WM_MOVE",
        number: 3,
    },
    Row {
        name: b"WM_SIZE",
        number: 5,
    },
    Row {
        name: b"WM_ACTIVATE",
        number: 6,
    },
    Row {
        name: b"WM_SETFOCUS",
        number: 7,
    },
    Row {
        name: b"WM_KILLFOCUS",
        number: 8,
    },
    Row {
        name: b"WM_ENABLE",
        number: 10,
    },
    Row {
        name: b"WM_PAINT",
        number: 15,
    },
    Row {
        name: b"WM_CLOSE",
        number: 16,
    },
    Row {
        name: b"WM_QUIT",
        number: 18,
    },
    Row {
        name: b"WM_ERASEBKGND",
        number: 20,
    },
    Row {
        name: b"WM_SHOWWINDOW",
        number: 24,
    },
    Row {
        name: b"WM_CANCELMODE",
        number: 31,
    },
    Row {
        name: b"WM_NCCREATE",
        number: 129,
    },
    Row {
        name: b"WM_NCDESTROY",
        number: 130,
    },
    Row {
        name: b"WM_KEYDOWN",
        number: 256,
    },
    Row {
        name: b"WM_KEYUP",
        number: 257,
    },
    Row {
        name: b"WM_CHAR",
        number: 258,
    },
    Row {
        name: b"WM_COMMAND",
        number: 273,
    },
    Row {
        name: b"WM_TIMER",
        number: 275,
    },
    Row {
        name: b"WM_MOUSEMOVE",
        number: 512,
    },
    Row {
        name: b"WM_LBUTTONDOWN",
        number: 513,
    },
    Row {
        name: b"WM_LBUTTONUP",
        number: 514,
    },
    Row {
        name: b"WM_RBUTTONDOWN",
        number: 516,
    },
    Row {
        name: b"WM_RBUTTONUP",
        number: 517,
    },
    Row {
        name: b"WM_CAPTURECHANGED",
        number: 533,
    },
    Row {
        name: b"WM_RENDERFORMAT",
        number: 773,
    },
    Row {
        name: b"WM_DESTROYCLIPBOARD",
        number: 775,
    },
    Row {
        name: b"WM_DDE_INITIATE",
        number: 992,
    },
    Row {
        name: b"WM_DDE_TERMINATE",
        number: 993,
    },
    Row {
        name: b"WM_DDE_ACK",
        number: 996,
    },
    Row {
        name: b"WM_DDE_DATA",
        number: 997,
    },
    Row {
        name: b"WM_DDE_REQUEST",
        number: 998,
    },
    Row {
        name: b"WM_DDE_POKE",
        number: 999,
    },
    Row {
        name: b"WM_DDE_EXECUTE",
        number: 1000,
    },
    Row {
        name: b"WM_USER",
        number: 1024,
    },
    Row {
        name: b"WM_APP",
        number: 32768,
    },
];

/// The table of the messages that have names, with their numbers from 0 to 65535 (Microsoft, Windows
/// and Messages).
pub fn messages() -> NameTable
    ensures { result ≡ message_rows }
{
    match NameTable::new(&MESSAGES) {
        Ok(table) => table,
        Err(_) => unreachable!(),
    }
}

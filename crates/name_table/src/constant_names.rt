//! The constants that have names.

ghost use Rattle.std.specs.Prelude.{◌≡◌, slice_get};
ghost use Rattle.name_table.specs.Constants.{constant_rows, constant_values};

use crate::table::{NameTable, Row};

/// The constants that have names, with their ordinals from 0.
static CONSTANTS: [Row; 31] = [
    Row {
        name: b"WS_CHILD",
        number: 0,
    },
    Row {
        name: b"WS_POPUP",
        number: 1,
    },
    Row {
        name: b"WS_VISIBLE",
        number: 2,
    },
    Row {
        name: b"WS_DISABLED",
        number: 3,
    },
    Row {
        name: b"WS_EX_TOPMOST",
        number: 4,
    },
    Row {
        name: b"HWND_TOP",
        number: 5,
    },
    Row {
        name: b"HWND_BOTTOM",
        number: 6,
    },
    Row {
        name: b"HWND_TOPMOST",
        number: 7,
    },
    Row {
        name: b"HWND_NOTOPMOST",
        number: 8,
    },
    Row {
        name: b"SWP_NOSIZE",
        number: 9,
    },
    Row {
        name: b"SWP_NOMOVE",
        number: 10,
    },
    Row {
        name: b"SWP_NOZORDER",
        number: 11,
    },
    Row {
        name: b"SWP_NOACTIVATE",
        number: 12,
    },
    Row {
        name: b"SWP_SHOWWINDOW",
        number: 13,
    },
    Row {
        name: b"SWP_HIDEWINDOW",
        number: 14,
    },
    Row {
        name: b"SWP_NOCOPYBITS",
        number: 15,
    },
    Row {
        name: b"PM_NOREMOVE",
        number: 16,
    },
    Row {
        name: b"PM_REMOVE",
        number: 17,
    },
    Row {
        name: b"PM_NOYIELD",
        number: 18,
    },
    Row {
        name: b"SMTO_NORMAL",
        number: 19,
    },
    Row {
        name: b"SMTO_BLOCK",
        number: 20,
    },
    Row {
        name: b"WA_INACTIVE",
        number: 21,
    },
    Row {
        name: b"WA_ACTIVE",
        number: 22,
    },
    Row {
        name: b"WA_CLICKACTIVE",
        number: 23,
    },
    Row {
        name: b"QS_KEY",
        number: 24,
    },
    Row {
        name: b"QS_MOUSEMOVE",
        number: 25,
    },
    Row {
        name: b"QS_MOUSEBUTTON",
        number: 26,
    },
    Row {
        name: b"QS_POSTMESSAGE",
        number: 27,
    },
    Row {
        name: b"QS_TIMER",
        number: 28,
    },
    Row {
        name: b"QS_PAINT",
        number: 29,
    },
    Row {
        name: b"QS_SENDMESSAGE",
        number: 30,
    },
];

/// The values of the constants by ordinal, modulo 2 to the 64th.
static VALUES: [u64; 31] = [
    1073741824, // WS_CHILD
    2147483648, // WS_POPUP
    268435456, // WS_VISIBLE
    134217728, // WS_DISABLED
    8, // WS_EX_TOPMOST
    0, // HWND_TOP
    1, // HWND_BOTTOM
    18446744073709551615, // HWND_TOPMOST
    18446744073709551614, // HWND_NOTOPMOST
    1, // SWP_NOSIZE
    2, // SWP_NOMOVE
    4, // SWP_NOZORDER
    16, // SWP_NOACTIVATE
    64, // SWP_SHOWWINDOW
    128, // SWP_HIDEWINDOW
    256, // SWP_NOCOPYBITS
    0, // PM_NOREMOVE
    1, // PM_REMOVE
    2, // PM_NOYIELD
    0, // SMTO_NORMAL
    1, // SMTO_BLOCK
    0, // WA_INACTIVE
    1, // WA_ACTIVE
    2, // WA_CLICKACTIVE
    1, // QS_KEY
    2, // QS_MOUSEMOVE
    4, // QS_MOUSEBUTTON
    8, // QS_POSTMESSAGE
    16, // QS_TIMER
    32, // QS_PAINT
    64, // QS_SENDMESSAGE
];

/// The table of the constants that have names, each with its ordinal, from 0. Two constants may have
/// one value, so the value stands apart (`constant_value`).
pub fn constants() -> NameTable
    ensures { result ≡ constant_rows }
{
    match NameTable::new(&CONSTANTS) {
        Ok(table) => table,
        Err(_) => unreachable!(),
    }
}

/// The value at a place.
fn value_at(values: &[u64], place: u32) -> Option<u64>
    ensures { result ≡ slice_get values.now place }
{
    values.get(place as usize).copied()
}

/// The value of the constant with this ordinal, modulo 2 to the 64th (Microsoft, Windows and Messages),
/// so that minus one is 18446744073709551615. None comes exactly where no constant has the ordinal.
pub fn constant_value(ordinal: u32) -> Option<u64>
    ensures { result ≡ slice_get constant_values ordinal }
{
    value_at(&VALUES, ordinal)
}

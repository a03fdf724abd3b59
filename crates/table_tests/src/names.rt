//! Worked examples of name tables.

use name_table::*;

static SHARED_NAME: [Row; 3] = [
    Row {
        name: b"a",
        number: 1,
    },
    Row {
        name: b"b",
        number: 2,
    },
    Row {
        name: b"a",
        number: 3,
    },
];

static SHARED_NUMBER: [Row; 4] = [
    Row {
        name: b"a",
        number: 1,
    },
    Row {
        name: b"b",
        number: 2,
    },
    Row {
        name: b"c",
        number: 2,
    },
    Row {
        name: b"a",
        number: 1,
    },
];

#[test]
fn first_repeat_is_told(rt: HostRuntime) {
    let name = NameTable::new(&SHARED_NAME).err();
    assert_eq!(rt;
        name,
        Some(Repeat {
            first: 0,
            second: 2
        })
    );
    let number = NameTable::new(&SHARED_NUMBER).err();
    assert_eq!(rt;
        number,
        Some(Repeat {
            first: 1,
            second: 2
        })
    );
}

#[test]
fn every_message_is_found_both_ways(rt: HostRuntime) {
    let table = messages();
    for number in 0..65536 {
        if let Some(name) = table.name_of(number) {
            assert!(rt; table.number_of(name) == Some(number), "at {number}");
        }
    }
    let named = (0..65536u32).filter(|number| table.name_of(*number).is_some());
    assert!(rt; named.count() == 39);
    assert!(rt; table.number_of(b"WM_DDE_EXECUTE") == Some(1000));
    assert!(rt; table.number_of(b"WM_PINT") == None);
}

#[test]
fn every_constant_is_found_both_ways(rt: HostRuntime) {
    let table = constants();
    for ordinal in 0..31 {
        let name = table.name_of(ordinal).unwrap_or(b"");
        assert!(rt; table.number_of(name) == Some(ordinal), "at {ordinal}");
    }
    assert!(rt; table.name_of(31) == None);
}

/// The value of a constant by its name.
fn value_of(name: &[u8]) -> Option<u64> {
    constant_value(constants().number_of(name)?)
}

#[test]
fn constants_have_their_values(rt: HostRuntime) {
    for (name, value) in [
        (b"WS_CHILD".as_slice(), Some(1073741824)),
        (b"HWND_TOPMOST", Some(18446744073709551615)),
        (b"HWND_NOTOPMOST", Some(18446744073709551614)),
        (b"SWP_NOCOPYBITS", Some(256)),
        (b"PM_NOREMOVE", Some(0)),
        (b"WA_CLICKACTIVE", Some(2)),
        (b"QS_SENDMESSAGE", Some(64)),
        (b"QS_PAINTS", None),
    ] {
        assert_eq!(rt; value_of(name), value);
    }
    assert!(rt; constant_value(31) == None);
}

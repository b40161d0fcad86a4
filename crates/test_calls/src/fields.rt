//! Fields and records of a file of tables.
use crate::assertions::{assert_same, assert_same_at};
use csv_fields::{
    FieldFault, clock_time, fleet_name, flight_name, records, station_code, whole, yes_no,
};
use entries::NoMemory;
use std::alloc::Global;
use std::test::Fail;

/// A field, and the kind of its fault as a station's code and as a name; 0 is none.
const NAMES: &[(&str, u8, u8)] = &[
    ("", 1, 1),
    ("AAA", 0, 0),
    ("AZM", 0, 0),
    ("AB", 2, 0),
    ("ABCD", 2, 0),
    ("A1B", 3, 0),
    ("AbC", 3, 3),
    ("A@[", 3, 3),
    ("ab", 2, 3),
    ("0", 2, 0),
    ("FL123456", 2, 0),
    ("FL1234567", 2, 2),
    ("a23456789", 2, 2),
    ("A B", 3, 3),
    ("F/:", 3, 3),
];

/// The kind of a fault; 0 where there is none.
fn kind(answer: Result<(), FieldFault>) -> u8 {
    match answer {
        Ok(()) => 0,
        Err(fault) => fault.kind,
    }
}

#[test]
fn codes_and_names(rt: HostRuntime) {
    for (field, code, name) in NAMES {
        let bytes = field.as_bytes();
        let kinds = (
            kind(station_code(bytes)),
            kind(flight_name(bytes)),
            kind(fleet_name(bytes)),
        );
        assert_same_at(&rt, field, kinds, (*code, *name, *name));
    }
}

/// A field, and the number that it writes.
const NUMBERS: &[(&str, i128)] = &[
    ("0", 0),
    ("-0", 0),
    ("7", 7),
    ("0007", 7),
    ("-00012", -12),
    ("1000000000000", 1_000_000_000_000),
    ("-1000000000000", -1_000_000_000_000),
    ("00000000000000000020", 20),
    ("99999999999999999999", 99_999_999_999_999_999_999),
    ("-99999999999999999999", -99_999_999_999_999_999_999),
];

#[test]
fn numbers(rt: HostRuntime) {
    for (field, number) in NUMBERS {
        let read = whole(field.as_bytes(), *number, *number);
        assert_same_at(&rt, field, read, Ok(*number));
    }
}

/// A field, and the kind of its fault as a number from -10 to 600.
const NO_NUMBERS: &[(&str, u8)] = &[
    ("", 1),
    ("abc", 2),
    ("-", 2),
    ("000000000000000000001", 2),
    ("x000000000000000000001", 2),
    ("1a", 3),
    ("--1", 3),
    ("+5", 3),
    ("1-", 3),
    (" 1", 3),
    ("9999a", 3),
    ("601", 4),
    ("-11", 4),
    ("99999999999999999999", 4),
];

#[test]
fn no_numbers(rt: HostRuntime) {
    for (field, kind) in NO_NUMBERS {
        let read = whole(field.as_bytes(), -10, 600);
        assert_same_at(&rt, field, read, Err(FieldFault { kind: *kind }));
    }
}

/// A field, and the minute of the day that it tells, or none.
const TIMES: &[(&str, Option<u16>)] = &[
    ("00:00", Some(0)),
    ("08:05", Some(485)),
    ("23:59", Some(1439)),
    ("24:00", None),
    ("12:60", None),
    ("", None),
    ("8:00", None),
    ("08:0", None),
    ("08:000", None),
    ("08.00", None),
    ("0a:00", None),
    ("08:-1", None),
];

#[test]
fn times(rt: HostRuntime) {
    for (field, minute) in TIMES {
        let wanted = minute.ok_or(FieldFault { kind: 5 });
        assert_same_at(&rt, field, clock_time(field.as_bytes()), wanted);
    }
}

/// A field, and the flag that it says, or none.
const FLAGS: &[(&str, Option<bool>)] = &[
    ("yes", Some(true)),
    ("no", Some(false)),
    ("", None),
    ("Yes", None),
    ("ye", None),
    ("yess", None),
    ("no ", None),
];

#[test]
fn flags(rt: HostRuntime) {
    for (field, flag) in FLAGS {
        let wanted = flag.ok_or(FieldFault { kind: 6 });
        assert_same_at(&rt, field, yes_no(field.as_bytes()), wanted);
    }
}

/// What is said of a fault of each kind.
const REASONS: &[(u8, &str)] = &[
    (1, "the field is empty"),
    (2, "the field has the wrong length"),
    (3, "the field has a byte that may not stand there"),
    (4, "the number is outside its range"),
    (5, "the field is no time HH:MM"),
    (6, "the field is neither yes nor no"),
];

#[test]
fn faults_say_what_is_wrong(rt: HostRuntime) -> Result<(), Fail> {
    for (kind, reason) in REASONS {
        let fault = FieldFault { kind: *kind };
        let said = fault.to_string(rt.alloc())?;
        assert_same(&rt, said.as_str(), *reason);
    }
    Ok(())
}

/// The bytes of a file, and its records: each field in brackets, each record with a semicolon at its end.
const RECORDS: &[(&[u8], &[u8])] = &[
    (b"", b""),
    (b"\n\r\n\r\r\n", b""),
    (b"code,extra\nAAA,0\n", b"[code][extra];[AAA][0];"),
    (b"a,b\r\n\r\n\nc\nd,e,f", b"[a][b];[c];[d][e][f];"),
    (b"\"x,\"\"y\r\n\",z\n\"w\"", b"[x,\"y\r\n][z];[w];"),
    (b" a , b\n,\n\"\"\n", b"[ a ][ b];[][];[];"),
    (b"\xEF\xBB\xBFa\nb", b"[a];[b];"),
    (b"\xEF\xBB\xBF\xEF\xBB\xBFa", b"[\xEF\xBB\xBFa];"),
    (b"a\xFF\n\xEF\xBB\xBF", b"[a\xFF];[\xEF\xBB\xBF];"),
];

/// The records of a file in one text.
fn shown(alloc: Global, bytes: &[u8]) -> Result<Vec<u8>, NoMemory> {
    let mut text = Vec::new(alloc);
    for row in &records(alloc, bytes)? {
        for field in row {
            text.push(b'[')?;
            text.extend_from_slice(field.as_slice())?;
            text.push(b']')?;
        }
        text.push(b';')?;
    }
    Ok(text)
}

#[test]
fn records_of_a_file(rt: HostRuntime) -> Result<(), Fail> {
    for (bytes, wanted) in RECORDS {
        let text = shown(rt.alloc(), bytes)?;
        assert_same(&rt, text.as_slice(), *wanted);
    }
    Ok(())
}

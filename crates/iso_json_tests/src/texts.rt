//! Messages whose bytes, JSON and field lines are written out by hand.

use iso_fakes::check_of;
use iso_json::*;
use iso_table::{NoMemory, Table};
use iso_wire::{Message, unpack};
use std::alloc::Global;
use std::test::*;

/// A message in each of its forms, in clear.
struct Case {
    name: &'static str,
    bytes: &'static [u8],
    json: &'static [u8],
    lines: &'static [u8],
    masked: &'static [u8],
}

const CASES: &[Case] = &[
    Case {
        name: "echo",
        bytes: b"0800822000000000000004000000000000000102030405000001301",
        json: b"{\"mti\":\"0800\",\"elements\":{\"7\":\"0102030405\",\"11\":\"000001\",\"70\":\"301\"}}",
        lines: b"MTI=0800 1987 NetworkManagement Request Acquirer\nDE007=0102030405\nDE011=000001\nDE070=301\n",
        masked: b"{\"mti\":\"0800\",\"elements\":{\"7\":\"0102030405\",\"11\":\"000001\",\"70\":\"301\"}}",
    },
    Case {
        name: "payment",
        bytes: b"0200722000010000800016411111111111111100000000000000100001020304050000070512345840",
        json: b"{\"mti\":\"0200\",\"elements\":{\"2\":\"4111111111111111\",\"3\":\"000000\",\"4\":\"000000001000\",\
\"7\":\"0102030405\",\"11\":\"000007\",\"32\":\"12345\",\"49\":\"840\"}}",
        lines: b"MTI=0200 1987 Financial Request Acquirer\nDE002=4111111111111111\nDE003=000000\nDE004=000000001000\n\
DE007=0102030405\nDE011=000007\nDE032=12345\nDE049=840\n",
        masked: b"{\"mti\":\"0200\",\"elements\":{\"2\":\"411111******1111\",\"3\":\"000000\",\"4\":\"000000001000\",\
\"7\":\"0102030405\",\"11\":\"000007\",\"32\":\"12345\",\"49\":\"840\"}}",
    },
    Case {
        name: "a pad, a quote, a backslash and a PIN",
        bytes: b"08000000000000901000TERM1   05a\"b\\c0123456789ABCDEF",
        json: b"{\"mti\":\"0800\",\"elements\":{\"41\":\"TERM1\",\"44\":\"a\\\"b\\\\c\",\"52\":\"0123456789ABCDEF\"}}",
        lines: b"MTI=0800 1987 NetworkManagement Request Acquirer\nDE041=TERM1\nDE044=a\"b\\c\nDE052=0123456789ABCDEF\n",
        masked: b"{\"mti\":\"0800\",\"elements\":{\"41\":\"TERM1\",\"44\":\"a\\\"b\\\\c\",\"52\":\"********\"}}",
    },
    Case {
        name: "no elements",
        bytes: b"08000000000000000000",
        json: b"{\"mti\":\"0800\",\"elements\":{}}",
        lines: b"MTI=0800 1987 NetworkManagement Request Acquirer\n",
        masked: b"{\"mti\":\"0800\",\"elements\":{}}",
    },
];

/// Other texts of the echo and of the message without elements, by the bytes that they encode to.
const OTHERS: &[(&str, &[u8], &[u8])] = &[
    (
        "members in another order, spaces and zeros",
        b" { \"elements\" : { \"070\":\"301\", \"11\":\"000001\",\n\"007\":\"01020304\\u00305\" } , \"mti\":\"0800\" } \n",
        b"0800822000000000000004000000000000000102030405000001301",
    ),
    (
        "lines without words, zeros and a line end",
        b"70=301\nDE11=000001\nMTI=0800\n007=0102030405",
        b"0800822000000000000004000000000000000102030405000001301",
    ),
    (
        "the bytes used",
        b"MTI=0800 1987 NetworkManagement Request Acquirer\nUSED=20/20\n\n",
        b"08000000000000000000",
    ),
    (
        "hexadecimal digits in lower case",
        b"MTI=0800\n52=0123456789abcdef\n",
        b"080000000000000010000123456789ABCDEF",
    ),
];

/// The JSON of a message, or that memory ran out.
fn json_of(
    alloc: Global,
    table: &Table,
    message: &Message,
    clear: bool,
) -> Result<Vec<u8>, NoMemory> {
    let mut out = Vec::new(alloc);
    append_json(table, message, clear, &mut out)?;
    Ok(out)
}

/// The lines of a message, or that memory ran out.
fn lines_of(alloc: Global, table: &Table, message: &Message) -> Result<Vec<u8>, NoMemory> {
    let mut out = Vec::new(alloc);
    append_fields(alloc, table, message, true, &mut out)?;
    Ok(out)
}

/// Whether those are the bytes.
fn is_so(written: Result<Vec<u8>, NoMemory>, want: &[u8]) -> bool {
    match written {
        Ok(written) => written.as_slice() == want,
        Err(_) => false,
    }
}

/// Whether a text encodes to the bytes.
fn is_encoded(alloc: Global, table: &Table, text: &[u8], want: &[u8]) -> bool {
    let mut out = Vec::new(alloc);
    let done = match text {
        [b'{' | b' ', ..] => encode_json(alloc, table, text, &mut out),
        _ => encode_fields(alloc, table, text, &mut out),
    };
    done.is_ok() && out.as_slice() == want
}

/// That a message is written so and read so.
fn check_case(alloc: Global, table: &Table, case: &Case) -> Result<(), Fail> {
    let Ok((message, _)) = unpack(alloc, table, case.bytes) else {
        return check_of(false, case.name, "its bytes");
    };
    let is_clear = is_so(json_of(alloc, table, &message, true), case.json);
    check_of(is_clear, case.name, "in clear")?;
    let is_masked = is_so(json_of(alloc, table, &message, false), case.masked);
    check_of(is_masked, case.name, "masked")?;
    let is_lines = is_so(lines_of(alloc, table, &message), case.lines);
    check_of(is_lines, case.name, "as lines")?;
    let is_read = is_encoded(alloc, table, case.json, case.bytes);
    check_of(is_read, case.name, "from JSON")?;
    let is_read = is_encoded(alloc, table, case.lines, case.bytes);
    check_of(is_read, case.name, "from lines")
}

/// The table of the 1987 edition in ASCII.
pub(super) fn table87(alloc: Global) -> Result<Table, Fail> {
    match Table::ascii87(alloc) {
        Ok(table) => Ok(table),
        Err(_) => Err(Fail::new("a table")),
    }
}

#[test]
fn messages_are_written_and_read(rt: HostRuntime) -> Result<(), Fail> {
    let table = table87(rt.alloc())?;
    for case in CASES {
        check_case(rt.alloc(), &table, case)?;
    }
    Ok(())
}

#[test]
fn other_texts_are_read(rt: HostRuntime) -> Result<(), Fail> {
    let table = table87(rt.alloc())?;
    for (name, text, want) in OTHERS {
        check_of(is_encoded(rt.alloc(), &table, text, want), *name, "encoded")?;
    }
    Ok(())
}

#[test]
fn a_stream_of_lines_is_split(_rt: HostRuntime) -> Result<(), Fail> {
    let (first, rest) = split_fields(b"MTI=0800\nUSED=20/20\n\nMTI=0810\n");
    check_of(
        first == b"MTI=0800\nUSED=20/20\n".as_slice(),
        "two messages",
        "the first",
    )?;
    check_of(
        rest == b"\nMTI=0810\n".as_slice(),
        "two messages",
        "the rest",
    )
}

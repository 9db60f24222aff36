//! Texts that are refused, with all that is told of them.

use super::texts::table87;
use iso_fakes::check_of;
use iso_json::*;
use iso_table::Table;
use std::alloc::Global;
use std::test::*;

/// Texts of JSON, each with the lines that tell what is wrong.
const JSON: &[(&str, &[u8], &[&str])] = &[
    (
        "no JSON",
        b"{\"mti\":\"0200\",\n \"elements\":{,}}",
        &["line 2, column 14: the text is no JSON from here on: mend what stands here"],
    ),
    (
        "no object",
        b"[]",
        &["the text: the JSON is no object: write one with the members mti and elements"],
    ),
    (
        "an empty object",
        b"{}",
        &[
            "the text: the message type is missing: add mti with four digits",
            "the text: the elements are missing: add the member elements, an empty object if there are none",
        ],
    ),
    (
        "other members",
        b"{\"mti\":\"0800\",\"elements\":{},\"mti\":800,\"more\":1}",
        &[
            "member 3: it stands in the text a second time: take one of both out",
            "member 4: a message has no such member: take it out, mti and elements are all",
            "the text: the message type is no text of four digits: write it as 0200",
        ],
    ),
    (
        "another version",
        b"{\"mti\":\"1800\",\"elements\":[]}",
        &[
            "the text: the message type is of another version than the table: change its first digit",
            "the text: the elements are no object: write one with a member for each element",
        ],
    ),
    (
        "elements of all kinds",
        b"{\"mti\":\"0200\",\"elements\":{\"2\":\"411111******1111\",\"3\":0,\"4\":\"12\",\"65\":\"1\",\"11\":\"00000A\",\
\"11\":\"000001\",\"41\":\"TERM1   \",\"52\":\"123\",\"64\":\"0123456789ABCDEG\",\"39\":\"00\"}}",
        &[
            "element 2, member 1 of elements: the value is masked by stars: write the value itself",
            "element 3, member 2 of elements: the value is no text: write it between quotes",
            "element 4, member 3 of elements: WrongLength: its row takes no value of this length: make it as long as the table says",
            "member 4 of elements: no element has this number: write one from 2 to 128, but for 65",
            "element 11, member 5 of elements: NotInClass: a character isn't in the class of its row: write only characters of the class",
            "element 11, member 6 of elements: it stands in the text a second time: take one of both out",
            "element 41, member 7 of elements: PadEnd: the pad stands at the value's padded end: leave the pads out, they are written by themselves",
            "element 52, member 8 of elements: the number of hexadecimal digits is odd: write two for each byte",
            "element 64, member 9 of elements: a character is no hexadecimal digit: write the bytes with 0 to 9 and A to F",
        ],
    ),
];

/// Field lines, each with the lines that tell what is wrong.
const LINES: &[(&str, &[u8], &[&str])] = &[
    (
        "no type",
        b"DE039=00\n",
        &["the text: the message type is missing: add mti with four digits"],
    ),
    (
        "other words",
        b"MTI=0200 1987 Financial Request Issuer\n",
        &[
            "line 1: the words behind the message type are others than its digits have: leave them out",
        ],
    ),
    (
        "lines of all kinds",
        b"MTI=0200\nMTI=0200\nhello\nDE001=1\nDE2A=1\nDE035=****\nDE039=00\n39=00\nUSED=1/1\nDE003=000000\n",
        &[
            "line 2: it stands in the text a second time: take one of both out",
            "line 3: the line is none of a message: write MTI=0200 or DE002=value",
            "line 4: no element has this number: write one from 2 to 128, but for 65",
            "line 5: the line is none of a message: write MTI=0200 or DE002=value",
            "element 35, line 6: the value is masked by stars: write the value itself",
            "element 39, line 8: it stands in the text a second time: take one of both out",
            "line 10: it stands behind the end of the message: take it out, or read it as a message of its own",
        ],
    ),
];

/// Whether that is told of the complaint.
fn is_told(alloc: Global, complaint: &Complaint, want: &str) -> bool {
    match format!(in alloc; "{complaint}") {
        Ok(text) => text.as_str() == want,
        Err(_) => false,
    }
}

/// That these are the complaints.
fn check_complaints(
    alloc: Global,
    complaints: &[Complaint],
    name: &str,
    want: &[&str],
) -> Result<(), Fail> {
    check_of(complaints.len() == want.len(), name, "how many complaints")?;
    for (complaint, want) in complaints.iter().zip(want) {
        check_of(is_told(alloc, complaint, *want), name, *want)?;
    }
    Ok(())
}

/// That the text is refused with these complaints, and nothing is written.
fn check_refused(
    alloc: Global,
    done: Result<(), Refusal>,
    out: &[u8],
    name: &str,
    want: &[&str],
) -> Result<(), Fail> {
    check_of(out == b"before".as_slice(), name, "what was written before")?;
    match done {
        Err(Refusal::Complaints(complaints)) => check_complaints(alloc, &complaints, name, want),
        Err(Refusal::Memory) => check_of(false, name, "no memory"),
        Ok(()) => check_of(false, name, "refused"),
    }
}

/// That texts of JSON are refused so.
fn check_json(alloc: Global, table: &Table) -> Result<(), Fail> {
    for (name, text, want) in JSON {
        let Ok(mut out) = Vec::from_slice(alloc, b"before") else {
            return check_of(false, *name, "memory");
        };
        let done = encode_json(alloc, table, text, &mut out);
        check_refused(alloc, done, &out, *name, want)?;
    }
    Ok(())
}

/// That field lines are refused so.
fn check_lines(alloc: Global, table: &Table) -> Result<(), Fail> {
    for (name, text, want) in LINES {
        let Ok(mut out) = Vec::from_slice(alloc, b"before") else {
            return check_of(false, *name, "memory");
        };
        let done = encode_fields(alloc, table, text, &mut out);
        check_refused(alloc, done, &out, *name, want)?;
    }
    Ok(())
}

#[test]
fn all_that_is_wrong_is_told(rt: HostRuntime) -> Result<(), Fail> {
    let table = table87(rt.alloc())?;
    check_json(rt.alloc(), &table)?;
    check_lines(rt.alloc(), &table)
}

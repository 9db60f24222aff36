//! The host.

use crate::ended::Ended;
use crate::known::{GRANTED, PURCHASE, balances, issuer};
use iso_host::{Report, ServeFault, Std, serve};
use iso_issuer::Issuer;
use iso_table::Table;
use iso_wire::Header;
use std::alloc::Global;

/// The frame of a body of 82 or of 90 bytes.
fn frame_bytes(alloc: Global, bodies: &[(&[u8], &[u8])]) -> Option<Vec<u8>> {
    let mut bytes = Vec::with_capacity(alloc, 200).ok()?;
    for (header, body) in bodies {
        bytes.extend_from_slice(header).ok()?;
        bytes.extend_from_slice(body).ok()?;
    }
    Some(bytes)
}

/// Serves the input, which a read gives whole; `written` has room for the whole output.
fn serve_input(
    alloc: Global,
    table: &Table,
    issuer: &mut Issuer,
    input: &[u8],
    written: &mut Vec<u8>,
) -> Option<Result<Report, ServeFault>> {
    table.host_ready().ok()?;
    let mut reader = Std::new(input);
    let mut writer = Std::new(written);
    Some(serve(
        alloc,
        table,
        Header::Ascii4,
        issuer,
        &mut reader,
        &mut writer,
        100,
    ))
}

/// Whether what is written is whole or the front of the output, and each answer in it was entered first.
fn is_as_written(issuer: &Issuer, written: &[u8], output: &[u8]) -> bool {
    let posted = match issuer.len() {
        0 => balances(issuer) == Some((5000, 5000)) && written.is_empty(),
        1 => balances(issuer) == Some((4000, 4000)),
        _ => false,
    };
    posted && output.starts_with(written)
}

/// Whether both frames were answered, and one order is entered.
fn is_whole(told: &Option<Result<Report, ServeFault>>, issuer: &Issuer) -> bool {
    let is_told = matches!(told, Some(Ok(report)) if (report.frames, report.answered) == (2, 2));
    is_told && issuer.len() == 1 && balances(issuer) == Some((4000, 4000))
}

/// Serves the input into no output: whether both frames were answered, and the output is whole.
fn serves_again(
    alloc: Global,
    table: &Table,
    issuer: &mut Issuer,
    input: &[u8],
    written: &mut Vec<u8>,
) -> bool {
    written.clear();
    let told = serve_input(alloc, table, issuer, input, written);
    is_whole(&told, issuer)
}

/// Serves a purchase and its repeat, and serves them again where memory ran out: what was posted is posted once.
fn serves_frames(alloc: Global, table: &Table, input: &[u8], output: &[u8]) -> Ended {
    let (Some(mut issuer), Some(mut written)) = (issuer(alloc), frame_bytes(alloc, &[])) else {
        return Ended::Unready;
    };
    let told = serve_input(alloc, table, &mut issuer, input, &mut written);
    if told != Some(Err(ServeFault::Memory)) {
        return Ended::of(
            false,
            is_whole(&told, &issuer) && written.as_slice() == output,
        );
    }
    let is_front = is_as_written(&issuer, &written, output);
    let is_whole = serves_again(alloc, table, &mut issuer, input, &mut written);
    Ended::of(true, is_front && is_whole && written.as_slice() == output)
}

/// Serves an input of a purchase and its repeat.
fn serves(alloc: Global, input: Option<Vec<u8>>) -> Ended {
    let output = frame_bytes(alloc, &[(b"0090", GRANTED), (b"0090", GRANTED)]);
    match (Table::ascii87(alloc), input, output) {
        (Ok(table), Some(input), Some(output)) => serves_frames(alloc, &table, &input, &output),
        _ => Ended::Unready,
    }
}

/// The header of a frame of 5,092 bytes, and the front of its body: the purchase, whose bitmap has the elements 55 to 59 too.
const LONG_FRONT: &[u8] =
    b"5092020072200001000083E016411111111111111100000000000000100001020304050000070512345840";

/// Adds the value of an element: 999 characters behind their length.
fn add_longest(bytes: &mut Vec<u8>) -> Option<()> {
    bytes.extend_from_slice(b"999").ok()?;
    bytes.extend_from_slice(&[b'7'; 999]).ok()
}

/// The frame of the purchase, and that of its repeat with five of the longest elements, which is longer than what the host
/// holds at a time.
fn long_input(alloc: Global) -> Option<Vec<u8>> {
    let mut bytes = Vec::with_capacity(alloc, 5200).ok()?;
    bytes.extend_from_slice(b"0082").ok()?;
    bytes.extend_from_slice(PURCHASE).ok()?;
    bytes.extend_from_slice(LONG_FRONT).ok()?;
    for _ in 0..5 {
        add_longest(&mut bytes)?;
    }
    Some(bytes)
}

/// These calls by name, and how each ended.
pub fn rows(alloc: Global) -> [(&'static str, Ended); 2] {
    let two = frame_bytes(alloc, &[(b"0082", PURCHASE), (b"0082", PURCHASE)]);
    [
        ("serve", serves(alloc, two)),
        ("serve", serves(alloc, long_input(alloc))),
    ]
}

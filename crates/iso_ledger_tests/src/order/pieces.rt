//! Messages come in pieces, as a socket gives them, and each is taken when its last byte has come.
use iso_table::Table;
use iso_wire::{Fed, Message, UnpackCause, UnpackFault, Unpacker};
use std::alloc::Global;
use std::io::{Cursor, Read};
use std::test::*;

/// Takes a piece. It may end inside a message, and it may have several.
fn take_piece(
    alloc: Global,
    unpacker: &mut Unpacker<'_>,
    piece: &[u8],
    messages: &mut Vec<Message>,
) -> Result<(), Fail> {
    let mut rest = piece;
    for _ in 0..piece.len() {
        match unpacker.feed(alloc, rest)? {
            // the unpacker keeps what there is of the message: the next piece goes on from here
            Fed::More => return Ok(()),
            Fed::Done { message, used } => {
                rest = &rest[used..];
                messages.push(message)?;
            }
        }
    }
    Ok(())
}

/// The messages of a socket up to its end, read by a buffer that is shorter than a message.
fn read_messages<R: Read + Drop>(
    alloc: Global,
    table: &Table,
    mut socket: R,
) -> Result<Vec<Message>, Fail> {
    let mut unpacker = Unpacker::new(alloc, table);
    let mut messages = Vec::new(alloc);
    let mut buffer = [0; 32];
    for _ in 0..u64::MAX {
        let count = socket.read(&mut buffer)?;
        if count == 0 {
            break;
        }
        take_piece(alloc, &mut unpacker, &buffer[..count], &mut messages)?;
    }
    Ok(messages)
}

#[test]
fn messages_come_in_pieces(rt: HostRuntime) -> Result<(), Fail> {
    let alloc = rt.alloc();
    let table = Table::ascii87(alloc)?;

    // two echo tests, and the beginning of a third one
    let bytes = b"0800822000000000000004000000000000000102030405000001301\
0800822000000000000004000000000000000102030406000002301\
08008220000000";
    let socket = Cursor::new(Vec::from_slice(alloc, bytes)?);
    let messages = read_messages(alloc, &table, socket)?;
    assert!(rt; messages.len() == 2);
    assert!(rt; messages[0].get(11) == Some(b"000001".as_slice()));
    assert!(rt; messages[1].get(11) == Some(b"000002".as_slice()));
    Ok(())
}

/// Where the pieces stop being a message, and why.
fn fault_of(alloc: Global, unpacker: &mut Unpacker<'_>, piece: &[u8]) -> Option<UnpackFault> {
    unpacker.feed(alloc, piece).err()
}

/// Whether the piece is a message of that type, and no more.
fn is_message(alloc: Global, unpacker: &mut Unpacker<'_>, piece: &[u8], mti: u16) -> bool {
    match unpacker.feed(alloc, piece) {
        Ok(Fed::Done { message, used }) => message.mti().number() == mti && used == piece.len(),
        _ => false,
    }
}

#[test]
fn a_fault_stays_until_the_reset(rt: HostRuntime) -> Result<(), Fail> {
    let alloc = rt.alloc();
    let table = Table::ascii87(alloc)?;
    let mut unpacker = Unpacker::new(alloc, &table);

    // bytes that no message begins with, and then a good one
    let echo = b"0800822000000000000004000000000000000102030405000001301";
    let fault = Some(UnpackFault {
        at: 0,
        element: 0,
        cause: UnpackCause::BadMti,
    });
    assert!(rt; fault_of(alloc, &mut unpacker, b"08A0") == fault);
    assert!(rt; fault_of(alloc, &mut unpacker, echo) == fault);
    unpacker.reset();
    assert!(rt; is_message(alloc, &mut unpacker, echo, 800));
    Ok(())
}

//! Each kind of note as its 128 bytes.

use iso_diary::{Line, line_bytes, read_line};
use iso_log::RECORD;
use iso_order::{Act, Money, Order, Pan, TxKey};
use iso_restarts::Note;
use std::test::Fail;

/// The key of a payment.
pub(crate) const KEY: TxKey = TxKey {
    base: 200,
    stan: 1,
    sent: 1126120000,
    acquirer: 7,
};

/// A payment of 30.00.
pub(crate) fn payment() -> Option<Order> {
    let pan = Pan::from_digits(b"4111111111111111")?;
    Order::new(
        KEY,
        Act::Debit(Money {
            pan,
            amount: 3000,
            currency: *b"840",
        }),
    )
}

/// Whether a record has these halves.
fn has_halves(bytes: &[u8; RECORD], front: &[u8; 64], back: &[u8; 64]) -> bool {
    bytes[..64] == front[..] && bytes[64..] == back[..]
}

/// Whether the record of a note is these 128 bytes, and comes back.
fn is_written(place: u64, note: Note, front: &[u8; 64], back: &[u8; 64]) -> bool {
    let bytes = line_bytes(&Line { place, note });
    let comes_back = match read_line(&bytes) {
        Some(line) => line.place == place && line_bytes(&line) == bytes,
        None => false,
    };
    comes_back && has_halves(&bytes, front, back)
}

#[test]
fn each_kind_of_note_is_a_record(rt: HostRuntime) -> Result<(), Fail> {
    let order = payment().ok_or("no payment")?;
    for (place, note, front, back) in [
        (
            1,
            Note::Begun(order),
            b"0200000001112612000000000000007D                               1",
            b"64111111111111111   000000003000840B00000000000000000001       \n",
        ),
        (
            2,
            Note::TimedOut(1),
            b"0000000001                                                      ",
            b"                                   T00000000000000000002       \n",
        ),
        (
            3,
            Note::Told(KEY, 51),
            b"0020000000000010000000000112612000000000000000000000007051      ",
            b"                                   A00000000000000000003       \n",
        ),
    ] {
        assert!(rt; is_written(place, note, front, back));
    }
    Ok(())
}

//! Frames whose bytes are known from outside, the issuer that they ask, and the host that serves them.

use iso_host::{Inlet, Outlet, Report, ServeFault, serve};
use iso_issuer::{Accounts, Issuer};
use iso_order::Pan;
use iso_table::Table;
use iso_wire::Header;
use std::alloc::Global;

/// A frame of a purchase of 10.00.
pub const PURCHASE: &[u8] =
    b"00820200722000010000800016411111111111111100000000000000100001020304050000070512345840";

/// The frame of its response.
pub const GRANTED: &[u8] =
    b"0090021072200001060080001641111111111111110000000000000010000102030405000007051234500000100840";

/// A frame of an echo test.
pub const ECHO: &[u8] = b"00550800822000000000000004000000000000000102030405000001301";

/// The frame of its response.
pub const ECHOED: &[u8] = b"0057081082200000020000000400000000000000010203040500000100301";

/// Two echo tests, one behind the other.
pub const TWO_ECHOES: &[u8] = b"00550800822000000000000004000000000000000102030405000001301\
00550800822000000000000004000000000000000102030405000001301";

/// Their responses.
pub const TWO_ECHOED: &[u8] = b"0057081082200000020000000400000000000000010203040500000100301\
0057081082200000020000000400000000000000010203040500000100301";

/// A purchase, its repeat, a response, three bytes that are no message, and an echo test.
pub const FIVE_FRAMES: &[u8] =
    b"00820200722000010000800016411111111111111100000000000000100001020304050000070512345840\
00820201722000010000800016411111111111111100000000000000100001020304050000070512345840\
0090021072200001060080001641111111111111110000000000000010000102030405000007051234500000100840\
0003abc\
00550800822000000000000004000000000000000102030405000001301";

/// The answers to them: the response and the three bytes get none.
pub const FIVE_ANSWERED: &[u8] =
    b"0090021072200001060080001641111111111111110000000000000010000102030405000007051234500000100840\
0090021072200001060080001641111111111111110000000000000010000102030405000007051234500000100840\
0057081082200000020000000400000000000000010203040500000100301";

/// Three purchases and the repeat of the first.
pub const THREE_PURCHASES: &[u8] =
    b"00820200722000010000800016411111111111111100000000000000100001020304050000070512345840\
00820200722000010000800016411111111111111100000000000000100001020304050000100512345840\
00820200722000010000800016411111111111111100000000000000100001020304050000110512345840\
00820201722000010000800016411111111111111100000000000000100001020304050000070512345840";

/// The answers to them where the journal takes two orders.
pub const TWO_GRANTED: &[u8] =
    b"0090021072200001060080001641111111111111110000000000000010000102030405000007051234500000100840\
0090021072200001060080001641111111111111110000000000000010000102030405000010051234500000200840\
0084021072200001020080001641111111111111110000000000000010000102030405000011051234596840\
0090021072200001060080001641111111111111110000000000000010000102030405000007051234500000100840";

const ACCOUNTS: &[u8] =
    b"{\"accounts\":[{\"currency\":\"840\",\"opening\":5000,\"pan\":\"4111111111111111\"}]}";

/// An issuer of one account, whose journal takes five orders, or two where it is small.
pub fn issuer(alloc: Global, is_small: bool) -> Option<Issuer> {
    match Accounts::from_json(alloc, ACCOUNTS) {
        Ok(accounts) => Some(Issuer::new(accounts, if is_small { 2 } else { 5 })),
        Err(_) => None,
    }
}

/// Whether the account has this ledger, and so many orders were entered.
pub fn has_entered(issuer: &Issuer, ledger: i64, orders: u32) -> bool {
    match Pan::from_digits(b"4111111111111111") {
        Some(pan) => issuer.ledger(pan) == Some(ledger) && issuer.len() == orders,
        None => false,
    }
}

/// How serving between an inlet and an outlet ends; none where the table is not one that a host can serve under.
pub fn end_of<R: Inlet, W: Outlet>(
    alloc: Global,
    table: &Table,
    issuer: &mut Issuer,
    reader: &mut R,
    writer: &mut W,
    turns: u64,
) -> Option<Result<Report, ServeFault>> {
    match table.host_ready() {
        Ok(()) => {
            let header = Header::Ascii4;
            Some(serve(alloc, table, header, issuer, reader, writer, turns))
        }
        Err(_) => None,
    }
}

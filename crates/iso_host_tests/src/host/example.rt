//! A purchase is built and written, and a host answers its bytes.
use iso_host::{Handled, Host, HostTable, Link};
use iso_issuer::{Accounts, Issuer};
use iso_order::Pan;
use iso_parts::Mti;
use iso_table::Table;
use iso_wire::{Header, Message, pack};
use std::alloc::Global;
use std::test::*;

/// Builds a message.
fn purchase(alloc: Global) -> Result<Message, Fail> {
    let mti = Mti::from_digits(200).ok_or("no message type")?;
    let mut message = Message::new(alloc, mti);
    message.set(2, b"4111111111111111")?;
    message.set(3, b"000000")?;
    message.set_number(4, 1000, 12)?;
    message.set(7, b"0102030405")?;
    message.set_number(11, 7, 6)?;
    message.set(32, b"12345")?;
    message.set(49, b"840")?;
    Ok(message)
}

/// A host of one account.
fn host(alloc: Global) -> Result<Host, Fail> {
    let text =
        b"{\"accounts\":[{\"currency\":\"840\",\"opening\":5000,\"pan\":\"4111111111111111\"}]}";
    let issuer = Issuer::new(Accounts::from_json(alloc, text)?, 999_999);
    Ok(Host::new(alloc, issuer))
}

/// The 1987 table in ASCII, and lengths of four digits before each message.
fn link(alloc: Global) -> Result<Link, Fail> {
    match HostTable::new(Table::ascii87(alloc)?) {
        Ok(table) => Ok(Link::new(table, Header::Ascii4)),
        Err(_) => Err("no host can serve under the table")?,
    }
}

/// The frame of the answer that grants the purchase.
const GRANTED: &[u8] =
    b"0090021072200001060080001641111111111111110000000000000010000102030405000007051234500000100840";

/// The purchase, as it is sent.
fn request(alloc: Global, link: &Link) -> Result<Vec<u8>, Fail> {
    Ok(pack(alloc, link.table().table(), &purchase(alloc)?)?)
}

/// Whether the host grants it by that answer, as the first order of its journal.
fn grants(alloc: Global, host: &mut Host, link: &Link, body: &[u8]) -> Result<bool, Fail> {
    let mut out = Vec::new(alloc);
    let handled = host.answer(link, body, &mut out)?;
    let is_granted = matches!(
        handled,
        Handled::Ordered {
            code: 0,
            seq: 1,
            ..
        }
    );
    Ok(is_granted && out.as_slice() == GRANTED)
}

/// How many orders the host entered, and what is on the account.
fn posted(host: &Host) -> (u32, Option<i64>) {
    let issuer = host.issuer();
    let pan = Pan::from_digits(b"4111111111111111");
    (issuer.len(), pan.and_then(|pan| issuer.ledger(pan)))
}

#[test]
fn a_purchase(rt: HostRuntime) -> Result<(), Fail> {
    let alloc = rt.alloc();
    let link = link(alloc)?;
    let mut host = host(alloc)?;
    let body = request(alloc, &link)?;

    // sent again, it gets its first answer, and nothing is posted twice
    for _ in 0..2 {
        assert!(rt; grants(alloc, &mut host, &link, &body)?);
        assert!(rt; posted(&host) == (1, Some(4000)));
    }
    Ok(())
}

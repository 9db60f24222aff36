//! One link of a document.

use crate::fault::{LinksFault, Member};
use crate::limits::Limits;
use crate::network::Network;
use crate::terms::Terms;
use iso_table::members::text_at;
use iso_wire::Header;
use serde_json::Value;
use std::alloc::Global;
use std::net::SocketAddr;

/// The members of a link.
const OF_LINK: &[Member] = &[
    Member::Name,
    Member::Listen,
    Member::Table,
    Member::Header,
    Member::Skip,
    Member::Networks,
    Member::Acquirers,
    Member::Limits,
];

/// The members of its limits.
const OF_LIMITS: &[Member] = &[
    Member::Peers,
    Member::Idle,
    Member::Frame,
    Member::Unread,
    Member::Waiting,
];

/// The most bytes of a name.
const LONGEST_NAME: usize = 32;

/// The most bytes that stand before a message.
const MOST_SKIPPED: u32 = 255;

/// The most peers of a link.
pub const MOST_PEERS: u32 = 65_000;

/// The most seconds of a limit: a week.
pub const MOST_SECONDS: u32 = 604_800;

/// The most bytes that wait for a peer.
pub const MOST_WAITING: u32 = 1_073_741_824;

/// The most digits of an acquirer (element 32).
const MOST_DIGITS: usize = 11;

/// Whether one of these members has this name.
fn is_one(members: &[Member], name: &str) -> bool {
    for member in members {
        if member.name() == name {
            return true;
        }
    }
    false
}

/// Refuses what is no object of these members.
fn check_members(
    alloc: Global,
    link: usize,
    value: &Value,
    members: &[Member],
) -> Result<(), LinksFault> {
    let Some(object) = value.as_object() else {
        return Err(LinksFault::NoObject(link));
    };
    for (key, _) in object.iter() {
        if !is_one(members, key.as_str()) {
            let name = String::from_str(alloc, key.as_str())?;
            return Err(LinksFault::Unknown { link, name });
        }
    }
    Ok(())
}

/// What a member is, if it is what it is to be.
fn wanted<T>(link: usize, member: Member, found: Option<T>) -> Result<T, LinksFault> {
    match found {
        Some(found) => Ok(found),
        None => Err(LinksFault::Member { link, member }),
    }
}

/// Whether a byte may stand in a name.
fn is_of_name(byte: u8) -> bool {
    byte.is_ascii_alphanumeric() || matches!(byte, b'.' | b'-' | b'_')
}

/// Whether a text is a name of a link.
fn is_name(text: &[u8]) -> bool {
    if text.is_empty() || text.len() > LONGEST_NAME {
        return false;
    }
    for byte in text {
        if !is_of_name(*byte) {
            return false;
        }
    }
    true
}

/// The name of a link.
fn name_in(value: &Value) -> Option<&str> {
    let text = text_at(value, "name")?;
    if is_name(text.as_bytes()) {
        Some(text)
    } else {
        None
    }
}

/// The address on which the host listens.
fn address_in(value: &Value) -> Option<SocketAddr> {
    match text_at(value, "listen")?.parse::<SocketAddr>() {
        Ok(address) => Some(address),
        Err(_) => None,
    }
}

/// The name or path of the table.
fn table_in(value: &Value) -> Option<&str> {
    let text = text_at(value, "table")?;
    if text.is_empty() { None } else { Some(text) }
}

/// The header of this name.
fn header_named(name: &str) -> Option<Header> {
    match name {
        "binary2" => Some(Header::Binary2),
        "ascii4" => Some(Header::Ascii4),
        "bcd2" => Some(Header::Bcd2),
        _ => None,
    }
}

/// How each frame counts its bytes.
fn header_in(value: &Value) -> Option<Header> {
    header_named(text_at(value, "header")?)
}

/// The number, if it lies in these bounds.
fn within(number: u64, least: u32, most: u32) -> Option<u32> {
    match u32::try_from(number) {
        Ok(number) if least <= number && number <= most => Some(number),
        _ => None,
    }
}

/// The whole number at a member, which lies in these bounds; where there is no such member, the other number.
fn number_in(value: &Value, member: Member, least: u32, most: u32, absent: u32) -> Option<u32> {
    match value.get(member.name()) {
        Some(number) => within(number.as_u64()?, least, most),
        None => Some(absent),
    }
}

/// The network that a JSON value writes.
fn network_in(value: &Value) -> Option<Network> {
    Network::from_text(value.as_str()?)
}

/// The networks of an array.
fn networks_of(alloc: Global, link: usize, values: &[Value]) -> Result<Vec<Network>, LinksFault> {
    let mut networks = Vec::new(alloc);
    for value in values {
        networks.push(wanted(link, Member::Networks, network_in(value))?)?;
    }
    Ok(networks)
}

/// The number that digits write.
fn number_of(digits: &[u8]) -> Option<u64> {
    if digits.is_empty() || digits.len() > MOST_DIGITS {
        return None;
    }
    let mut number = 0u64;
    for digit in digits {
        if !digit.is_ascii_digit() {
            return None;
        }
        number = number
            .saturating_mul(10)
            .saturating_add(u64::from(digit.saturating_sub(b'0')));
    }
    Some(number)
}

/// The acquirer that a JSON value writes.
fn acquirer_in(value: &Value) -> Option<u64> {
    number_of(value.as_str()?.as_bytes())
}

/// The acquirers of an array.
fn acquirers_of(alloc: Global, link: usize, values: &[Value]) -> Result<Vec<u64>, LinksFault> {
    let mut acquirers = Vec::new(alloc);
    for value in values {
        acquirers.push(wanted(link, Member::Acquirers, acquirer_in(value))?)?;
    }
    Ok(acquirers)
}

/// The values of an array at a member, at least one; where there is no such member, none.
fn values_in(link: usize, value: &Value, member: Member) -> Result<&[Value], LinksFault> {
    let Some(list) = value.get(member.name()) else {
        return Ok(&[]);
    };
    match list.as_array() {
        Some(values) if !values.is_empty() => Ok(values.as_slice()),
        _ => Err(LinksFault::Member { link, member }),
    }
}

/// A number at a member of the limits, at least 1.
fn limit_in(
    link: usize,
    value: &Value,
    member: Member,
    most: u32,
    absent: u32,
) -> Result<u32, LinksFault> {
    wanted(link, member, number_in(value, member, 1, most, absent))
}

/// The limits of an object. Each has a default.
fn limits_of(alloc: Global, link: usize, value: &Value) -> Result<Limits, LinksFault> {
    check_members(alloc, link, value, OF_LIMITS)?;
    let Limits {
        peers,
        idle,
        frame,
        unread,
        waiting,
        share,
    } = Limits::DEFAULT;
    Ok(Limits {
        peers: limit_in(link, value, Member::Peers, MOST_PEERS, peers as u32)? as usize,
        idle: limit_in(link, value, Member::Idle, MOST_SECONDS, idle)?,
        frame: limit_in(link, value, Member::Frame, MOST_SECONDS, frame)?,
        unread: limit_in(link, value, Member::Unread, MOST_SECONDS, unread)?,
        waiting: limit_in(link, value, Member::Waiting, MOST_WAITING, waiting as u32)? as usize,
        share,
    })
}

/// The limits of a link.
fn limits_in(alloc: Global, link: usize, value: &Value) -> Result<Limits, LinksFault> {
    match value.get("limits") {
        Some(limits) => limits_of(alloc, link, limits),
        None => Ok(Limits::DEFAULT),
    }
}

/// The terms that a JSON value tells of the link of this number.
pub fn terms_in(alloc: Global, link: usize, value: &Value) -> Result<Terms, LinksFault> {
    check_members(alloc, link, value, OF_LINK)?;
    let name = wanted(link, Member::Name, name_in(value))?;
    let address = wanted(link, Member::Listen, address_in(value))?;
    let table = wanted(link, Member::Table, table_in(value))?;
    let header = wanted(link, Member::Header, header_in(value))?;
    let skip = wanted(
        link,
        Member::Skip,
        number_in(value, Member::Skip, 0, MOST_SKIPPED, 0),
    )?;
    let networks = values_in(link, value, Member::Networks)?;
    let acquirers = values_in(link, value, Member::Acquirers)?;
    let limits = limits_in(alloc, link, value)?;
    Ok(Terms {
        name: String::from_str(alloc, name)?,
        address,
        table: String::from_str(alloc, table)?,
        header,
        skip: skip as usize,
        networks: networks_of(alloc, link, networks)?,
        acquirers: acquirers_of(alloc, link, acquirers)?,
        limits,
    })
}

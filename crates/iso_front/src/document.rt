//! A document of shards.

use crate::fault::{GiveFault, Member, ShardsFault};
use crate::prefixes::Prefixes;
use crate::shards::{MOST_SHARDS, Shard, Shards};
use iso_table::members::{has_members, text_at};
use serde_json::{Category, Value};
use std::alloc::Global;
use std::net::SocketAddr;

/// The members of a shard.
const OF_SHARD: &[Member] = &[Member::Name, Member::Address, Member::Accounts];

/// The members of its accounts.
const OF_ACCOUNTS: &[Member] = &[Member::From, Member::To];

/// The most bytes of a name.
const LONGEST_NAME: usize = 32;

/// The most prefixes that are given, of all shards.
pub const MOST_GIVEN: usize = 1_000;

/// The JSON value of a text.
fn value_of(alloc: Global, text: &[u8]) -> Result<Value, ShardsFault> {
    match Value::from_slice(alloc, text) {
        Ok(value) => Ok(value),
        Err(error) if error.classify() == Category::Memory => Err(ShardsFault::Memory),
        Err(error) => Err(ShardsFault::NotJson {
            line: error.line(),
            column: error.column(),
        }),
    }
}

/// Whether one of these members has this name.
fn is_one(members: &[Member], name: &str) -> bool {
    for member in members {
        if member.name() == name {
            return true;
        }
    }
    false
}

/// Refuses what is no object of these members.
fn check_members(
    alloc: Global,
    shard: usize,
    value: &Value,
    members: &[Member],
) -> Result<(), ShardsFault> {
    let Some(object) = value.as_object() else {
        return Err(ShardsFault::NoObject(shard));
    };
    for (key, _) in object.iter() {
        if !is_one(members, key.as_str()) {
            let name = String::from_str(alloc, key.as_str())?;
            return Err(ShardsFault::Unknown { shard, name });
        }
    }
    Ok(())
}

/// What a member is, if it is what it is to be.
fn wanted<T>(shard: usize, member: Member, found: Option<T>) -> Result<T, ShardsFault> {
    match found {
        Some(found) => Ok(found),
        None => Err(ShardsFault::Member { shard, member }),
    }
}

/// Whether a byte may stand in a name.
fn is_of_name(byte: u8) -> bool {
    byte.is_ascii_alphanumeric() || matches!(byte, b'.' | b'-' | b'_')
}

/// Whether a text is a name of a shard.
fn is_name(text: &[u8]) -> bool {
    if text.is_empty() || text.len() > LONGEST_NAME {
        return false;
    }
    for byte in text {
        if !is_of_name(*byte) {
            return false;
        }
    }
    true
}

/// The name of a shard.
fn name_in(value: &Value) -> Option<&str> {
    let text = text_at(value, "name")?;
    if is_name(text.as_bytes()) {
        Some(text)
    } else {
        None
    }
}

/// Where a shard listens.
fn address_in(value: &Value) -> Option<SocketAddr> {
    match text_at(value, "address")?.parse::<SocketAddr>() {
        Ok(address) => Some(address),
        Err(_) => None,
    }
}

/// Whether a text can be a prefix.
fn is_prefix(text: &str) -> bool {
    Prefixes::new(text.as_bytes(), text.as_bytes()).is_some()
}

/// The text of a prefix.
fn prefix_in(value: &Value) -> Option<&str> {
    let text = text_at(value, "from")?;
    if is_prefix(text) { Some(text) } else { None }
}

/// The prefixes from a text on.
fn prefixes_from(value: &Value, from: &str) -> Option<Prefixes> {
    Prefixes::new(from.as_bytes(), text_at(value, "to")?.as_bytes())
}

/// The prefixes of an object.
fn prefixes_in(alloc: Global, shard: usize, value: &Value) -> Result<Prefixes, ShardsFault> {
    check_members(alloc, shard, value, OF_ACCOUNTS)?;
    let from = wanted(shard, Member::From, prefix_in(value))?;
    wanted(shard, Member::To, prefixes_from(value, from))
}

/// Gives prefixes to the last shard.
fn give(shards: &mut Shards, prefixes: Prefixes) -> Result<(), ShardsFault> {
    let shard = shards.len();
    if shards.given() >= MOST_GIVEN {
        return Err(ShardsFault::TooMany(shard));
    }
    match shards.give(prefixes) {
        Ok(()) => Ok(()),
        Err(GiveFault::Memory) => Err(ShardsFault::Memory),
        Err(GiveFault::NoShard) => Err(ShardsFault::Shape),
        Err(GiveFault::Meets(other)) => Err(ShardsFault::Meets {
            shard,
            prefixes,
            earlier: other.shard.saturating_add(1),
            others: other.prefixes,
        }),
    }
}

/// Gives the prefixes of an array to the last shard.
fn give_all(alloc: Global, shards: &mut Shards, values: &[Value]) -> Result<(), ShardsFault> {
    for value in values {
        let prefixes = prefixes_in(alloc, shards.len(), value)?;
        give(shards, prefixes)?;
    }
    Ok(())
}

/// The values of the accounts, at least one.
fn accounts_in(value: &Value) -> Option<&[Value]> {
    let values = value.get("accounts")?.as_array()?;
    if values.is_empty() {
        None
    } else {
        Some(values.as_slice())
    }
}

/// What a shard has in common with an earlier one that no two may have.
fn clash(shard: usize, earlier: usize, one: &Shard, other: &Shard) -> Option<ShardsFault> {
    if one.name == other.name {
        return Some(ShardsFault::SameName { shard, earlier });
    }
    if one.address == other.address {
        return Some(ShardsFault::SameAddress { shard, earlier });
    }
    None
}

/// Refuses a shard that has the name or the address of one before it.
fn check_apart(shards: &Shards, shard: &Shard) -> Result<(), ShardsFault> {
    let number = shards.len().saturating_add(1);
    for (place, other) in shards.as_slice().iter().enumerate() {
        if let Some(fault) = clash(number, place.saturating_add(1), shard, other) {
            return Err(fault);
        }
    }
    Ok(())
}

/// Adds the shard that a JSON value tells of.
fn add(alloc: Global, shards: &mut Shards, value: &Value) -> Result<(), ShardsFault> {
    let number = shards.len().saturating_add(1);
    check_members(alloc, number, value, OF_SHARD)?;
    let name = wanted(number, Member::Name, name_in(value))?;
    let address = wanted(number, Member::Address, address_in(value))?;
    let accounts = wanted(number, Member::Accounts, accounts_in(value))?;
    let shard = Shard {
        name: String::from_str(alloc, name)?,
        address,
    };
    check_apart(shards, &shard)?;
    shards.add(shard)?;
    give_all(alloc, shards, accounts)
}

/// The values that an object of one array lists.
fn values_in(value: &Value) -> Option<&[Value]> {
    if !has_members(value, 1) {
        return None;
    }
    Some(value.get("shards")?.as_array()?.as_slice())
}

/// The shards that these JSON values tell of.
fn shards_of(alloc: Global, values: &[Value]) -> Result<Shards, ShardsFault> {
    let mut shards = Shards::new(alloc);
    for value in values {
        add(alloc, &mut shards, value)?;
    }
    Ok(shards)
}

/// The shards of a JSON text.
pub(crate) fn read_shards(alloc: Global, text: &[u8]) -> Result<Shards, ShardsFault> {
    let value = value_of(alloc, text)?;
    let Some(values) = values_in(&value) else {
        return Err(ShardsFault::Shape);
    };
    if values.is_empty() || values.len() > MOST_SHARDS {
        return Err(ShardsFault::Count(values.len()));
    }
    shards_of(alloc, values)
}

//! One rule of a document.

use crate::behaviour::{Deed, Rule};
use crate::code::Code;
use crate::fault::{Member, ScriptFault};
use crate::pattern::{Amounts, Pattern};
use iso_order::{MOST_AMOUNT, Pan};
use iso_parts::Mti;
use iso_table::members::text_at;
use serde_json::Value;
use std::alloc::Global;

/// The members of a rule.
const OF_RULE: &[Member] = &[
    Member::Account,
    Member::Amount,
    Member::Type,
    Member::Every,
    Member::Do,
    Member::Code,
    Member::Milliseconds,
];

/// The members of its amounts.
const OF_AMOUNTS: &[Member] = &[Member::Least, Member::Most];

/// The most messages at each of which a rule decides.
pub const MOST_EVERY: u32 = 1_000_000;

/// The longest delay in milliseconds: an hour.
pub const MOST_DELAY: u32 = 3_600_000;

/// Whether one of these members has this name.
fn is_one(members: &[Member], name: &str) -> bool {
    for member in members {
        if member.name() == name {
            return true;
        }
    }
    false
}

/// Refuses what is no object of these members.
fn check_members(
    alloc: Global,
    rule: usize,
    value: &Value,
    members: &[Member],
) -> Result<(), ScriptFault> {
    let Some(object) = value.as_object() else {
        return Err(ScriptFault::NoObject(rule));
    };
    for (key, _) in object.iter() {
        if !is_one(members, key.as_str()) {
            let name = String::from_str(alloc, key.as_str())?;
            return Err(ScriptFault::Unknown { rule, name });
        }
    }
    Ok(())
}

/// What a member is, if it is what it is to be.
fn wanted<T>(rule: usize, member: Member, found: Option<T>) -> Result<T, ScriptFault> {
    match found {
        Some(found) => Ok(found),
        None => Err(ScriptFault::Member { rule, member }),
    }
}

/// The account number, where one is given.
fn account_of(rule: usize, value: &Value) -> Result<Option<Pan>, ScriptFault> {
    match value.get("account") {
        None => Ok(None),
        Some(account) => {
            let found = wanted(rule, Member::Account, pan_in(account))?;
            Ok(Some(found))
        }
    }
}

/// The account number that a JSON value writes.
fn pan_in(value: &Value) -> Option<Pan> {
    Pan::from_digits(value.as_str()?.as_bytes())
}

/// The amount that a JSON value is.
fn amount_in(value: &Value) -> Option<u64> {
    let amount = value.as_u64()?;
    if amount <= MOST_AMOUNT {
        Some(amount)
    } else {
        None
    }
}

/// The amount at a member; where there is no such member, the other one.
fn bound_of(rule: usize, value: &Value, member: Member, absent: u64) -> Result<u64, ScriptFault> {
    match value.get(member.name()) {
        Some(bound) => wanted(rule, member, amount_in(bound)),
        None => Ok(absent),
    }
}

/// The amounts of an object of bounds.
fn bounds_of(alloc: Global, rule: usize, value: &Value) -> Result<Amounts, ScriptFault> {
    check_members(alloc, rule, value, OF_AMOUNTS)?;
    let least = bound_of(rule, value, Member::Least, 0)?;
    let most = bound_of(rule, value, Member::Most, MOST_AMOUNT)?;
    if least > most {
        return Err(ScriptFault::Member {
            rule,
            member: Member::Most,
        });
    }
    Ok(Amounts { least, most })
}

/// The amounts of a JSON value: one, or those between two bounds.
fn amounts_in(alloc: Global, rule: usize, value: &Value) -> Result<Amounts, ScriptFault> {
    if value.as_object().is_some() {
        return bounds_of(alloc, rule, value);
    }
    let amount = wanted(rule, Member::Amount, amount_in(value))?;
    Ok(Amounts {
        least: amount,
        most: amount,
    })
}

/// The amounts, where some are given.
fn amounts_of(alloc: Global, rule: usize, value: &Value) -> Result<Option<Amounts>, ScriptFault> {
    match value.get("amount") {
        None => Ok(None),
        Some(amount) => Ok(Some(amounts_in(alloc, rule, amount)?)),
    }
}

/// The message type that a JSON value writes, as a number.
fn type_in(value: &Value) -> Option<u16> {
    let mti = Mti::from_text(value.as_str()?.as_bytes())?;
    if mti.base().number() == mti.number() {
        Some(mti.number())
    } else {
        None
    }
}

/// The message type, where one is given.
fn type_of(rule: usize, value: &Value) -> Result<Option<u16>, ScriptFault> {
    match value.get("type") {
        None => Ok(None),
        Some(mti) => {
            let found = wanted(rule, Member::Type, type_in(mti))?;
            Ok(Some(found))
        }
    }
}

/// The response code of an answer.
fn code_in(value: &Value) -> Option<Code> {
    Code::from_digits(text_at(value, "code")?.as_bytes())
}

/// The whole number that a JSON value is, from 1 to the most.
fn count_in(value: &Value, most: u32) -> Option<u32> {
    let count = u32::try_from(value.as_u64()?).ok()?;
    if 1 <= count && count <= most {
        Some(count)
    } else {
        None
    }
}

/// How long an answer is held back.
fn delay_in(value: &Value) -> Option<u32> {
    count_in(value.get("milliseconds")?, MOST_DELAY)
}

/// At each how many messages the rule decides: at each one, where nothing is given.
fn every_of(rule: usize, value: &Value) -> Result<u32, ScriptFault> {
    match value.get("every") {
        None => Ok(1),
        Some(every) => wanted(rule, Member::Every, count_in(every, MOST_EVERY)),
    }
}

/// Refuses a member that what is done has no use for.
fn check_useless(rule: usize, value: &Value, member: Member) -> Result<(), ScriptFault> {
    match value.get(member.name()) {
        Some(_) => Err(ScriptFault::Useless { rule, member }),
        None => Ok(()),
    }
}

/// What is done to a message by a word.
fn deed_named(rule: usize, value: &Value, word: &str) -> Result<Deed, ScriptFault> {
    if word != "answer" {
        check_useless(rule, value, Member::Code)?;
    }
    if word != "delay" {
        check_useless(rule, value, Member::Milliseconds)?;
    }
    match word {
        "answer" => Ok(Deed::Answer(wanted(rule, Member::Code, code_in(value))?)),
        "delay" => Ok(Deed::Delay(wanted(rule, Member::Milliseconds, delay_in(value))?)),
        "silent" => Ok(Deed::Silent),
        "cut" => Ok(Deed::Cut),
        "garbage" => Ok(Deed::Garbage),
        _ => Err(ScriptFault::Member {
            rule,
            member: Member::Do,
        }),
    }
}

/// What is done to a message.
fn deed_of(rule: usize, value: &Value) -> Result<Deed, ScriptFault> {
    let word = wanted(rule, Member::Do, text_at(value, "do"))?;
    deed_named(rule, value, word)
}

/// The rule of this number that a JSON value is.
pub(crate) fn rule_in(alloc: Global, rule: usize, value: &Value) -> Result<Rule, ScriptFault> {
    check_members(alloc, rule, value, OF_RULE)?;
    let pattern = Pattern {
        account: account_of(rule, value)?,
        amounts: amounts_of(alloc, rule, value)?,
        mti: type_of(rule, value)?,
    };
    Ok(Rule {
        pattern,
        every: every_of(rule, value)?,
        deed: deed_of(rule, value)?,
    })
}

//! What the words ask of a run, as numbers.

use iso_mix::Mix;
use iso_plan::Faults;
use rumpadol_buying::{millionths_of, mix_of, range_of};
use rumpadol_drive_words::DriveWords;
use rumpadol_tables::{Stop, misused};
use std::alloc::Global;
use std::net::SocketAddr;

/// What the words ask of a run that isn't said by one number.
#[derive(Clone, Copy)]
pub(crate) struct Asked {
    pub address: SocketAddr,
    pub least: u64,
    pub most: u64,
    pub mix: Mix,
    pub faults: Faults,
}

/// The address that a word writes.
pub(crate) fn address_of(alloc: Global, text: &str) -> Result<SocketAddr, Stop> {
    match text.parse::<SocketAddr>() {
        Ok(address) => Ok(address),
        Err(_) => Err(misused(format!(in alloc;
            "rumpadol: {text}: write the address and the port of a host, as 127.0.0.1:8583 or [::1]:8583\n"
        ))),
    }
}

/// The millionths of a chance.
fn chance_of(alloc: Global, word: &str, text: &str) -> Result<u32, Stop> {
    match millionths_of(text) {
        Some(millionths) => Ok(millionths),
        None => Err(misused(format!(in alloc;
            "rumpadol: --{word} {text}: write a fraction from 0 to 1 with at most six digits behind its point, as 0.05\n"
        ))),
    }
}

/// The range of amounts.
fn amounts_of(alloc: Global, text: &str) -> Result<(u64, u64), Stop> {
    match range_of(text) {
        Some((least, most)) if least >= 1 && most <= 999_999_999_999 => Ok((least, most)),
        _ => Err(misused(format!(in alloc;
            "rumpadol: --amount {text}: write a range from 1 to 999999999999 in minor units, the least first, as 100..10000\n"
        ))),
    }
}

/// The range of delays.
fn delay_of(alloc: Global, text: &str) -> Result<(u32, u32), Stop> {
    if let Some((least, most)) = range_of(text)
        && let (Ok(least), Ok(most)) = (u32::try_from(least), u32::try_from(most))
        && most <= 3_600_000
    {
        return Ok((least, most));
    }
    Err(misused(format!(in alloc;
        "rumpadol: --delay {text}: write a range of milliseconds, the least first and an hour at most, as 50..200\n"
    )))
}

/// The mix of transactions; purchases alone, where none is asked.
fn mix_asked(alloc: Global, words: &DriveWords<'_>) -> Result<Mix, Stop> {
    let Some(text) = words.mix else {
        return Ok(Mix::NONE);
    };
    if words.journal.is_some() {
        return Err(misused(format!(in alloc;
            "rumpadol: --mix {text}: a diary keeps purchases alone; leave out --journal, or --mix\n"
        )));
    }
    match mix_of(text) {
        Some(mix) => Ok(mix),
        None => Err(misused(format!(in alloc;
            "rumpadol: --mix {text}: write how many of 100 transactions are of each kind, as hold=20,complete=10,inquiry=5,undo=5, and 100 together at most\n"
        ))),
    }
}

/// What the words ask.
pub(crate) fn asked_of(alloc: Global, words: &DriveWords<'_>) -> Result<Asked, Stop> {
    let (least, most) = amounts_of(alloc, words.amount)?;
    Ok(Asked {
        address: address_of(alloc, words.address)?,
        least,
        most,
        mix: mix_asked(alloc, words)?,
        faults: Faults {
            lose: chance_of(alloc, "lose", words.lose)?,
            repeat: chance_of(alloc, "repeat", words.repeat)?,
            cut: chance_of(alloc, "cut", words.cut)?,
            delay: delay_of(alloc, words.delay)?,
        },
    })
}

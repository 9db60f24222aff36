//! Addresses as numbers.

ghost use Rattle.std.specs.Prelude.{◌≡◌, ◌<◌, ◌/◌, ◌%◌, ◌^◌, ◌-◌, ◌==◌};
ghost use Rattle.iso_links.specs.Number.{number_of, width_of, first_bits, last_bits};

use std::net::IpAddr;

/// An address of either family as a number.
#[derive(Clone, Copy, Debug, PartialEq, Eq)]
pub enum Number {
    /// An IPv4 address.
    Four(u32),
    /// An IPv6 address.
    Six(u128),
}

/// Whether an IPv6 address holds an IPv4 address, as `::ffff:a.b.c.d` does.
fn is_mapped(bits: u128) -> bool
    ensures { result ≡ (bits / 2 ^ 32 == 65535) }
{
    bits / 0x1_0000_0000 == 0xffff
}

/// The first bits of so many.
fn bits_from(bits: u128, behind: u32) -> u128
    ensures { result ≡ bits / 2 ^ behind }
{
    match bits.checked_shr(behind) {
        Some(first) => first,
        None => 0,
    }
}

/// The bits behind the first ones, so many of them.
fn bits_behind(bits: u128, behind: u32) -> u128
    ensures { result ≡ bits % 2 ^ behind }
{
    match 2u128.checked_pow(behind) {
        Some(step) => bits % step,
        None => bits,
    }
}

impl Number {
    /// The number of an address. An IPv6 address that holds an IPv4 address counts as that one.
    pub fn of(address: IpAddr) -> Number
        ensures { result ≡ number_of address }
    {
        match address {
            IpAddr::V4(address) => Number::Four(address.to_bits()),
            IpAddr::V6(address) => {
                let bits = address.to_bits();
                if is_mapped(bits) {
                    Number::Four((bits % 0x1_0000_0000) as u32)
                } else {
                    Number::Six(bits)
                }
            }
        }
    }

    /// How many bits it has.
    pub fn width(self) -> u8
        // An IPv4 address has 32 bits, and any other 128.
        ensures { result ≡ width_of self }
    {
        match self {
            Number::Four(_) => 32,
            Number::Six(_) => 128,
        }
    }

    /// Its first bits, as a number.
    pub fn first_bits(self, size: u8) -> u128
        ensures { result ≡ first_bits size self }
    {
        match self {
            Number::Four(bits) => bits_from(
                u128::from(bits),
                32u32.saturating_sub(u32::from(size)),
            ),
            Number::Six(bits) => bits_from(bits, 128u32.saturating_sub(u32::from(size))),
        }
    }

    /// The bits behind the first ones, as a number.
    pub fn last_bits(self, size: u8) -> u128
        ensures { result ≡ last_bits size self }
    {
        match self {
            Number::Four(bits) => bits_behind(
                u128::from(bits),
                32u32.saturating_sub(u32::from(size)),
            ),
            Number::Six(bits) => bits_behind(bits, 128u32.saturating_sub(u32::from(size))),
        }
    }
}

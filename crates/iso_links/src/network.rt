//! Networks of addresses.

ghost use Rattle.std.specs.Prelude.{◌≡◌, IfSome, IsNone};
ghost use Rattle.std.specs.declared.net.ip_addr.IpAddr.{IpAddr};
ghost use Rattle.std.specs.Net.Grammar.{IsIpText};
ghost use Rattle.iso_links.specs.declared.network.Network.{Network};
ghost use Rattle.iso_links.specs.Network.{begin_alike, has, network_of, size_of};
ghost use Rattle.iso_links.specs.Network.{WrittenByTwo, WrittenByOne, IsNetworkText};

use crate::number::Number;
use std::net::IpAddr;

/// All addresses that begin with the same bits, of IPv4 or of IPv6.
#[derive(Clone, Copy, Debug, PartialEq, Eq)]
pub struct Network {
    /// Its first address.
    first: Number,
    /// How many bits its addresses begin with.
    size: u8,
}

/// Whether two addresses are of one family, and begin with the same bits.
fn begin_alike(size: u8, one: Number, other: Number) -> bool
    ensures { result ≡ begin_alike size one other }
{
    match (one, other) {
        (Number::Four(_), Number::Four(_)) | (Number::Six(_), Number::Six(_)) => {
            one.first_bits(size) == other.first_bits(size)
        }
        (Number::Four(_), Number::Six(_)) | (Number::Six(_), Number::Four(_)) => false,
    }
}

/// The number that one to three digits write, without leading zeros.
fn size_of(text: &[u8]) -> Option<u8>
    ensures { result ≡ size_of text.now }
{
    match *text {
        [a @ b'0'..=b'9'] => Some(a - b'0'),
        [a @ b'1'..=b'9', b @ b'0'..=b'9'] => Some(10 * (a - b'0') + (b - b'0')),
        [b'1', a @ b'0'..=b'9', b @ b'0'..=b'9'] => Some(100 + 10 * (a - b'0') + (b - b'0')),
        _ => None,
    }
}

/// The address that a text writes.
fn address_of(text: &str) -> Option<IpAddr>
    ensures found { IfSome result (IsIpText text.now) }
    ensures none { IsNone result → (a : IpAddr) → IsIpText text.now a → ⊥ }
{
    match text.parse::<IpAddr>() {
        Ok(address) => Some(address),
        Err(_) => None,
    }
}

/// The network of an address and a size.
fn written_by_two(address: &str, size: &str) -> Option<Network>
    ensures found { IfSome result (WrittenByTwo address.now size.now) }
    ensures none { IsNone result → (n : Network) → WrittenByTwo address.now size.now n → ⊥ }
{
    let address = address_of(address)?;
    let size = size_of(size.as_bytes())?;
    Network::new(address, size)
}

/// The network of one address.
fn written_by_one(text: &str) -> Option<Network>
    ensures found { IfSome result (WrittenByOne text.now) }
    ensures none { IsNone result → (n : Network) → WrittenByOne text.now n → ⊥ }
{
    let address = address_of(text)?;
    Network::new(address, Number::of(address).width())
}

impl Network {
    /// The network of the addresses that begin as this one does, with so many bits: 0 to 32 of an IPv4 address, 0 to 128 of an
    /// IPv6 address. The bits behind them are zeros.
    pub fn new(address: IpAddr, size: u8) -> Option<Network>
        // There is one exactly where the size is at most the address's 32 or 128 bits, and none of
        // its bits behind the size is set.
        ensures { result ≡ network_of address size }
    {
        let first = Number::of(address);
        if size <= first.width() && first.last_bits(size) == 0 {
            Some(Network { first, size })
        } else {
            None
        }
    }

    /// The network that a text writes: as `10.0.0.0/8`, `2001:db8::/32`, or `192.0.2.7` for one address.
    pub fn from_text(text: &str) -> Option<Network>
        // The network is the one that the text writes: an address, a slash and a
        // size, or one address alone.
        ensures found { IfSome result (IsNetworkText text.now) }
        // `None` is told only of a text that writes no network.
        ensures none { IsNone result → (n : Network) → IsNetworkText text.now n → ⊥ }
    {
        match text.split_once('/') {
            Some((address, size)) => written_by_two(address, size),
            None => written_by_one(text),
        }
    }

    /// Whether an address is in the network. An IPv6 address that holds an IPv4 address, as `::ffff:10.0.0.1`, counts as that
    /// one.
    pub fn has(&self, address: IpAddr) -> bool
        // It is true exactly where both are of one family, and the address
        // begins with the network's bits.
        ensures { result ≡ has self.now address }
    {
        begin_alike(self.size, self.first, Number::of(address))
    }
}

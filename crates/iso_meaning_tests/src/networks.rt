//! Networks of addresses, as an operator writes them.

use iso_fakes::check;
use iso_links::Network;
use std::net::IpAddr;
use std::test::Fail;

/// The name of a row, a network, an address, and whether it is in that network.
const ADDRESSES: &[(&str, &str, &str, bool)] = &[
    ("first of a class A", "10.0.0.0/8", "10.0.0.0", true),
    ("last of a class A", "10.0.0.0/8", "10.255.255.255", true),
    ("one before", "10.0.0.0/8", "9.255.255.255", false),
    ("one behind", "10.0.0.0/8", "11.0.0.0", false),
    ("inside a byte", "172.16.0.0/12", "172.31.255.255", true),
    ("behind that", "172.16.0.0/12", "172.32.0.0", false),
    ("one address", "192.0.2.7", "192.0.2.7", true),
    ("another address", "192.0.2.7", "192.0.2.6", false),
    (
        "one address, its length told",
        "192.0.2.7/32",
        "192.0.2.7",
        true,
    ),
    ("half of all", "128.0.0.0/1", "127.255.255.255", false),
    ("any IPv4 address", "0.0.0.0/0", "203.0.113.9", true),
    (
        "any IPv4 address, and one of IPv6",
        "0.0.0.0/0",
        "2001:db8::1",
        false,
    ),
    ("any IPv6 address", "::/0", "2001:db8::1", true),
    (
        "any IPv6 address, and one of IPv4",
        "::/0",
        "203.0.113.9",
        false,
    ),
    (
        "any IPv6 address, and one that holds IPv4",
        "::/0",
        "::ffff:203.0.113.9",
        false,
    ),
    (
        "first of an IPv6 network",
        "2001:db8::/32",
        "2001:db8::",
        true,
    ),
    (
        "last of an IPv6 network",
        "2001:db8::/32",
        "2001:db8:ffff:ffff:ffff:ffff:ffff:ffff",
        true,
    ),
    (
        "behind an IPv6 network",
        "2001:db8::/32",
        "2001:db9::",
        false,
    ),
    ("one IPv6 address", "::1", "::1", true),
    ("another IPv6 address", "::1", "::2", false),
    (
        "an IPv4 address that came by IPv6",
        "10.0.0.0/8",
        "::ffff:10.1.2.3",
        true,
    ),
    (
        "another that came by IPv6",
        "10.0.0.0/8",
        "::ffff:11.1.2.3",
        false,
    ),
    (
        "an IPv4 address in the low bits",
        "10.0.0.0/8",
        "::10.1.2.3",
        false,
    ),
];

/// Whether an address is in a network, where both are written.
fn is_in(network: &str, address: &str) -> Option<bool> {
    let network = Network::from_text(network)?;
    match address.parse::<IpAddr>() {
        Ok(address) => Some(network.has(address)),
        Err(_) => None,
    }
}

#[test]
fn networks() -> Result<(), Fail> {
    for (name, network, address, wanted) in ADDRESSES {
        check(is_in(*network, *address) == Some(*wanted), *name)?;
    }
    Ok(())
}

/// What no network is.
const NO_NETWORKS: &[&str] = &[
    "",
    "/",
    "/8",
    "10.0.0.0/",
    "10.0.0.0/33",
    "10.0.0.0/-1",
    "10.0.0.0/+8",
    "10.0.0.0/08",
    "10.0.0.0/8/8",
    "10.0.0.0 /8",
    "10.0.0/8",
    "10.0.0.1/8",
    "10.0.0.1/31",
    "0.0.0.1/0",
    "010.0.0.0/8",
    "256.0.0.0/8",
    "2001:db8::/129",
    "2001:db8::/1000",
    "2001:db8::1/32",
    "::1/0",
    "[::1]",
    "::ffff:10.0.0.0/104",
    "localhost",
    "10.0.0.0:8583",
];

#[test]
fn no_networks() -> Result<(), Fail> {
    for text in NO_NETWORKS {
        check(Network::from_text(*text).is_none(), *text)?;
    }
    Ok(())
}

//! The members of a cluster.
ghost use Rattle.std.specs.Prelude.{◌≡◌, ℕ, List, IsTrue, IsFalse, IfOk, IfSome, IsNone, string_bytes};
ghost use Rattle.std.specs.List.{list_all};
ghost use Rattle.std.specs.declared.net.ipv6_addr.Ipv6Addr.{Ipv6Addr};
ghost use Rattle.std.specs.Net.Grammar.{IsIpv6Text};
ghost use Rattle.iso_etcd.specs.Members.{is_host_byte, is_host, leads, IsPort, IsPortBehind, IsNamed, IsBracketed, IsHostAndPort, IsMember};

use crate::cut::cut;
use crate::name::is_from_to;
use std::alloc::{AllocError, Global};
use std::net::Ipv6Addr;

/// The most bytes of a host's name.
pub const MOST_HOST: usize = 253;

/// A member: a host and a port.
#[derive(Debug, Drop)]
pub struct Member {
    /// The host, by its name or its address; an address of IPv6 without brackets.
    pub host: String,
    /// The port.
    pub port: u16,
    /// Both, as they are written.
    pub text: String,
}

/// Whether a byte may be in the name of a host, or in an address of IPv4.
fn is_host_byte(byte: u8) -> bool
    ensures { result ≡ is_host_byte byte }
{
    is_from_to(b'0', b'9', byte)
        || is_from_to(b'A', b'Z', byte)
        || is_from_to(b'a', b'z', byte)
        || byte == b'-'
        || byte == b'.'
        || byte == b'_'
}

/// Whether all bytes may be in the name of a host.
fn are_host_bytes(text: &[u8]) -> bool
    ensures { result ≡ list_all is_host_byte text.now }
{
    text.iter().all(|byte| is_host_byte(*byte))
}

/// Whether a text may be the name of a host, or an address of IPv4.
fn is_host(text: &[u8]) -> bool
    ensures { result ≡ is_host text.now }
{
    1 <= text.len() && text.len() <= MOST_HOST && are_host_bytes(text)
}

/// Whether a text begins as a port does, with a digit from 1 to 9.
fn leads(text: &[u8]) -> bool
    ensures { result ≡ leads text.now }
{
    matches!(text, [b'1'..=b'9', ..])
}

/// The port that a text writes.
fn port_of(text: &str) -> Option<u16>
    ensures found { IfSome result (IsPort text.now) }
    ensures none { IsNone result → (port : ℕ) → IsPort text.now port → ⊥ }
{
    if !leads(text.as_bytes()) {
        return None;
    }
    match text.parse::<u16>() {
        Ok(port) => Some(port),
        Err(_) => None,
    }
}

/// Whether a text is an address of IPv6.
fn is_address(text: &str) -> bool
    ensures found { IsTrue result → (address : Ipv6Addr) × IsIpv6Text text.now address }
    ensures none { IsFalse result → (address : Ipv6Addr) → IsIpv6Text text.now address → ⊥ }
{
    match text.parse::<Ipv6Addr>() {
        Ok(_) => true,
        Err(_) => false,
    }
}

/// A member, by its parts.
fn member_by(alloc: Global, text: &str, host: &str, port: u16) -> Result<Member, AllocError>
    ensures { IfOk result (λ m. (string_bytes m.host ≡ host.now) × (m.port ≡ port)
        × (string_bytes m.text ≡ text.now)) }
{
    Ok(Member {
        host: String::from_str(alloc, host)?,
        port,
        text: String::from_str(alloc, text)?,
    })
}

/// The host and the port of a member that is named, or has an address of IPv4.
fn named(text: &str) -> Option<(&str, u16)>
    ensures found { IfSome result (λ p. IsNamed text.now p.0.now p.1) }
    ensures none { IsNone result → (host : List ℕ) (port : ℕ) → IsNamed text.now host port → ⊥ }
{
    let (host, port) = cut(text, ':')?;
    if !is_host(host.as_bytes()) {
        return None;
    }
    Some((host, port_of(port)?))
}

/// The port behind a colon at the front.
fn port_behind(text: &str) -> Option<u16>
    ensures found { IfSome result (IsPortBehind text.now) }
    ensures none { IsNone result → (port : ℕ) → IsPortBehind text.now port → ⊥ }
{
    let (front, port) = cut(text, ':')?;
    if !front.is_empty() {
        return None;
    }
    port_of(port)
}

/// The host and the port of a text behind an opening bracket.
fn bracketed(text: &str) -> Option<(&str, u16)>
    ensures found { IfSome result (λ p. IsBracketed text.now p.0.now p.1) }
    ensures none { IsNone result → (host : List ℕ) (port : ℕ) → IsBracketed text.now host port → ⊥ }
{
    let (host, rest) = cut(text, ']')?;
    if !is_address(host) {
        return None;
    }
    match port_behind(rest) {
        Some(port) => Some((host, port)),
        None => None,
    }
}

/// The host and the port of a member. Where the text has an opening bracket, it stands at the front.
fn host_and_port(text: &str) -> Option<(&str, u16)>
    ensures found { IfSome result (λ p. IsHostAndPort text.now p.0.now p.1) }
    ensures none { IsNone result → (host : List ℕ) (port : ℕ) → IsHostAndPort text.now host port
        → ⊥ }
{
    match cut(text, '[') {
        Some((front, rest)) if front.is_empty() => bracketed(rest),
        Some(_) => None,
        None => named(text),
    }
}

/// The member that a text writes.
pub fn member_of(alloc: Global, text: &str) -> Result<Option<Member>, AllocError>
    // The member that is found has the host and the port that the text writes, and the text itself.
    ensures found { IfOk result (λ o. IfSome o (IsMember text.now)) }
    // `None` comes only where the text writes no host and port.
    ensures none { IfOk result
        (λ o. IsNone o → (host : List ℕ) (port : ℕ) → IsHostAndPort text.now host port → ⊥) }
{
    match host_and_port(text) {
        Some((host, port)) => Ok(Some(member_by(alloc, text, host, port)?)),
        None => Ok(None),
    }
}

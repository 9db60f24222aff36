//! What a request asks for.
ghost use Rattle.std.specs.Prelude.{◌≡◌, ◌↔◌, ◌++◌, IsTrue, Some, None, codes, option_map};
ghost use Rattle.iso_site.specs.Asked.{IsAskedAt, IsOwnHost, IsOwnOrigin, IsLetIn, IsNoOther, IsRead, IsJson, origin_of, path_of};

use crate::call::Call;
use crate::refusal::Refusal;

/// What the head of a request says, as far as it decides.
#[derive(Clone, Copy)]
pub struct Heads<'a> {
    /// The method.
    pub method: &'a [u8],
    /// The path of its target, without a query.
    pub path: &'a [u8],
    /// The host that it names.
    pub host: &'a [u8],
    /// The page that makes it, where a browser tells one.
    pub origin: Option<&'a [u8]>,
    /// The type of what it brings; empty where it tells none.
    pub content_type: &'a [u8],
}

/// What a request asks for.
#[derive(Clone, Copy, Debug, PartialEq, Eq)]
pub enum Asked {
    /// The page.
    Page,
    /// What a call answers.
    Call(Call),
    /// Nothing that is answered.
    Refused(Refusal),
}

/// Whether an address is this name with this port behind it.
fn is_at(name: &[u8], port: &[u8], address: &[u8]) -> bool
    ensures { IsTrue result ↔ (address.now ≡ name.now ++ port.now) }
{
    match address.strip_prefix(name) {
        Some(rest) => rest == port,
        None => false,
    }
}

/// Whether a host is this machine's, at this port.
fn is_own_host(port: &[u8], host: &[u8]) -> bool
    ensures { IsTrue result ↔ IsOwnHost port.now host.now }
{
    is_at(b"127.0.0.1:", port, host)
        || is_at(b"localhost:", port, host)
        || is_at(b"[::1]:", port, host)
}

/// Whether a page is this one, at this port.
fn is_own_origin(port: &[u8], origin: &[u8]) -> bool
    ensures { IsTrue result ↔ IsOwnOrigin port.now origin.now }
{
    is_at(b"http://127.0.0.1:", port, origin)
        || is_at(b"http://localhost:", port, origin)
        || is_at(b"http://[::1]:", port, origin)
}

/// Whether a method only reads.
fn is_read(method: &[u8]) -> bool
    ensures { IsTrue result ↔ IsRead method.now }
{
    method == b"GET".as_slice() || method == b"HEAD".as_slice()
}

/// Whether what a request brings is said to be JSON.
fn is_json(content_type: &[u8]) -> bool
    ensures { IsTrue result ↔ IsJson content_type.now }
{
    content_type == b"application/json".as_slice()
}

/// Why a host or a page is refused, at this port.
fn stranger(port: &[u8], host: &[u8], origin: Option<&[u8]>) -> Option<Refusal>
    ensures host { ¬ (IsOwnHost port.now host.now) → result ≡ Some Refusal.ForeignHost }
    ensures origin { IsOwnHost port.now host.now
        → ¬ (IsNoOther port.now (option_map (λ o. o.now) origin.entry))
        → result ≡ Some Refusal.ForeignOrigin }
    ensures none { IsOwnHost port.now host.now
        → IsNoOther port.now (option_map (λ o. o.now) origin.entry) → result ≡ None }
{
    if !is_own_host(port, host) {
        return Some(Refusal::ForeignHost);
    }
    match origin {
        Some(origin) if !is_own_origin(port, origin) => Some(Refusal::ForeignOrigin),
        _ => None,
    }
}

/// What is asked for at a path where a call is made.
fn called(call: Call, method: &[u8], content_type: &[u8]) -> Asked
    ensures { IsAskedAt (path_of call) method.now content_type.now result }
{
    if method != b"POST".as_slice() {
        return Asked::Refused(Refusal::NotAllowed);
    }
    if !is_json(content_type) {
        return Asked::Refused(Refusal::NotJson);
    }
    Asked::Call(call)
}

/// What is asked for at a path, by the method and the type of what the request brings.
fn asked_at(path: &[u8], method: &[u8], content_type: &[u8]) -> Asked
    ensures { IsAskedAt path.now method.now content_type.now result }
{
    if path == b"/".as_slice() && is_read(method) {
        return Asked::Page;
    }
    if path == b"/".as_slice() {
        return Asked::Refused(Refusal::NotAllowed);
    }
    match Call::at(path) {
        Some(call) => called(call, method, content_type),
        None => Asked::Refused(Refusal::NotFound),
    }
}

impl Asked {
    /// What a request asks for that comes to this port, whose digits are given. What is wrong with the host is told first, then
    /// with the page that makes it, the path, the method, and the type of what it brings.
    pub fn of_heads(port: &[u8], heads: Heads<'_>) -> Asked
        // A request that names another host than 127.0.0.1, localhost or [::1] with this port is
        // refused as such, whatever else it says.
        ensures host { ¬ (IsOwnHost port.now heads.entry.host.now)
            → result ≡ Asked.Refused Refusal.ForeignHost }
        // A request that names this host and port, but that another page makes, is refused as such.
        ensures origin { IsOwnHost port.now heads.entry.host.now
            → ¬ (IsNoOther port.now (origin_of heads.entry))
            → result ≡ Asked.Refused Refusal.ForeignOrigin }
        // A request that is let in asks for the page by `/` and GET or HEAD, or for a call by its
        // path, POST and JSON; else what is wrong is told: the path, the method or the type.
        ensures asked { IsLetIn port.now heads.entry
            → IsAskedAt heads.entry.path.now heads.entry.method.now heads.entry.content_type.now
            result }
    {
        match stranger(port, heads.host, heads.origin) {
            Some(refusal) => Asked::Refused(refusal),
            None => asked_at(heads.path, heads.method, heads.content_type),
        }
    }
}

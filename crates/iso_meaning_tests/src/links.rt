//! Documents of links, as an operator writes them.

use super::checks::is_shown;
use iso_fakes::{check, check_of};
use iso_links::{Limits, LinksFault, Terms, read_links};
use iso_wire::Header;
use std::alloc::{AllocError, Global};
use std::net::IpAddr;
use std::test::Fail;

/// A link with all its members.
const ALL: &str =
    r#"{"links":[{"name":"pos","listen":"0.0.0.0:8583","table":"bcd87","header":"binary2","skip":5,
 "networks":["10.0.0.0/8","2001:db8::/32"],"acquirers":["12345","00000000006"],
 "limits":{"peers":7,"idle":8,"frame":9,"unread":10,"waiting":11}}]}"#;

/// The terms of the one link of a document.
fn only_link(alloc: Global, text: &str) -> Result<Terms, LinksFault> {
    let mut links = read_links(alloc, text.as_bytes())?;
    match links.pop() {
        Some(terms) => Ok(terms),
        None => Err(LinksFault::Count(0)),
    }
}

/// Whether the terms are those of `ALL`, but for its lists and limits.
fn is_of_all(terms: &Terms) -> bool {
    terms.name.as_str() == "pos"
        && terms.address.port() == 8583
        && terms.table.as_str() == "bcd87"
        && terms.header == Header::Binary2
        && terms.skip == 5
}

/// Whether these are the limits of `ALL`.
fn are_of_all(limits: &Limits) -> bool {
    *limits
        == Limits {
            peers: 7,
            idle: 8,
            frame: 9,
            unread: 10,
            waiting: 11,
            share: 65_536,
        }
}

/// An acquirer, and whether the peers of `ALL` may speak for it.
const ACQUIRERS: &[(u64, bool)] = &[(12345, true), (6, true), (0, false), (1234, false)];

/// Whether the peers may speak for just those.
fn speaks_for_its_own(terms: &Terms) -> bool {
    for (acquirer, wanted) in ACQUIRERS {
        if terms.speaks_for(*acquirer) != *wanted {
            return false;
        }
    }
    true
}

/// Whether a peer of this address may connect.
fn lets_connect(terms: &Terms, address: &str) -> bool {
    match address.parse::<IpAddr>() {
        Ok(address) => terms.lets_connect(address),
        Err(_) => false,
    }
}

/// Whether peers of the networks of `ALL` may connect, and another may not.
fn lets_its_own_connect(terms: &Terms) -> bool {
    lets_connect(terms, "10.1.1.1")
        && lets_connect(terms, "2001:db8::1")
        && !lets_connect(terms, "127.0.0.1")
}

/// That the terms are those of `ALL`.
fn check_all(terms: &Terms) -> Result<(), Fail> {
    check(is_of_all(terms), "its members")?;
    check(are_of_all(&terms.limits), "its limits")?;
    check(speaks_for_its_own(terms), "its acquirers")?;
    check(lets_its_own_connect(terms), "its networks")
}

#[test]
fn a_link_with_all_its_members(rt: HostRuntime) -> Result<(), Fail> {
    let terms = only_link(rt.alloc(), ALL)?;
    check_all(&terms)
}

/// A link with no more members than it has to have.
const LEAST: &str =
    r#"{"links":[{"name":"atm","listen":"[::1]:0","table":"ascii87","header":"ascii4"}]}"#;

/// That the terms are those of `LEAST`.
fn check_least(terms: &Terms) -> Result<(), Fail> {
    let is_default = terms.skip == 0 && terms.limits == Limits::DEFAULT;
    check(is_default, "its members and limits")?;
    let lets_all = terms.networks.is_empty() && lets_connect(terms, "203.0.113.9");
    check(lets_all, "any network")?;
    let speaks_for_all = terms.acquirers.is_empty() && terms.speaks_for(99_999_999_999);
    check(speaks_for_all, "any acquirer")
}

#[test]
fn a_link_with_its_defaults(rt: HostRuntime) -> Result<(), Fail> {
    let terms = only_link(rt.alloc(), LEAST)?;
    check_least(&terms)
}

/// A document, and what is told of it.
struct Refused {
    text: &'static str,
    told: &'static str,
}

/// What is wrong with the one link of a document whose other members are good.
macro_rules! refused {
    ($members:literal, $told:literal) => {
        Refused { text: $members, told: $told }
    };
}

const REFUSED: &[Refused] = &[
    refused!("{\"links\":\n[}", "the text is no JSON: line 2, column 2"),
    refused!(
        "[]",
        "the document is to be an object of one array, {\"links\":[..]}"
    ),
    refused!(
        "{\"links\":{}}",
        "the document is to be an object of one array, {\"links\":[..]}"
    ),
    refused!(
        "{\"links\":[],\"name\":1}",
        "the document is to be an object of one array, {\"links\":[..]}"
    ),
    refused!("{\"links\":[]}", "there are to be 1 to 64 links, and not 0"),
    refused!("{\"links\":[1]}", "link 1: it is to be an object"),
    refused!(
        "{\"links\":[{}]}",
        "link 1: \"name\" is to be 1 to 32 letters, digits, dots, dashes or underscores"
    ),
    refused!(
        "{\"links\":[{\"port\":1}]}",
        "link 1: no member is called \"port\""
    ),
];

#[test]
fn refused_documents(rt: HostRuntime) -> Result<(), Fail> {
    for row in REFUSED {
        check_of(is_told(rt.alloc(), row.text, row.told), row.text, row.told)?;
    }
    Ok(())
}

/// Whether that is told of a document; nothing of one that is good.
fn is_told(alloc: Global, text: &str, told: &str) -> bool {
    match read_links(alloc, text.as_bytes()) {
        Ok(_) => told.is_empty(),
        Err(fault) => is_shown(alloc, &fault, told),
    }
}

/// What stands in place of a member of a link, behind good ones, and the member that is told.
const MEMBERS: &[(&str, &str)] = &[
    ("\"name\":\"\"", "name"),
    ("\"name\":\"a b\"", "name"),
    ("\"name\":\"abcdefghijklmnopqrstuvwxyz0123456\"", "name"),
    ("\"name\":7", "name"),
    ("\"listen\":\"localhost:8583\"", "listen"),
    ("\"listen\":\"127.0.0.1\"", "listen"),
    ("\"listen\":\"127.0.0.1:65536\"", "listen"),
    ("\"listen\":\"::1:8583\"", "listen"),
    ("\"listen\":8583", "listen"),
    ("\"table\":\"\"", "table"),
    ("\"table\":null", "table"),
    ("\"header\":\"ascii5\"", "header"),
    ("\"header\":2", "header"),
    ("\"skip\":256", "skip"),
    ("\"skip\":-1", "skip"),
    ("\"skip\":1.0", "skip"),
    ("\"skip\":\"5\"", "skip"),
    ("\"networks\":[]", "networks"),
    ("\"networks\":\"10.0.0.0/8\"", "networks"),
    ("\"networks\":[\"10.0.0.0/8\",\"10.0.0.1/8\"]", "networks"),
    ("\"networks\":[7]", "networks"),
    ("\"acquirers\":[]", "acquirers"),
    ("\"acquirers\":[12345]", "acquirers"),
    ("\"acquirers\":[\"\"]", "acquirers"),
    ("\"acquirers\":[\"123456789012\"]", "acquirers"),
    ("\"acquirers\":[\"12a\"]", "acquirers"),
    ("\"limits\":{\"peers\":0}", "peers"),
    ("\"limits\":{\"peers\":65001}", "peers"),
    ("\"limits\":{\"idle\":0}", "idle"),
    ("\"limits\":{\"idle\":604801}", "idle"),
    ("\"limits\":{\"frame\":0}", "frame"),
    ("\"limits\":{\"unread\":\"30\"}", "unread"),
    ("\"limits\":{\"waiting\":0}", "waiting"),
    ("\"limits\":{\"waiting\":1073741825}", "waiting"),
];

/// Whether the member of the second link is what is wrong with the document.
fn is_blamed(alloc: Global, text: &str, name: &str) -> bool {
    match read_links(alloc, text.as_bytes()) {
        Err(LinksFault::Member { link, member }) => link == 2 && member.name() == name,
        _ => false,
    }
}

/// A document of two links, the second with this behind its good members.
fn with_member(alloc: Global, text: &str) -> Result<String, AllocError> {
    format!(in alloc;
        "{{\"links\":[{{\"name\":\"a\",\"listen\":\"127.0.0.1:1\",\"table\":\"ascii87\",\"header\":\"ascii4\"}},{{\"name\":\"b\",\"listen\":\"127.0.0.1:2\",\"table\":\"ascii87\",\"header\":\"ascii4\",{text}}}]}}"
    )
}

/// Whether the member is what is wrong with a second link that has this in its place.
fn blames(alloc: Global, text: &str, name: &str) -> bool {
    match with_member(alloc, text) {
        Ok(document) => is_blamed(alloc, &document, name),
        Err(_) => false,
    }
}

#[test]
fn refused_members(rt: HostRuntime) -> Result<(), Fail> {
    for (text, name) in MEMBERS {
        check(blames(rt.alloc(), *text, *name), *text)?;
    }
    Ok(())
}

/// Two links: the name and the port of each, and what is told of them.
const PAIRS: &[(&str, u16, &str, u16, &str)] = &[
    ("a", 1, "b", 2, ""),
    ("a", 1, "a", 2, "link 2: its name is that of link 1"),
    ("a", 1, "b", 1, "link 2: its address is that of link 1"),
];

/// A document of two links.
fn pair_of(
    alloc: Global,
    one: &str,
    first: u16,
    other: &str,
    second: u16,
) -> Result<String, AllocError> {
    format!(in alloc;
        "{{\"links\":[{{\"name\":\"{one}\",\"listen\":\"127.0.0.1:{first}\",\"table\":\"ascii87\",\"header\":\"ascii4\"}},{{\"name\":\"{other}\",\"listen\":\"127.0.0.1:{second}\",\"table\":\"bcd87\",\"header\":\"bcd2\"}}]}}"
    )
}

/// Whether that is told of a document that was made.
fn is_told_of_made(alloc: Global, text: Result<String, AllocError>, told: &str) -> bool {
    match text {
        Ok(text) => is_told(alloc, &text, told),
        Err(_) => false,
    }
}

#[test]
fn links_apart(rt: HostRuntime) -> Result<(), Fail> {
    for (one, first, other, second, wanted) in PAIRS {
        let text = pair_of(rt.alloc(), *one, *first, *other, *second);
        check_of(is_told_of_made(rt.alloc(), text, *wanted), *other, *wanted)?;
    }
    Ok(())
}

/// Appends so many links.
fn append_links(count: usize, text: &mut String) -> Result<(), AllocError> {
    for place in 0..count {
        let comma = if place == 0 { "" } else { "," };
        write!(
            text,
            "{comma}{{\"name\":\"l{place}\",\"listen\":\"127.0.0.1:{place}\",\"table\":\"ascii87\",\"header\":\"ascii4\"}}"
        )?;
    }
    Ok(())
}

/// A document of so many links.
fn many(alloc: Global, count: usize) -> Result<String, AllocError> {
    let mut text = String::from_str(alloc, "{\"links\":[")?;
    append_links(count, &mut text)?;
    text.push_str("]}")?;
    Ok(text)
}

/// Whether a document of so many links is read as so many.
fn are_read(alloc: Global, count: usize) -> bool {
    match many(alloc, count) {
        Ok(text) => has_links(alloc, &text, count),
        Err(_) => false,
    }
}

/// Whether the document is read as one of so many links.
fn has_links(alloc: Global, text: &str, count: usize) -> bool {
    match read_links(alloc, text.as_bytes()) {
        Ok(links) => links.len() == count,
        Err(_) => false,
    }
}

#[test]
fn how_many_links(rt: HostRuntime) -> Result<(), Fail> {
    check(are_read(rt.alloc(), 64), "64 links")?;
    let told = "there are to be 1 to 64 links, and not 65";
    check(
        is_told_of_made(rt.alloc(), many(rt.alloc(), 65), told),
        told,
    )
}

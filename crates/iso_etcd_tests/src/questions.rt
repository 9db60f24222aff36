//! What is asked of etcd, byte for byte.

use iso_etcd::{
    FIRST_PLACE, Name, active_key, batch_key, end_key, grant_text, heading_key, lease_text,
    login_text, look_text, put_leased_text, put_text, range_text,
};
use iso_fakes::check;
use std::alloc::{AllocError, Global};
use std::test::Fail;

/// The journal of the cases.
fn day(alloc: Global) -> Result<Name, Fail> {
    Ok(Name::from_text(alloc, "day")?.ok_or("no name")?)
}

/// Whether a key is this.
fn is_key(key: Result<Vec<u8>, AllocError>, wanted: &str) -> bool {
    match key {
        Ok(key) => key.as_slice() == wanted.as_bytes(),
        Err(_) => false,
    }
}

/// Whether a text is this.
fn is_text(text: Result<String, AllocError>, wanted: &str) -> bool {
    match text {
        Ok(text) => text.as_str() == wanted,
        Err(_) => false,
    }
}

/// Places, and the keys of their batches.
const PLACES: &[(u32, &str)] = &[
    (FIRST_PLACE, "day/batch/0000000001"),
    (42, "day/batch/0000000042"),
    (u32::MAX, "day/batch/4294967295"),
];

/// Checks the keys of batches.
fn check_places(alloc: Global, name: &Name) -> Result<(), Fail> {
    for (place, wanted) in PLACES {
        check(is_key(batch_key(alloc, name, *place), wanted), wanted)?;
    }
    Ok(())
}

#[test]
fn keys_have_ten_digits(rt: HostRuntime) -> Result<(), Fail> {
    let name = day(rt.alloc())?;
    check_places(rt.alloc(), &name)
}

/// Checks the keys of what there is once.
fn check_keys(alloc: Global, name: &Name) -> Result<(), Fail> {
    check(is_key(end_key(alloc, name), "day/batch0"), "end")?;
    check(is_key(heading_key(alloc, name), "day/heading"), "heading")?;
    check(is_key(active_key(alloc, name), "day/active"), "active")
}

#[test]
fn keys_of_what_there_is_once(rt: HostRuntime) -> Result<(), Fail> {
    let name = day(rt.alloc())?;
    check_keys(rt.alloc(), &name)
}

/// Texts, and whether each is a name.
const NAMES: &[(&str, bool)] = &[
    ("day", true),
    ("2026-11.a_b", true),
    (
        "0123456789abcdefghijklmnopqrstuvwxyzABCDEFGHIJKLMNOPQRSTUVWXYZ-_",
        true,
    ),
    (
        "0123456789abcdefghijklmnopqrstuvwxyzABCDEFGHIJKLMNOPQRSTUVWXYZ-_.",
        false,
    ),
    ("", false),
    ("a/b", false),
    ("a b", false),
    ("é", false),
];

/// Whether a text is a name, or isn't, as it is wanted.
fn is_as_wanted(alloc: Global, text: &str, wanted: bool) -> bool {
    match Name::from_text(alloc, text) {
        Ok(name) => name.is_some() == wanted,
        Err(_) => false,
    }
}

#[test]
fn names(rt: HostRuntime) -> Result<(), Fail> {
    for (text, wanted) in NAMES {
        check(is_as_wanted(rt.alloc(), text, *wanted), text)?;
    }
    Ok(())
}

/// What puts a batch.
const BATCH: &str =
    "{\"compare\":[{\"create_revision\":\"0\",\"key\":\"ZGF5L2JhdGNoLzAwMDAwMDAwMDE=\",\"result\":\"EQUAL\",\"target\":\"CREATE\"}],\"failure\":[{\"request_range\":{\"key\":\"ZGF5L2JhdGNoLzAwMDAwMDAwMDE=\"}}],\"success\":[{\"request_put\":{\"key\":\"ZGF5L2JhdGNoLzAwMDAwMDAwMDE=\",\"value\":\"b25l\"}}]}";

/// What puts who is active, with a lease.
const LEASED: &str =
    "{\"compare\":[{\"create_revision\":\"0\",\"key\":\"ZGF5L2FjdGl2ZQ==\",\"result\":\"EQUAL\",\"target\":\"CREATE\"}],\"failure\":[{\"request_range\":{\"key\":\"ZGF5L2FjdGl2ZQ==\"}}],\"success\":[{\"request_put\":{\"key\":\"ZGF5L2FjdGl2ZQ==\",\"lease\":7587848390082183223,\"value\":\"YW5uIDc=\"}}]}";

#[test]
fn transactions(rt: HostRuntime) -> Result<(), Fail> {
    let alloc = rt.alloc();
    let text = put_text(alloc, b"day/batch/0000000001", b"one");
    check(is_text(text, BATCH), "a batch")?;
    let text = put_leased_text(alloc, b"day/active", b"ann 7", 7_587_848_390_082_183_223);
    check(is_text(text, LEASED), "with a lease")
}

/// What asks for a page.
const PAGE: &str =
    "{\"key\":\"ZGF5L2JhdGNoLzAwMDAwMDAwMDE=\",\"limit\":4,\"range_end\":\"ZGF5L2JhdGNoMA==\"}";

#[test]
fn reads(rt: HostRuntime) -> Result<(), Fail> {
    let alloc = rt.alloc();
    let text = range_text(alloc, b"day/batch/0000000001", b"day/batch0", 4);
    check(is_text(text, PAGE), "a page")?;
    let text = look_text(alloc, b"day/active");
    check(is_text(text, "{\"key\":\"ZGF5L2FjdGl2ZQ==\"}"), "a value")
}

#[test]
fn leases_and_users(rt: HostRuntime) -> Result<(), Fail> {
    let alloc = rt.alloc();
    check(is_text(grant_text(alloc, 10), "{\"TTL\":10}"), "grant")?;
    check(
        is_text(lease_text(alloc, 12_345), "{\"ID\":12345}"),
        "lease",
    )?;
    let text = login_text(alloc, "ann", "a\"b");
    check(
        is_text(text, "{\"name\":\"ann\",\"password\":\"a\\\"b\"}"),
        "login",
    )
}

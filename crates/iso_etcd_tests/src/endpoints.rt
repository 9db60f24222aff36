//! Where a journal is kept, as it is written.

use iso_etcd::{Endpoints, Member};
use iso_fakes::check;
use std::alloc::{AllocError, Global};
use std::test::Fail;

/// Adds the user, where there is one.
fn add_user(shown: &mut String, endpoints: &Endpoints) -> Result<(), AllocError> {
    match &endpoints.user {
        Some(user) => write!(shown, " {}:{}", user.name.as_str(), user.password.as_str()),
        None => Ok(()),
    }
}

/// Adds the members.
fn add_members(shown: &mut String, members: &[Member]) -> Result<(), AllocError> {
    for member in members {
        write!(shown, " {} {}", member.host.as_str(), member.port)?;
    }
    Ok(())
}

/// Adds where a journal is kept.
fn add_endpoints(shown: &mut String, endpoints: &Endpoints) -> Result<(), AllocError> {
    shown.push_str(endpoints.name.as_str())?;
    add_user(shown, endpoints)?;
    add_members(shown, endpoints.members.as_slice())
}

/// Adds what a text says.
fn add_said(shown: &mut String, alloc: Global, text: &str) -> Result<(), AllocError> {
    match Endpoints::from_text(alloc, text) {
        Ok(endpoints) => add_endpoints(shown, &endpoints),
        Err(fault) => write!(shown, "{fault:?}"),
    }
}

/// Whether a text says this, as it is shown.
fn says(alloc: Global, text: &str, wanted: &str) -> bool {
    let mut shown = String::new(alloc);
    match add_said(&mut shown, alloc, text) {
        Ok(()) => shown.as_str() == wanted,
        Err(_) => false,
    }
}

/// Checks what texts say.
fn check_texts(alloc: Global, texts: &[(&str, &str)]) -> Result<(), Fail> {
    for (text, wanted) in texts {
        check(says(alloc, text, wanted), text)?;
    }
    Ok(())
}

/// Texts that name a place, and what each says.
const GOOD_ONES: &[(&str, &str)] = &[
    ("etcd://127.0.0.1:2379/day", "day 127.0.0.1 2379"),
    (
        "etcd://a:1,b.example:65535,c-2_x:3/x.y",
        "x.y a 1 b.example 65535 c-2_x 3",
    ),
    (
        "etcd://[::1]:2379,[2001:db8::7]:9/day",
        "day ::1 2379 2001:db8::7 9",
    ),
    ("etcd://ann:a:b,c@h:1/day", "day ann:a:b,c h 1"),
    (
        "etcd://a:1,a:2,a:3,a:4,a:5,a:6,a:7,a:8,a:9,a:10,a:11,a:12,a:13,a:14,a:15,a:16/d",
        "d a 1 a 2 a 3 a 4 a 5 a 6 a 7 a 8 a 9 a 10 a 11 a 12 a 13 a 14 a 15 a 16",
    ),
];

#[test]
fn good_ones(rt: HostRuntime) -> Result<(), Fail> {
    check_texts(rt.alloc(), GOOD_ONES)
}

/// Texts that name no place, and the fault of each.
const BAD_ONES: &[(&str, &str)] = &[
    ("", "Scheme"),
    ("http://a:1/day", "Scheme"),
    ("etcd:/a:1/day", "Scheme"),
    ("etcd://a:1", "NoName"),
    ("etcd://a:1/", "Name"),
    ("etcd://a:1/day/two", "Name"),
    ("etcd:///day", "Member"),
    ("etcd://a/day", "Member"),
    ("etcd://a:/day", "Member"),
    ("etcd://a:0/day", "Member"),
    ("etcd://a:02379/day", "Member"),
    ("etcd://a:+1/day", "Member"),
    ("etcd://a:65536/day", "Member"),
    ("etcd://:1/day", "Member"),
    ("etcd://a b:1/day", "Member"),
    ("etcd://a:1,/day", "Member"),
    ("etcd://::1:1/day", "Member"),
    ("etcd://[::1]/day", "Member"),
    ("etcd://[::1:1/day", "Member"),
    ("etcd://x[::1]:1/day", "Member"),
    ("etcd://[127.0.0.1]:1/day", "Member"),
    ("etcd://ann@a:1/day", "User"),
    ("etcd://:p@a:1/day", "User"),
    ("etcd://ann:@a:1/day", "User"),
    (
        "etcd://a:1,a:2,a:3,a:4,a:5,a:6,a:7,a:8,a:9,a:10,a:11,a:12,a:13,a:14,a:15,a:16,a:17/d",
        "TooMany",
    ),
];

#[test]
fn bad_ones(rt: HostRuntime) -> Result<(), Fail> {
    check_texts(rt.alloc(), BAD_ONES)
}

//! What etcd's answers tell: bodies as etcd 3.4.23 sends them, and others.

use iso_etcd::{
    Append, Cause, Doubt, Loss, Name, Page, PutAnswer, Response, append_of, is_token_refused,
    login_of, read_kept, read_lease, read_page, read_put, read_token, read_value,
};
use iso_fakes::check;
use std::alloc::{AllocError, Global};
use std::fmt::Debug;
use std::test::Fail;

const KEY: &[u8] = b"day/batch/0000000001";

const PUT: &str =
    "{\"header\":{\"cluster_id\":\"17300438976491492131\",\"member_id\":\"13668033151171901709\",\"revision\":\"2\",\"raft_term\":\"2\"},\"succeeded\":true,\"responses\":[{\"response_put\":{\"header\":{\"revision\":\"2\"}}}]}";

const STANDS: &str =
    "{\"header\":{\"revision\":\"2\",\"raft_term\":\"2\"},\"responses\":[{\"response_range\":{\"header\":{\"revision\":\"2\"},\"kvs\":[{\"key\":\"ZGF5L2JhdGNoLzAwMDAwMDAwMDE=\",\"create_revision\":\"2\",\"mod_revision\":\"2\",\"version\":\"1\",\"value\":\"b25l\"}],\"count\":\"1\"}}]}";

const EMPTY: &str =
    "{\"responses\":[{\"response_range\":{\"kvs\":[{\"key\":\"ZGF5L2JhdGNoLzAwMDAwMDAwMDE=\",\"version\":\"1\"}],\"count\":\"1\"}}]}";

const ANOTHER_KEY: &str =
    "{\"responses\":[{\"response_range\":{\"kvs\":[{\"key\":\"ZGF5L2JhdGNoLzAwMDAwMDAwMDI=\",\"value\":\"b25l\"}]}}]}";

const BAD_BASE64: &str =
    "{\"responses\":[{\"response_range\":{\"kvs\":[{\"key\":\"ZGF5L2JhdGNoLzAwMDAwMDAwMDE=\",\"value\":\"b25\"}]}}]}";

const NOTHING: &str =
    "{\"header\":{\"revision\":\"2\"},\"responses\":[{\"response_range\":{\"header\":{\"revision\":\"2\"}}}]}";

const NO_SPACE: &str =
    "{\"error\":\"etcdserver: mvcc: database space exceeded\",\"message\":\"etcdserver: mvcc: database space exceeded\",\"code\":8}";

const TOO_MANY: &str =
    "{\"error\":\"etcdserver: too many requests\",\"message\":\"etcdserver: too many requests\",\"code\":8}";

const BAD_TOKEN: &str =
    "{\"error\":\"etcdserver: invalid auth token\",\"message\":\"etcdserver: invalid auth token\",\"code\":16}";

const WRONG_PASSWORD: &str =
    "{\"error\":\"etcdserver: authentication failed, invalid user ID or password\",\"message\":\"etcdserver: authentication failed, invalid user ID or password\",\"code\":3}";

/// Whether a value is shown so.
pub fn is_shown(alloc: Global, value: &impl Debug, wanted: &str) -> bool {
    match format!(in alloc; "{value:?}") {
        Ok(shown) => shown.as_str() == wanted,
        Err(_) => false,
    }
}

/// Whether a body tells this of a value that was to be put.
fn tells(alloc: Global, body: &[u8], wanted: &str) -> bool {
    match read_put(alloc, KEY, body) {
        Ok(Some(PutAnswer::Put)) => wanted == "put",
        Ok(Some(PutAnswer::Stands(value))) => is_shown(alloc, &value, wanted),
        Ok(None) => wanted == "nothing",
        Err(_) => false,
    }
}

/// Answers to transactions: a name, the body, and what it tells.
const ANSWERS: &[(&str, &str, &str)] = &[
    ("put", PUT, "put"),
    ("stands", STANDS, "[111, 110, 101]"),
    ("an empty value is left out", EMPTY, "[]"),
    ("succeeded is left out", "{}", "nothing"),
    ("succeeded is false", "{\"succeeded\":false}", "nothing"),
    ("succeeded is a text", "{\"succeeded\":\"true\"}", "nothing"),
    ("nothing stands, and nothing was put", NOTHING, "nothing"),
    ("another key", ANOTHER_KEY, "nothing"),
    ("bad base64", BAD_BASE64, "nothing"),
    ("cut", "{\"succeeded\":true", "nothing"),
    ("no JSON", "Not Found\n", "nothing"),
    ("empty", "", "nothing"),
    ("a list", "[true]", "nothing"),
];

#[test]
fn answers_to_transactions(rt: HostRuntime) -> Result<(), Fail> {
    for (name, body, wanted) in ANSWERS {
        check(tells(rt.alloc(), body.as_bytes(), wanted), name)?;
    }
    check(
        tells(
            rt.alloc(),
            b"{\"succeeded\":true,\"a\":\"\xff\"}",
            "nothing",
        ),
        "no text",
    )
}

/// A response.
fn response(alloc: Global, status: u16, body: &str) -> Option<Response> {
    match Vec::from_slice(alloc, body.as_bytes()) {
        Ok(body) => Some(Response { status, body }),
        Err(_) => None,
    }
}

/// Whether an append whose response is this comes to that.
fn comes_to(alloc: Global, status: u16, body: &str, wanted: &str) -> bool {
    match response(alloc, status, body) {
        Some(response) => is_shown(alloc, &append_of(alloc, KEY, b"one", Ok(response)), wanted),
        None => false,
    }
}

/// Answers to an append: a name, the status, the body, and what the append came to.
const APPENDS: &[(&str, u16, &str, &str)] = &[
    ("put", 200, PUT, "Appended"),
    ("this one stands", 200, STANDS, "Appended"),
    ("another one stands", 200, EMPTY, "Taken([])"),
    ("no answer", 200, NOTHING, "Unknown(Unreadable)"),
    (
        "a success of another status",
        201,
        PUT,
        "Unknown(Status(201))",
    ),
    ("no space", 429, NO_SPACE, "Unknown(NoSpace)"),
    ("too many requests", 429, TOO_MANY, "Unknown(Status(429))"),
    ("the token isn't taken", 401, BAD_TOKEN, "Unknown(Denied)"),
    ("not allowed", 403, "{}", "Unknown(Denied)"),
    (
        "no leader",
        503,
        "{\"error\":\"etcdserver: no leader\",\"code\":14}",
        "Unknown(Status(503))",
    ),
    ("no JSON", 404, "Not Found\n", "Unknown(Status(404))"),
];

#[test]
fn appends(rt: HostRuntime) -> Result<(), Fail> {
    for (name, status, body, wanted) in APPENDS {
        check(comes_to(rt.alloc(), *status, body, wanted), name)?;
    }
    Ok(())
}

/// Losses: what an append comes to, and what it comes to after one in doubt.
const LOSSES: &[(Loss, &str, &str)] = &[
    (Loss::Lost, "Unknown(Lost)", "Unknown(Lost)"),
    (Loss::Memory, "Unknown(Memory)", "Unknown(Memory)"),
    (
        Loss::Unsent(Cause::Away),
        "Unsent(Away)",
        "Unknown(NoSpace)",
    ),
];

/// What an append comes to without a response.
fn lost(alloc: Global, loss: Loss) -> Append {
    append_of(alloc, KEY, b"one", Err(loss))
}

/// What it comes to after an append in doubt.
fn lost_again(alloc: Global, loss: Loss) -> Append {
    Append::Unknown(Doubt::NoSpace).then(lost(alloc, loss))
}

#[test]
fn appends_without_a_response(rt: HostRuntime) -> Result<(), Fail> {
    let alloc = rt.alloc();
    for (loss, wanted, still) in LOSSES {
        check(is_shown(alloc, &lost(alloc, *loss), wanted), wanted)?;
        check(is_shown(alloc, &lost_again(alloc, *loss), still), still)?;
    }
    Ok(())
}

/// Whether a page is shown so: its batches, and whether there is more.
fn is_page(alloc: Global, page: &Page, wanted: &str) -> bool {
    match format!(in alloc; "{:?} {}", page.batches, page.more) {
        Ok(shown) => shown.as_str() == wanted,
        Err(_) => false,
    }
}

/// Whether a body is such a page of a journal.
fn reads_page(alloc: Global, name: &Name, first: u32, body: &str, wanted: &str) -> bool {
    match read_page(alloc, name, first, body.as_bytes()) {
        Ok(Some(page)) => is_page(alloc, &page, wanted),
        Ok(None) => wanted == "none",
        Err(_) => false,
    }
}

const ONE: &str =
    "{\"kvs\":[{\"key\":\"ZGF5L2JhdGNoLzAwMDAwMDAwMDE=\",\"value\":\"b25l\"}],\"more\":true,\"count\":\"2\"}";

const TWO: &str =
    "{\"kvs\":[{\"key\":\"ZGF5L2JhdGNoLzAwMDAwMDAwMDE=\",\"value\":\"b25l\"},{\"key\":\"ZGF5L2JhdGNoLzAwMDAwMDAwMDI=\"}],\"count\":\"2\"}";

const GAP: &str =
    "{\"kvs\":[{\"key\":\"ZGF5L2JhdGNoLzAwMDAwMDAwMDE=\",\"value\":\"b25l\"},{\"key\":\"ZGF5L2JhdGNoLzAwMDAwMDAwMDM=\"}],\"count\":\"2\"}";

/// Pages: a name, the first place, the body, and the page that it is.
const PAGES: &[(&str, u32, &str, &str)] = &[
    ("one of two", 1, ONE, "[[111, 110, 101]] true"),
    ("two", 1, TWO, "[[111, 110, 101], []] false"),
    (
        "nothing",
        1,
        "{\"header\":{\"revision\":\"2\"}}",
        "[] false",
    ),
    ("one is missing", 1, GAP, "none"),
    ("other places", 2, TWO, "none"),
    (
        "behind the last place",
        u32::MAX,
        "{\"kvs\":[{\"key\":\"ZGF5L2JhdGNoLzQyOTQ5NjcyOTU=\"}]}",
        "[[]] false",
    ),
    ("no list", 1, "{\"kvs\":{}}", "none"),
    ("no JSON", 1, "{\"kvs\":[", "none"),
];

/// Checks the pages of a journal.
fn check_pages(alloc: Global, journal: &Name) -> Result<(), Fail> {
    for (name, first, body, wanted) in PAGES {
        check(reads_page(alloc, journal, *first, body, wanted), name)?;
    }
    Ok(())
}

#[test]
fn pages(rt: HostRuntime) -> Result<(), Fail> {
    let journal = Name::from_text(rt.alloc(), "day")?.ok_or("no name")?;
    check_pages(rt.alloc(), &journal)
}

/// Whether a body tells that this stands at the key.
fn reads_value(alloc: Global, body: &str, wanted: &str) -> bool {
    match read_value(alloc, KEY, body.as_bytes()) {
        Ok(value) => is_shown(alloc, &value, wanted),
        Err(_) => false,
    }
}

/// Values: a name, the body, and what stands at the key.
const VALUES: &[(&str, &str, &str)] = &[
    ("a value", ONE, "Some(Some([111, 110, 101]))"),
    ("nothing", "{\"header\":{\"revision\":\"5\"}}", "Some(None)"),
    (
        "another key",
        "{\"kvs\":[{\"key\":\"ZGF5L2FjdGl2ZQ==\",\"value\":\"bWU=\"}]}",
        "None",
    ),
    ("no JSON", "", "None"),
];

#[test]
fn values(rt: HostRuntime) -> Result<(), Fail> {
    for (name, body, wanted) in VALUES {
        check(reads_value(rt.alloc(), body, wanted), name)?;
    }
    Ok(())
}

/// Whether a number was read, and is this, or wasn't.
fn is_number(read: Result<Option<u64>, AllocError>, wanted: Option<u64>) -> bool {
    match (read, wanted) {
        (Ok(Some(number)), Some(wanted)) => number == wanted,
        (Ok(None), None) => true,
        _ => false,
    }
}

const GRANTED: &[u8] =
    b"{\"header\":{\"revision\":\"3\"},\"ID\":\"4111120305292484110\",\"TTL\":\"10\"}";

const KEPT: &[u8] =
    b"{\"result\":{\"header\":{\"revision\":\"3\"},\"ID\":\"4111120305292484110\",\"TTL\":\"10\"}}\n";

const GONE: &[u8] = b"{\"result\":{\"header\":{\"revision\":\"3\"},\"ID\":\"12345\"}}\n";

#[test]
fn leases(rt: HostRuntime) -> Result<(), Fail> {
    let alloc = rt.alloc();
    let granted = read_lease(alloc, GRANTED);
    check(
        is_number(granted, Some(4_111_120_305_292_484_110)),
        "granted",
    )?;
    let number = read_lease(alloc, b"{\"ID\":7}");
    check(is_number(number, None), "a number")?;
    check(is_number(read_kept(alloc, KEPT), Some(10)), "kept")?;
    check(is_number(read_kept(alloc, GONE), None), "gone")
}

/// Whether a login whose response is this comes to that.
fn logs_in(alloc: Global, status: u16, body: &str, wanted: &str) -> bool {
    match response(alloc, status, body) {
        Some(response) => is_shown(alloc, &login_of(alloc, Ok(response)), wanted),
        None => false,
    }
}

const TOKEN: &str = "{\"header\":{\"revision\":\"1\"},\"token\":\"BvugrxbeKddkbLDr.16\"}";

/// Logins: a name, the status, the body, and what the login comes to.
const LOGINS: &[(&str, u16, &str, &str)] = &[
    ("a token", 200, TOKEN, "Ok(\"BvugrxbeKddkbLDr.16\")"),
    ("no token", 200, "{}", "Err(NotLetIn)"),
    ("wrong password", 400, WRONG_PASSWORD, "Err(NotLetIn)"),
    ("no users", 412, "{}", "Err(NotLetIn)"),
    ("no leader", 503, "{}", "Err(Away)"),
];

#[test]
fn logins(rt: HostRuntime) -> Result<(), Fail> {
    for (name, status, body, wanted) in LOGINS {
        check(logs_in(rt.alloc(), *status, body, wanted), name)?;
    }
    Ok(())
}

/// Whether a body tells a token.
fn has_token(alloc: Global, body: &str) -> bool {
    matches!(read_token(alloc, body.as_bytes()), Ok(Some(_)))
}

/// Whether a response with the status 401 says that the token isn't taken.
fn refuses_token(alloc: Global) -> bool {
    match response(alloc, 401, BAD_TOKEN) {
        Some(response) => is_token_refused(&Ok(response)),
        None => false,
    }
}

#[test]
fn tokens(rt: HostRuntime) -> Result<(), Fail> {
    check(has_token(rt.alloc(), TOKEN), "token")?;
    check(refuses_token(rt.alloc()), "refused")?;
    check(!is_token_refused(&Err(Loss::Lost)), "lost")
}

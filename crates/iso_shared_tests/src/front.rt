//! Documents, and where worked messages and answers go.

use iso_front::{Gathering, Joint, Route, Shards};
use iso_order::{Act, Money, Order, Pan, TxKey, request};
use iso_parts::Mti;
use iso_table::Table;
use iso_wire::{Message, pack};
use std::alloc::Global;
use std::process::Abort;

const DOCUMENT: &str = r#"{"shards":[
    {"name":"north","address":"10.0.0.1:8583","accounts":[{"from":"400000","to":"499999"}]},
    {"name":"south","address":"[2001:db8::1]:8583","accounts":[
        {"from":"51","to":"55"},{"from":"3782822463","to":"3782822463"}]}]}"#;

/// The name of a row, an account number, and the place of its shard.
const ACCOUNTS: &[(&str, &[u8], Option<usize>)] = &[
    ("first of the first", b"4000000000000000", Some(0)),
    ("last of the first", b"4999999999999999", Some(0)),
    ("as long as its prefix", b"400000", Some(0)),
    ("shorter than its prefix", b"40000", None),
    ("one before", b"3999999999999999", None),
    ("one behind", b"5000000000000000", None),
    ("two digits", b"5555555555554444", Some(1)),
    ("ten digits", b"378282246310005", Some(1)),
    ("beside the ten digits", b"378282246410005", None),
    ("a zero before", b"0400000000000000", None),
];

fn shards<R: Abort>(rt: &R, alloc: Global) -> Shards {
    match Shards::from_json(alloc, DOCUMENT.as_bytes()) {
        Ok(shards) => shards,
        Err(_) => panic!(rt; "the document"),
    }
}

#[test]
fn account_numbers_have_shards(rt: HostRuntime) {
    let shards = shards(&rt, rt.alloc());
    assert_eq!(rt; shards.len(), 2);
    assert_eq!(rt; shards.given(), 3);
    for (name, account, shard) in ACCOUNTS {
        let pan = Pan::from_digits(account).expect(&rt, "an account number");
        assert!(rt; shards.shard_of(&pan) == *shard, "{name}");
    }
}

/// What stands for `ACCOUNTS` in a document of two shards, and the text of its fault.
const FAULTS: &[(&str, &str)] = &[
    (
        r#"{"from":"12","to":"11"}"#,
        "shard 2: \"to\" is to be a text of as many digits as \"from\" has, and not before it",
    ),
    (
        r#"{"from":"12","to":"120"}"#,
        "shard 2: \"to\" is to be a text of as many digits as \"from\" has, and not before it",
    ),
    (
        r#"{"from":"1a","to":"19"}"#,
        "shard 2: \"from\" is to be a text of 1 to 19 digits",
    ),
    (
        r#"{"from":"045","to":"046"}"#,
        "shard 2: account numbers that begin with 045 to 046 may begin with 04 to 04 of shard 1 too",
    ),
    (
        r#"{"from":"5","to":"5"},{"from":"50","to":"50"}"#,
        "shard 2: account numbers that begin with 50 to 50 may begin with 5 to 5 of shard 2 too",
    ),
    (
        r#"{"from":"0","to":"9"}"#,
        "shard 2: account numbers that begin with 0 to 9 may begin with 04 to 04 of shard 1 too",
    ),
    (
        r#"{"from":"5","to":"5","at":"5"}"#,
        "shard 2: no member is called \"at\"",
    ),
    ("5", "shard 2: it is to be an object"),
    (
        "",
        "shard 2: \"accounts\" is to be an array of at least one object of \"from\" and \"to\"",
    ),
];

/// A document of two shards, the second of which has these account numbers.
fn document<R: Abort>(rt: &R, alloc: Global, accounts: &str) -> String {
    let mut text = String::new(alloc);
    for part in [
        r#"{"shards":[{"name":"a","address":"10.0.0.1:1","accounts":[{"from":"04","to":"04"}]},"#,
        r#"{"name":"b","address":"10.0.0.2:1","accounts":["#,
        accounts,
        "]}]}",
    ] {
        text.push_str(part).expect(rt, "memory");
    }
    text
}

#[test]
fn documents_have_faults(rt: HostRuntime) {
    let alloc = rt.alloc();
    for (accounts, want) in FAULTS {
        let text = document(&rt, alloc, accounts);
        match Shards::from_json(alloc, text.as_bytes()) {
            Ok(_) => panic!(rt; "{accounts} has no fault"),
            Err(fault) => {
                let told = format!(in alloc; "{fault}").expect(&rt, "memory");
                assert_eq!(rt; told.as_str(), *want);
            }
        }
    }
    assert!(rt; Shards::from_json(alloc, br#"{"shards":[]}"#).is_err());
    assert!(rt; Shards::from_json(alloc, br#"{"shards":1}"#).is_err());
    assert!(rt; Shards::from_json(alloc, b"{").is_err());
}

const KEY: TxKey = TxKey {
    base: 200,
    stan: 1,
    sent: 1_128_055_759,
    acquirer: 12_345,
};

const REVERSAL: TxKey = TxKey {
    base: 420,
    stan: 2,
    sent: 1_128_055_759,
    acquirer: 12_345,
};

/// The body of a purchase on an account.
fn purchase<R: Abort>(rt: &R, alloc: Global, table: &Table, account: &[u8]) -> Vec<u8> {
    let money = Money {
        pan: Pan::from_digits(account).expect(rt, "an account"),
        amount: 100,
        currency: *b"840",
    };
    let order = Order::new(KEY, Act::Debit(money)).expect(rt, "an order");
    let message = request(alloc, &order).expect(rt, "memory");
    pack(alloc, table, &message).expect(rt, "pack")
}

/// The body of the reversal of that purchase.
fn reversal<R: Abort>(rt: &R, alloc: Global, table: &Table) -> Vec<u8> {
    let undo = Act::Undo {
        original: KEY,
        left: 0,
    };
    let order = Order::new(REVERSAL, undo).expect(rt, "an order");
    let message = request(alloc, &order).expect(rt, "memory");
    pack(alloc, table, &message).expect(rt, "pack")
}

/// The body of a message of a type that has one element.
fn plain<R: Abort>(rt: &R, alloc: Global, table: &Table, mti: &[u8], value: &[u8]) -> Vec<u8> {
    let mut message = Message::new(alloc, Mti::from_text(mti).expect(rt, "a type"));
    message.set(70, value).expect(rt, "set");
    pack(alloc, table, &message).expect(rt, "pack")
}

/// The account of a purchase, and where that goes.
const PURCHASES: &[(&[u8], Route)] = &[
    (b"4000000000000000", Route::One { shard: 0, key: KEY }),
    (b"5555555555554444", Route::One { shard: 1, key: KEY }),
    (b"6011111111111117", Route::Nobody { key: KEY }),
];

/// The type of a message of the network, its element 70, and where it goes.
const PLAIN: &[(&[u8], &[u8], Route)] = &[
    (b"0800", b"301", Route::Any { code: 0 }),
    (b"0800", b"999", Route::Any { code: 12 }),
    (b"0810", b"301", Route::Unanswered),
];

/// Ends the test unless the body has that route.
fn check_route<R: Abort>(rt: &R, alloc: Global, table: &Table, body: &[u8], want: Route) {
    let mut room = Message::new(alloc, Mti::from_text(b"0800").expect(rt, "a type"));
    let route = shards(rt, alloc).route(table, body, &mut room);
    assert_eq!(rt; route, Ok(want));
}

#[test]
fn purchases_have_routes(rt: HostRuntime) {
    let alloc = rt.alloc();
    let table = Table::ascii87(alloc).expect(&rt, "memory");
    for (account, want) in PURCHASES {
        let body = purchase(&rt, alloc, &table, account);
        check_route(&rt, alloc, &table, &body, *want);
    }
}

#[test]
fn messages_of_the_network_have_routes(rt: HostRuntime) {
    let alloc = rt.alloc();
    let table = Table::ascii87(alloc).expect(&rt, "memory");
    for (mti, value, want) in PLAIN {
        let body = plain(&rt, alloc, &table, mti, value);
        check_route(&rt, alloc, &table, &body, *want);
    }
}

#[test]
fn other_bodies_have_routes(rt: HostRuntime) {
    let alloc = rt.alloc();
    let table = Table::ascii87(alloc).expect(&rt, "memory");
    let undo = reversal(&rt, alloc, &table);
    check_route(&rt, alloc, &table, &undo, Route::All { key: REVERSAL });
    let mut cut = purchase(&rt, alloc, &table, b"4000000000000000");
    let _last = cut.pop();
    check_route(&rt, alloc, &table, &cut, Route::Unreadable);
}

#[test]
fn only_what_all_shards_say_is_passed_on(rt: HostRuntime) {
    let all = Gathering::new(&Route::All { key: REVERSAL }, 2);
    assert_eq!(rt; all.joint(0), Joint::Waits);
    // one of two shards
    let first = all.with(0, 0);
    assert_eq!(rt; first.joint(0), Joint::Waits);
    // a shard that wasn't asked
    assert_eq!(rt; first.with(2, 0), first);
    // both
    assert_eq!(rt; first.with(1, 0).joint(0), Joint::Same);
    assert_eq!(rt; first.with(1, 96).joint(96), Joint::Differ);
    // a full shard that has room again
    assert_eq!(rt; first.with(1, 96).with(1, 0).joint(0), Joint::Same);
    // one shard alone
    let one = Gathering::new(&Route::One { shard: 1, key: KEY }, 2);
    assert!(rt; one.is_asked(1) && !one.is_asked(0));
    assert_eq!(rt; one.with(1, 51).joint(51), Joint::Same);
}

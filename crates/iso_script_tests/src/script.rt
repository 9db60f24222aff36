//! Documents of rules, and what a host does by them.

use iso_fakes::check;
use iso_host::{HostTable, Link};
use iso_issuer::{Accounts, Issuer};
use iso_order::{MOST_AMOUNT, NoMemory, Pan};
use iso_parts::Mti;
use iso_script::{Behaviour, Script, Scripted};
use iso_table::Table;
use iso_wire::{Header, Message, pack};
use std::alloc::{AllocError, Global};
use std::test::*;

/// A message: its type, account and amount.
fn message(alloc: Global, mti: &str, account: &str, amount: u64) -> Result<Message, Fail> {
    let mti = Mti::from_text(mti.as_bytes()).ok_or("no message type")?;
    let mut message = Message::new(alloc, mti);
    message.set(2, account.as_bytes())?;
    message.set(3, b"000000")?;
    message.set_number(4, amount.min(MOST_AMOUNT), 12)?;
    message.set(7, b"0102030405")?;
    message.set_number(11, 7, 6)?;
    message.set(32, b"12345")?;
    message.set(49, b"840")?;
    Ok(message)
}

/// The rules that the rows speak of.
const RULES: &str = r#"{"rules":[{"account":"4111111111111111","amount":{"most":99},"do":"cut"},
 {"type":"0400","do":"silent"},{"amount":500,"do":"garbage"},
 {"account":"01","do":"answer","code":"05"},{"amount":{"least":1000,"most":1001},"type":"0200","do":"delay","milliseconds":3}]}"#;

/// A row's name, a message's type, account and amount, and the number of the rule that decides, 0 where none does.
const DECIDED: &[(&str, &str, &str, u64, usize)] = &[
    (
        "the account and the amount",
        "0200",
        "4111111111111111",
        99,
        1,
    ),
    ("another amount", "0200", "4111111111111111", 100, 0),
    ("another account", "0200", "4111111111111112", 99, 0),
    ("an amount alone", "0100", "4111111111111112", 500, 3),
    ("a type", "0400", "4111111111111112", 500, 2),
    ("a repeat of that type", "0401", "4111111111111112", 500, 2),
    ("its advice", "0420", "4111111111111112", 501, 0),
    ("the first of two", "0400", "4111111111111111", 5, 1),
    ("an account with a zero", "0200", "01", 7, 4),
    ("the same without it", "0200", "1", 7, 0),
    ("the least amount", "0200", "1", 1000, 5),
    ("the greatest amount", "0201", "1", 1001, 5),
    ("an amount behind it", "0200", "1", 1002, 0),
    ("an amount before it", "0200", "1", 999, 0),
    ("an advice of that amount", "0220", "1", 1000, 0),
];

/// The number of the rule that decides, 0 where none does.
fn number_of(behaviour: &Behaviour) -> usize {
    match behaviour {
        Behaviour::Honest => 0,
        Behaviour::Ruled { rule, .. } => *rule,
    }
}

#[test]
fn which_rule_decides(rt: HostRuntime) -> Result<(), Fail> {
    let script = Script::from_text(rt.alloc(), RULES.as_bytes())?;
    for (name, mti, account, amount, wanted) in DECIDED {
        let message = message(rt.alloc(), mti, account, *amount)?;
        let number = number_of(&script.behaviour(&message));
        assert!(rt; number == *wanted, "{name}: {number}");
    }
    Ok(())
}

/// Two rules, one for every second message of an account, and one for every third message.
const TURNS: &str = r#"{"rules":[{"account":"1","every":2,"do":"cut"},{"every":3,"do":"silent"}]}"#;

/// The account of each message, and the number of the rule that decides.
const IN_TURN: &[(&str, usize)] = &[
    ("1", 0),
    ("1", 1),
    ("1", 2),
    ("2", 0),
    ("1", 1),
    ("2", 2),
    ("1", 0),
    ("2", 0),
    ("1", 1),
    ("1", 0),
    ("1", 1),
    ("2", 2),
];

#[test]
fn whose_turn_it_is(rt: HostRuntime) -> Result<(), Fail> {
    let mut script = Script::from_text(rt.alloc(), TURNS.as_bytes())?;
    for (place, (account, wanted)) in IN_TURN.iter().enumerate() {
        let message = message(rt.alloc(), "0200", account, 5)?;
        let number = number_of(&script.behaviour(&message));
        assert!(rt; number == *wanted, "{place}: {number}");
        script.count(&message);
    }
    Ok(())
}

/// The accounts of a host: one, with 50.00 USD.
const ACCOUNTS: &[u8] =
    b"{\"accounts\":[{\"currency\":\"840\",\"opening\":5000,\"pan\":\"4111111111111111\"}]}";

/// An issuer of these accounts.
fn issuer(alloc: Global) -> Option<Issuer> {
    match Accounts::from_json(alloc, ACCOUNTS) {
        Ok(accounts) => Some(Issuer::new(accounts, 999_999)),
        Err(_) => None,
    }
}

/// A host of one account, by rules.
fn scripted(alloc: Global, rules: &str) -> Option<Scripted> {
    match Script::from_text(alloc, rules.as_bytes()) {
        Ok(script) => Some(Scripted::new(alloc, issuer(alloc)?, script)),
        Err(_) => None,
    }
}

/// A host of one account, by one rule.
fn ruled(alloc: Global, rule: &str) -> Option<Scripted> {
    match format!(in alloc; "{{\"rules\":[{rule}]}}") {
        Ok(rules) => scripted(alloc, &rules),
        Err(_) => None,
    }
}

/// The 1987 table in ASCII, and lengths of four digits before each message.
fn link(alloc: Global) -> Result<Link, Fail> {
    match HostTable::new(Table::ascii87(alloc)?) {
        Ok(table) => Ok(Link::new(table, Header::Ascii4)),
        Err(_) => Err("no host can serve under the table")?,
    }
}

/// The frame of the answer to the purchase, and of one that rules refuse.
const BOUGHT: &[u8] =
    b"0090021072200001060080001641111111111111110000000000000010000102030405000007051234500000100840";

const REFUSED: &[u8] =
    b"0084021072200001020080001641111111111111110000000000000010000102030405000007051234505840";

/// A rule, what goes out for a purchase of 1000, and what the account has then.
const TREATED: &[(&str, &[u8], i64)] = &[
    (r#"{"amount":999,"do":"cut"}"#, BOUGHT, 4_000),
    (r#"{"do":"answer","code":"05"}"#, REFUSED, 5_000),
    (r#"{"do":"delay","milliseconds":3600000}"#, BOUGHT, 4_000),
    (r#"{"do":"silent"}"#, b"", 4_000),
    (r#"{"do":"cut"}"#, b"", 4_000),
    (
        r#"{"do":"garbage"}"#,
        b"0008\xff\xff\xff\xff\xff\xff\xff\xff",
        4_000,
    ),
];

/// What goes out for a body, behind the number of the rule that decides.
fn treated(
    alloc: Global,
    host: &mut Scripted,
    link: &Link,
    body: &[u8],
) -> Result<(usize, Vec<u8>), NoMemory> {
    let mut out = Vec::new(alloc);
    match host.answer(link, body, &mut out) {
        Ok(behaviour) => Ok((number_of(&behaviour), out)),
        Err(fault) => Err(fault),
    }
}

/// The body of a purchase of 1000.
fn purchase(alloc: Global, link: &Link) -> Result<Vec<u8>, Fail> {
    let purchase = message(alloc, "0200", "4111111111111111", 1000)?;
    Ok(pack(alloc, link.table().table(), &purchase)?)
}

/// What the account has then.
fn ledger_of(host: &Scripted) -> Option<i64> {
    host.issuer().ledger(Pan::from_digits(b"4111111111111111")?)
}

/// Whether these bytes go out for a body, and the account has so much then.
fn goes_out(
    alloc: Global,
    host: &mut Scripted,
    link: &Link,
    body: &[u8],
    wanted: &[u8],
    ledger: i64,
) -> bool {
    match treated(alloc, host, link, body) {
        Ok((_, out)) => out.as_slice() == wanted && ledger_of(host) == Some(ledger),
        Err(_) => false,
    }
}

/// Whether it is so under a rule.
fn is_treated(
    alloc: Global,
    link: &Link,
    body: &[u8],
    rule: &str,
    wanted: &[u8],
    ledger: i64,
) -> bool {
    match ruled(alloc, rule) {
        Some(mut host) => goes_out(alloc, &mut host, link, body, wanted, ledger),
        None => false,
    }
}

/// Each rule treats a purchase as its row says.
fn all_are_treated(alloc: Global, link: &Link, body: &[u8]) -> Result<(), Fail> {
    for (rule, wanted, ledger) in TREATED {
        check(is_treated(alloc, link, body, rule, wanted, *ledger), rule)?;
    }
    Ok(())
}

#[test]
fn what_goes_out(rt: HostRuntime) -> Result<(), Fail> {
    let link = link(rt.alloc())?;
    let body = purchase(rt.alloc(), &link)?;
    all_are_treated(rt.alloc(), &link, &body)
}

/// Whether nothing goes out for what is no message, by no rule.
fn is_unanswered(alloc: Global, host: &mut Scripted, link: &Link) -> bool {
    match treated(alloc, host, link, b"no message") {
        Ok((number, out)) => number == 0 && out.is_empty(),
        Err(_) => false,
    }
}

/// Whether a host that answers each message with garbage sends nothing for what is none.
fn stays_silent(alloc: Global, link: &Link) -> bool {
    match ruled(alloc, "{\"do\":\"garbage\"}") {
        Some(mut host) => is_unanswered(alloc, &mut host, link),
        None => false,
    }
}

#[test]
fn no_message_is_answered_by_no_rule(rt: HostRuntime) -> Result<(), Fail> {
    let link = link(rt.alloc())?;
    check(stays_silent(rt.alloc(), &link), "no message")
}

/// What is told of a document; nothing of one that is good.
fn told_of(alloc: Global, text: &str) -> Result<String, AllocError> {
    match Script::from_text(alloc, text.as_bytes()) {
        Ok(_) => Ok(String::new(alloc)),
        Err(fault) => format!(in alloc; "{fault}"),
    }
}

/// A document, and what is told of it.
const TOLD: &[(&str, &str)] = &[
    (RULES, ""),
    (TURNS, ""),
    ("{\"rules\":\n[}", "the text is no JSON: line 2, column 2"),
    (
        "{\"rules\":{}}",
        "the document is to be an object of one array, {\"rules\":[..]}",
    ),
    (
        "{\"rules\":[]}",
        "there are to be 1 to 1000 rules, and not 0",
    ),
    ("{\"rules\":[1]}", "rule 1: it is to be an object"),
    (
        "{\"rules\":[{\"do\":\"cut\"},{\"do\":\"cut\",\"pan\":\"1\"}]}",
        "rule 2: no member is called \"pan\"",
    ),
    (
        "{\"rules\":[{\"do\":\"cut\",\"code\":\"05\"}]}",
        "rule 1: \"code\" has no use there",
    ),
    (
        "{\"rules\":[{\"do\":\"answer\",\"code\":\"5\"}]}",
        "rule 1: \"code\" is to be a text of two digits, as 05",
    ),
];

#[test]
fn what_is_told_of_documents(rt: HostRuntime) -> Result<(), Fail> {
    for (text, wanted) in TOLD {
        let told = told_of(rt.alloc(), text)?;
        assert!(rt; told.as_str() == *wanted, "{told}");
    }
    Ok(())
}

//! A journal whose answers are decided again.

ghost use Rattle.std.specs.Prelude.{◌≡◌, IfErr, IfOk, IfSome};
ghost use Rattle.iso_books.specs.Fault.{IsPlain};
ghost use Rattle.iso_books.specs.Headings.{IsOther};
ghost use Rattle.iso_books.specs.Replays.{Enters, IsFound, IsFoundBehind, replayed_at_end};
ghost use Rattle.iso_books.specs.declared.heading.Wanted.TheVariants.{Only};

use crate::fault::BooksFault;
use crate::heading::{Wanted, take_heading};
use crate::records::{first_record, is_clear};
use iso_input::Window;
use iso_issuer::{Accounts, Issuer, MOST_ENTRIES};
use iso_journal::replay_record;
use iso_log::{MOST_RECORDS, RECORD};
use iso_record::Heading;
use std::alloc::Global;
use std::io::Read;

/// What a journal's file holds, where each answer is decided again.
#[derive(Drop)]
pub enum Replayed {
    /// The records that a host writes, and zeros: the issuer that entered their orders.
    Whole(Issuer),
    /// The same, and behind them what a crash left of another one.
    Torn(Issuer),
    /// At this place the first record that no host of these accounts can have written.
    Damaged(usize),
}

/// What a record is to an issuer.
enum Next {
    /// Its order was entered.
    Entered,
    /// It isn't the record that a host writes then.
    Damaged,
    /// There is none.
    End,
}

/// Enters the order at the front of what is left of a file.
fn enter_next<R: Read + Drop>(
    window: &mut Window<R>,
    issuer: &mut Issuer,
) -> Result<Next, BooksFault>
    ensures enters { IfOk result
        (λ next. Enters issuer.old issuer.new next window.old.ahead window.new.ahead) }
    ensures fault { IfErr result IsPlain }
{
    let Some(bytes) = first_record(window)? else {
        return Ok(Next::End);
    };
    match replay_record(issuer, &bytes) {
        Ok(true) => {
            window.drop_front(RECORD);
            Ok(Next::Entered)
        }
        Ok(false) => Ok(Next::Damaged),
        Err(_) => Err(BooksFault::Memory),
    }
}

/// Enters the orders of what is left of a file, behind its heading.
fn replay_from<R: Read + Drop>(
    window: &mut Window<R>,
    accounts: Accounts,
) -> Result<Replayed, BooksFault>
    ensures found { IfOk result
        (λ found. IfSome window.old.ahead (λ rest. IsFoundBehind accounts rest found)) }
    ensures fault { IfErr result IsPlain }
{
    let mut issuer = Issuer::new(accounts, MOST_ENTRIES);
    for count in 0..MOST_RECORDS {
        match enter_next(window, &mut issuer)? {
            Next::Entered => {}
            Next::Damaged => return Ok(Replayed::Damaged(count + 1)),
            Next::End => {
                let clear = is_clear(window)?;
                return Ok(replayed_at_end(clear, issuer));
            }
        }
    }
    // no file has so many bytes
    Err(BooksFault::Read)
}

/// What was found where there is no record more, and zeros alone or not.
fn replayed_at_end(clear: bool, issuer: Issuer) -> Replayed
    ensures { result ≡ replayed_at_end clear issuer }
{
    if clear {
        Replayed::Whole(issuer)
    } else {
        Replayed::Torn(issuer)
    }
}

/// Decides each order of a journal again, after those before it: the issuer that a start of a host gives, or the first
/// record that no host of these accounts can have written. Changes nothing.
#[tactic(auto, using(crate::proofs::Entering::found_in))]
pub fn replay<R: Read + Drop>(
    alloc: Global,
    file: R,
    heading: &Heading,
    accounts: Accounts,
) -> Result<Replayed, BooksFault>
    // Where the file's bytes are known: the issuer of its orders, each as a host writes it, and
    // whether zeros alone follow; or the first place whose record no host of these accounts writes.
    ensures found { IfOk result
        (λ found. IfSome (R.remaining file) (λ all. IsFound accounts all found)) }
    // Where the file's bytes are known, a fault about the heading is the first thing that it tells
    // otherwise than is wanted.
    ensures fault { IfErr result
        (λ e. IfSome (R.remaining file) (λ all. IsOther (Only heading.now) all e)) }
{
    let mut window = Window::new(alloc, file);
    take_heading(&mut window, &Wanted::Only(*heading))?;
    replay_from(&mut window, accounts)
}

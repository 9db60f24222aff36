//! What holds of every journal: functions that do nothing, and whose contracts are laws.

ghost use Rattle.iso_issuer.specs.Laws.{FirstsGoOn, FirstsStay, JournalsGoOn, AnswersAreKept, RepeatsAreAnswered, EntriesAnswer};
ghost use Rattle.iso_issuer.specs.Laws.{EntriesAreOfOrders, EnteredHasEntry, JournalsGrow, FoundHasKey, FoundStays, NewIsFound};
ghost use Rattle.iso_issuer.specs.Laws.{KnownChangesNothing, NewComesLast, KeysStayDistinct, AnswersAreEntered};
ghost use Rattle.iso_issuer.specs.StandingLaws.{GrantedStands, GrantedWeighsAll, DeclinedFalls, ReversedFalls, FallenWeighsNothing};
ghost use Rattle.iso_issuer.specs.StandingLaws.{ReversalsStay, ReversedStays, NoneIsNone, NoneStaysNone, WhollyIsReversed, StandsNoMore};
ghost use Rattle.iso_issuer.specs.StandingLaws.{ReversedNeverStands, LateNeverStands, LedgersAgree, AvailableAgree};

use iso_order::laws::comparisons;

/// A journal keeps the first order of each key, up to its limit. What it kept of the earlier orders
/// stands for all of them: with later orders behind, both keep the same.
pub fn firsts_go_on()
    ensures { FirstsGoOn }
{}

/// No more orders than the limit, no two of one key, are kept as they are.
pub fn firsts_stay()
    ensures { FirstsStay }
{}

/// A journal that goes on keeps the entries that it has, each with its answer.
pub fn answers_are_kept()
    // Whatever orders follow, the entries of the earlier ones come first, and are as they were.
    ensures journal { JournalsGoOn }
    // The entry of a key stays there with its answer, whatever orders follow.
    ensures entry { AnswersAreKept }
{}

/// An order that comes again gets its first answer, however much later, and whatever came in between:
/// repeats, other orders of its key, reversals, and new orders up to the limit and past it.
pub fn repeats_are_answered()
    // An order whose key is known, or for which the journal has room, gets the same answer again,
    // whatever orders came in between.
    ensures first { RepeatsAreAnswered }
    // An order that is entered with an answer gets that answer, whatever orders came since.
    ensures entered { EntriesAnswer }
{
    comparisons();
}

/// The entries of a journal are those of its orders, in their order. An order more is an entry more, which is decided
/// on those before it.
pub fn journals_grow()
    // The entries of a journal are those of its orders, one for each, in their order.
    ensures orders { EntriesAreOfOrders }
    // A key is among the orders exactly where it has an entry.
    ensures found { EnteredHasEntry }
    // With one order more a journal has one entry more, at the end, decided
    // on the entries before it.
    ensures grown { JournalsGrow }
{}

/// An entry is found under its key, also where entries follow.
pub fn entries_are_found()
    // The entry that is found under a key has that key.
    ensures key { FoundHasKey }
    // An entry that is found under its key is found there too where entries follow.
    ensures stays { FoundStays }
    // An entry whose key is new is found under that key once it is there.
    ensures new { NewIsFound }
{}

/// An order whose key is in the books changes nothing, and another one comes last.
pub fn keys_stay_distinct()
    // In books that have no key twice, an order whose key is there changes nothing.
    ensures known { KnownChangesNothing }
    // In books that have no key twice, an order whose key is new comes last.
    ensures new { NewComesLast }
    // Books that have no key twice have none twice after one order more.
    ensures distinct { KeysStayDistinct }
{}

/// The answer for an order is kept as the answer of its entry, unless another order was entered under its key.
pub fn answers_are_entered()
    ensures { AnswersAreEntered }
{
    comparisons();
}

/// An entry of class 2 that was granted and that nothing reverses stands, for its whole amount. One that wasn't
/// granted or that is wholly reversed doesn't stand, and what doesn't stand counts for nothing.
pub fn granted_stands()
    // An entry of class 2 that moves money, that was granted and that nothing reverses, stands.
    ensures granted { GrantedStands }
    // An entry of class 2 that moves money, that was granted and that nothing reverses,
    // counts for its whole amount.
    ensures whole { GrantedWeighsAll }
    // An entry that wasn't granted doesn't stand.
    ensures declined { DeclinedFalls }
    // An entry whose first reversal leaves nothing doesn't stand.
    ensures reversed { ReversedFalls }
    // An entry that doesn't stand counts for nothing.
    ensures nothing { FallenWeighsNothing }
{}

/// The first reversal of a key says what is left of it, whatever entries follow. A key that no entry reverses has
/// none, and where each one that reverses it leaves nothing, it is wholly reversed.
pub fn reversals_stay()
    // What the first reversal of a key leaves goes on to be left, whatever entries follow.
    ensures left { ReversalsStay }
    // A key whose first reversal leaves nothing stays wholly reversed, whatever entries follow.
    ensures reversed { ReversedStays }
    // A key that no entry reverses counts as having no reversal.
    ensures none { NoneIsNone }
    // A key that has no reversal goes on to have none, as long as no entry comes that reverses it.
    ensures still_none { NoneStaysNone }
    // Where an entry reverses a key, and each entry that does leaves nothing,
    // the key is wholly reversed.
    ensures wholly { WhollyIsReversed }
{}

/// An entry of class 2 that doesn't stand never stands again, however the journal goes on. A hold of class 1 can:
/// when what completed it is reversed.
pub fn stands_no_more()
    ensures { StandsNoMore }
{}

/// No order of a key stands whose first reversal leaves nothing, however the journal goes on.
pub fn reversed_never_stands()
    ensures { ReversedNeverStands }
{}

/// An order that comes after such a reversal of its key never stands.
pub fn late_never_stands()
    // Where the first reversal of a key leaves nothing and no order of that key came yet, none
    // that comes later ever stands.
    ensures { LateNeverStands }
{}

/// The same orders in another order leave every account the same, where none is declined for want of the available
/// amount and no key is reversed twice.
pub fn reordered()
    // The same orders in another order leave every account the same ledger, where in neither list
    // one is declined with 51, and no two reversals name one key.
    ensures ledger { LedgersAgree }
    // The same orders in another order leave every account the same available amount, where in
    // neither list one is declined with 51, and no two reversals name one key.
    ensures available { AvailableAgree }
{}

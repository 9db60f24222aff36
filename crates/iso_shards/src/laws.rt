//! What holds of the shards of a whole: a function that does nothing, and whose contract is the
//! laws.

ghost use Rattle.iso_shards.specs.Laws.{BooksAreTheSame, EntriesAreTheSame, BalancesAreTheSame};
ghost use Rattle.iso_shards.specs.Laws.{AccountsAreFound, ShardsBegin, AnswersAreTheSame};
ghost use Rattle.iso_shards.specs.Laws.{OthersChangeNothing, RunsAreTheSame, HandledApart};
ghost use Rattle.iso_shards.specs.Laws.{DaysAreTheSame, OneAccountGoesTogether, ReversalsAreTheSame};
ghost use Rattle.iso_shards.specs.Laws.{ReversalsAreGranted, StraysChangeNothing};
ghost use Rattle.iso_shards.specs.Laws.{StraysStandAnywhere, ShardsHaveAWhole};
ghost use Rattle.iso_shards.specs.Laws.{StrayCompletionsAreDebits};

use iso_issuer::laws::{journals_grow, keys_stay_distinct};

/// The accounts are split over shards, each an issuer of its own. An order that names an account is
/// sent to the shard that has it, and a reversal, which names none, to every shard. Then the books
/// of one issuer for all accounts, looked at through one shard's accounts, are the books of the
/// shard: the same answers, but for their places in the journal, the same balances, and the same
/// open holds. No code and no balance depends on an account of another shard.
pub fn shards_are_apart()
    // The books of all accounts, the whole, and those of a shard say the same of its accounts: what
    // is on each, what is held by which holds, and each answer but for its place.
    ensures books { BooksAreTheSame }
    // Entry by entry, reversals too, the shard has those of the whole that are sent to it, with the
    // same answers but for their places.
    ensures entries { EntriesAreTheSame }
    // The balances of a shard are those that the whole has on the shard's accounts, in the same
    // order.
    ensures balances { BalancesAreTheSame }
    // A shard finds its own accounts as the whole does, and no other.
    ensures accounts { AccountsAreFound }
    // Before any order comes, the books of some accounts are a shard of those of all, whatever the
    // limits.
    ensures begins { ShardsBegin }
    // An order that is sent to the shard gets the same answer there, but for its place, and leaves
    // it a shard of the whole, as long as orders of one key go together.
    ensures answers { AnswersAreTheSame }
    // An order that is sent elsewhere leaves the shard as it was, and still a shard of the whole.
    ensures others { OthersChangeNothing }
    // Where a shard refuses just those orders that the whole refuses, and orders of one key go
    // together, each answer is the same but for its place, and it stays a shard of the whole.
    ensures runs { RunsAreTheSame }
    // Where both have room for all orders, and orders of one key go together, the shard stays a
    // shard of the whole once all are handled, memory aside.
    ensures handled { HandledApart }
    // From the first order on, a shard that handled what is sent to it has on its accounts the
    // balances of the whole, where both had room and orders of one key went together.
    ensures day { DaysAreTheSame }
    // Where orders with one key name one account, or none, they go together,
    // however the accounts are split.
    ensures together { OneAccountGoesTogether }
    // Two shards of one whole give one answer to a reversal, but for its place, as long as orders
    // of one key go together.
    ensures reversals { ReversalsAreTheSame }
    // A reversal is answered with code 0, unless an order was entered under its key.
    ensures granted { ReversalsAreGranted }
    // A reversal of what isn't there leaves every account as it was.
    ensures strays { StraysChangeNothing }
    // Reversals of what isn't there may stand anywhere or be left out: where the same orders
    // concern the shard, books agree on its accounts.
    ensures anywhere { StraysStandAnywhere }
    // Whatever orders shards took, there are books of all accounts that have what concerns each
    // shard, in its order, and agree with it, if no key was given twice.
    ensures whole { ShardsHaveAWhole }
    // A completion of a hold that isn't there, under a new key of class 2, is answered as a debit
    // would be, leaves the same balances, and ends no hold.
    ensures completions { StrayCompletionsAreDebits }
{
    journals_grow();
    keys_stay_distinct();
}

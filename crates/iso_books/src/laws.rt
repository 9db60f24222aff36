//! What holds of every journal: a function that does nothing, and whose contract is a law.

ghost use Rattle.iso_books.specs.Laws.{WrittenTellsItsPlace};

use iso_issuer::laws::journals_grow;

/// What a host writes is the row of its place. So a record that isn't is one that no host wrote, whatever its accounts.
pub fn written_tells_its_place()
    ensures { WrittenTellsItsPlace }
{
    journals_grow();
}

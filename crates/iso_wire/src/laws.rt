//! What holds of every message and every stream: functions that do nothing, and whose contracts are laws.

ghost use Rattle.std.specs.Prelude.{ℕ, List};
ghost use Rattle.iso_wire.specs.DecimalLaws.{DecimalLaws};
ghost use Rattle.iso_wire.specs.Ends.{elements_of};
ghost use Rattle.iso_wire.specs.FrameLaws.{FrameLaws};
ghost use Rattle.iso_wire.specs.Framing.{BadIsNoFrame, BadStays, CutNeedsMore, FirstOfSplit, SplitsBehind, SplitsOnce, SplitsSomehow};
ghost use Rattle.iso_wire.specs.OneSpelling.{AreOfBytes, HasPlain, PlainOnce, WellFormed};
ghost use Rattle.iso_wire.specs.ReadingLaws.{ReadingStays, ReadsSpellings};
ghost use Rattle.iso_wire.specs.Spelling.{AreBytes};
ghost use Rattle.iso_wire.specs.StopsLaws.{NeverBoth, SpellsOrStops, StopsAsRead, StopsOnce, StopsStay};
ghost use Rattle.iso_wire.specs.ViewLaws.{ViewLaws};

use crate::message::Message;

/// The items of a slice of bytes are bytes, past its end too.
pub fn are_bytes(bytes: &[u8])
    ensures { AreBytes bytes.now }
{}

/// The values in a buffer are of bytes.
fn of_bytes(values: &[u8])
    ensures { (ns ends : List ℕ) → AreOfBytes (elements_of ns 0 ends values.now) }
{}

/// Each message is well formed: its type has four digits, its elements ascend, and their values are of bytes.
pub fn well_formed(message: &Message)
    ensures { WellFormed message.now }
{
    // any call on the message tells the proof what holds of every message
    let _mti = message.mti();
    let elements = message.parts();
    of_bytes(&elements.values);
}

/// Reading gives a message and a length exactly where the first bytes, so many of them, are a spelling of the message.
pub fn reads_spellings()
    // Under good rows, a message and a length are read exactly where so many first bytes spell it.
    ensures exact { ReadsSpellings }
    // A message that is read, and a fault but for missing bytes, stay whatever bytes follow.
    ensures stays { ReadingStays }
{
    iso_parts::laws::parts();
    iso_parts::laws::bitmaps();
}

/// Bytes begin with a spelling, or they stop at one place, at one element, for one cause: behind some good pieces, at
/// the first piece that isn't whole or is bad.
pub fn stops()
    // Under good rows, reading gives a fault exactly where the bytes stop: at that place and
    // element, for that cause.
    ensures exact { StopsAsRead }
    // Under good rows, any bytes begin with a spelling, or stop somewhere.
    ensures some { SpellsOrStops }
    // Under good rows, no bytes begin with a spelling and stop as well.
    ensures either { NeverBoth }
    // Under good rows, bytes stop at one place at most, at one element, for one cause.
    ensures once { StopsOnce }
    // Under good rows, bytes that stop, but not for being too short, stop there for that cause
    // whatever bytes follow.
    ensures stay { StopsStay }
{
    reads_spellings();
    iso_parts::laws::parts();
    iso_parts::laws::bitmaps();
    iso_parts::laws::pieces();
}

/// A well-formed message that the table doesn't refuse has one plain spelling, which `pack` writes.
pub fn spelled_once()
    // Each well-formed message that a table with good rows doesn't refuse has a plain spelling.
    ensures some { HasPlain }
    // Under one table no message has two plain spellings.
    ensures once { PlainOnce }
{
    iso_parts::laws::parts();
    iso_parts::laws::bitmaps();
}

/// A stream of bytes is frames and a rest in one way.
pub fn splits_once()
    // Each stream of bytes can be split into whole frames and a rest that begins with none.
    ensures some { SplitsSomehow }
    // No stream of bytes can be split so in two ways.
    ensures once { SplitsOnce }
    // Whole frames that begin a stream are the first ones of its split.
    ensures first { FirstOfSplit }
    // Whole frames before a stream come before the frames of its split, and its rest stays.
    ensures behind { SplitsBehind }
    // Where a whole header isn't of digits, no frame begins.
    ensures bad { BadIsNoFrame }
    // A whole header that isn't of digits stays bad, whatever bytes follow.
    ensures stays { BadStays }
    // A header and fewer bytes than it counts are no frame yet and no fault: more is wanted.
    ensures cut { CutNeedsMore }
{}

/// How numbers stand to the digits that write them.
pub fn decimals()
    // A number is written in exactly as many digits as there are places, and where these are
    // enough the digits tell that number. A text of at most `most` digits tells a number below
    // ten to the power of `most`.
    ensures { DecimalLaws }
{}

/// How the frames of bodies stand to those of the bodies before them.
pub fn frames()
    // A header takes the same number of bytes, whatever it counts. The frames of bodies that
    // follow others come behind theirs, and all fit where both do.
    ensures { FrameLaws }
{}

/// How the bodies of a message that is viewed stand to its elements.
pub fn views()
    // An element whose body starts somewhere has a value, and its part lies so that the body
    // starts there: first the part's length, then the body. One without a body has no value.
    ensures { ViewLaws }
{}

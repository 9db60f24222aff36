//! What holds of every row and every bitmap: functions that do nothing, and whose contracts are laws. A proof of a
//! crate above cites them.

ghost use Rattle.iso_parts.specs.MapLaws.{MapLaws};
ghost use Rattle.iso_parts.specs.PartLaws.{PartLaws};
ghost use Rattle.iso_parts.specs.PieceLaws.{PieceLaws};

/// How the parts of an element stand to its values.
pub fn parts()
    // A part is read as its value whatever follows, and what is read is a part. A value fits
    // exactly where nothing refuses it, and has a plain part, no longer than its row allows.
    ensures { PartLaws }
{}

/// How the bytes of bitmaps stand to their sets.
pub fn bitmaps()
    // A bitmap is read as the word with exactly its bits, and what is read is a bitmap of those
    // bits. Each set is written in one way, in at most 32 bytes.
    ensures { MapLaws }
{}

/// How the length and the body of a part are judged.
pub fn pieces()
    // A whole length is read as the count that it tells, if the row allows so many characters. A
    // bad length or body is refused for the first thing that is wrong with it.
    ensures { PieceLaws }
{}

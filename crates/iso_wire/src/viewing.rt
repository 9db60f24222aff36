//! Reading a message without copying it.

ghost use Rattle.std.specs.Prelude.{◌≡◌, ◌≢◌, ◌++◌, ℕ, List, IfOk, IfErr};
ghost use Rattle.iso_table.specs.Layout.{AreGood};
ghost use Rattle.iso_wire.specs.declared.fault.UnpackCause.{UnpackCause};
ghost use Rattle.iso_wire.specs.declared.fault.UnpackCause.TheVariants.{Short, Memory};
ghost use Rattle.iso_wire.specs.Reading.{halt, message_at};
ghost use Rattle.iso_wire.specs.Spelling.{AreBytes, BeginsWithNone, Parts};
ghost use Rattle.iso_wire.specs.Stops.{Stops};
ghost use Rattle.iso_wire.specs.Viewing.{Views, ViewsSpelled, IsViewed, SpellsBodies};

use crate::bodies::{Bodies, View, outline_of};
use crate::fault::UnpackFault;
use crate::laws::{reads_spellings, stops};
use iso_table::Table;

/// The view that `view` gives, or its fault.
#[inline(always)]
fn view_of<'a>(table: &Table, bytes: &'a [u8]) -> Result<View<'a>, UnpackFault>
    ensures exact { Views table.now bytes.now result (message_at table.now bytes.now) }
    ensures bytes { IfOk result (λ v. v.bytes ≡ bytes.now) }
    ensures address { IfOk result (λ v. v.address ≡ bytes.entry.ref_ptr) }
    ensures fits { AreBytes bytes.now }
    ensures good { AreGood table.now.rows }
{
    iso_parts::laws::parts();
    let mut bodies = Bodies::none();
    let outline = outline_of(table, bytes, &mut bodies)?;
    Ok(View {
        outline,
        bytes,
        bodies,
    })
}

/// Views the message that the bytes begin with, and leaves it where it lies; bytes behind it are left. It accepts what
/// `unpack` accepts, and refuses the rest with the same fault. Takes no memory.
pub fn view<'a>(table: &Table, bytes: &'a [u8]) -> Result<View<'a>, UnpackFault>
    // What is viewed is spelled by the first bytes, and its bodies are those of that spelling.
    ensures found { IfOk result (λ v. IsViewed table.now v bytes.now) }
    // The bytes of the view are those that are given.
    ensures bytes { IfOk result (λ v. v.bytes ≡ bytes.now) }
    // The view lies where the caller's bytes lie: it is no copy.
    ensures address { IfOk result (λ v. v.address ≡ bytes.entry.ref_ptr) }
    // What the first bytes spell is viewed.
    ensures only { ViewsSpelled table.now bytes.now result }
    // The answer is that of reading: the message's type, its length and the bodies of its elements;
    // or the same fault.
    ensures exact { Views table.now bytes.now result (message_at table.now bytes.now) }
    // Want of memory is never the fault.
    ensures memory { IfErr result (λ e. e.cause ≢ Memory) }
    // A fault tells where the bytes stop, by their whole pieces, and why.
    ensures stops { IfErr result (λ e. Stops table.now bytes.now e.at e.element e.cause) }
    // Where the bytes stop, that very fault is told.
    ensures told { (at element : ℕ) (cause : UnpackCause)
        → Stops table.now bytes.now at element cause
        → Views table.now bytes.now result (halt element at cause) }
    // A fault comes only where the bytes begin with no spelling.
    ensures refused { IfErr result (λ e. BeginsWithNone table.now bytes.now) }
    // Where the fault is another than missing bytes, no continuation of the bytes begins with a
    // spelling.
    ensures settled { IfErr result (λ e. e.cause ≢ Short → (x : List ℕ) → AreBytes x
        → BeginsWithNone table.now (bytes.now ++ x)) }
    // Bodies with their lengths before them are the parts of the elements.
    ensures parts { (es ws : List (ℕ × List ℕ)) (b : List ℕ) → SpellsBodies table.now.rows es ws b
        → Parts table.now.rows es b }
{
    reads_spellings();
    stops();
    iso_parts::laws::parts();
    view_of(table, bytes)
}

//! The table of a text.

ghost use Rattle.std.specs.Prelude.{◌≡◌, ◌↔◌, ◌||◌, false, length, IfErr, IfOk, IsErrOf};
ghost use Rattle.std.specs.Prelude.{IsOk, IsTrue};
ghost use Rattle.std.specs.Str.{IsUtf8};
ghost use Rattle.iso_table.specs.Accepted.{contents};
ghost use Rattle.iso_import.specs.declared.fault.ImportFault.TheVariants.{Neither, NotText};
ghost use Rattle.iso_import.specs.Found.{IsDraftOf};
ghost use Rattle.iso_import.specs.Kinds.{AreOfClasses};
ghost use Rattle.iso_import.specs.Told.{is_packager, is_specification, IsOfFields, Refuses};

use crate::fault::ImportFault;
use crate::jpos::packager_in;
use crate::kinds::Bytes;
use crate::moov::specification_in;
use crate::taken::Imported;
use std::alloc::Global;
use std::str;

/// The table of a text of another program: of XML a packager of jPOS, of JSON a specification of moov-io/iso8583. Its message types
/// begin with this digit. A field whose bytes no row has is named with why, and left out.
pub fn import(
    alloc: Global,
    text: &[u8],
    version: u8,
    bytes: Bytes,
) -> Result<Imported, ImportFault>
    // What is taken is a draft for message types of this first digit, and its rows are such as a
    // table can have: each is of an element and good, and no two have one number.
    ensures draft { IfOk result (λ imported. IsDraftOf version (contents imported.draft)) }
    // It begins with `<` or `{`, white space aside.
    ensures begins { IsOk result → IsTrue (is_packager text.now || is_specification text.now) }
    // Of a packager each row is as a class of jPOS has it.
    ensures classes { IfOk result (λ imported. IsTrue (is_packager text.now)
        → AreOfClasses bytes imported.draft.rows.items) }
    // A specification is JSON with an object of fields. They count in the order of their keys'
    // bytes; of one key twice the last value counts. Each element has the row that the first
    // field of its number tells that tells a good one, and the type and the bitmaps are as the
    // first field says that says it. There is a sentence for each other field.
    ensures fields { IfOk result (λ imported. IsTrue (is_specification text.now)
        → IsOfFields text.now (contents imported.draft) (length imported.left.items)) }
    // `NotText` comes exactly where the text isn't UTF-8.
    ensures text { IsErrOf result NotText ↔ (IsUtf8 text.now → ⊥) }
    // `Neither` comes exactly where text begins otherwise.
    ensures neither { IsErrOf result Neither
        ↔ (IsUtf8 text.now × (is_packager text.now || is_specification text.now) ≡ false) }
    // Which fault a text can get: `NoPackager` and `Markup` where it begins with `<`, `NotJson`
    // where it begins with `{` and can't be read as JSON, and `NoFields` where that has no object
    // of fields. The line and the column aren't said. `Memory` comes of any text.
    ensures fault { IfErr result (λ fault. Refuses text.now fault) }
{
    let Ok(text) = str::from_utf8(text) else {
        return Err(ImportFault::NotText);
    };
    let begun = text.trim_start();
    if begun.starts_with('<') {
        return packager_in(alloc, text, version, bytes);
    }
    if begun.starts_with('{') {
        return specification_in(alloc, text, version);
    }
    Err(ImportFault::Neither)
}

//! How the messages of a question lie in its input.

use crate::fault::DeskFault;
use crate::question::Question;
use iso_jobs::Form;

/// The most bytes that stand before each message.
const MOST_SKIPPED: u64 = 65_535;

/// How the messages of a question lie in its input: as digits or as they are, in frames or by themselves, with bytes before
/// each.
pub(crate) fn form_in(question: &Question) -> Result<Form, DeskFault> {
    let skip = question.number("skip", MOST_SKIPPED, "a whole number up to 65535")?;
    Ok(Form {
        is_hex: question.flag("isHex")?,
        header: question.header("frames")?,
        skip: skip as usize,
    })
}

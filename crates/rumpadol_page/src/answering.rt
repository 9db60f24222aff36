//! What a call is answered.

use http::StatusCode;
use iso_desk::{DeskFault, Question, build, convert, look, push_text, tell_table};
use iso_play::{ends, play};
use iso_site::Call;
use std::alloc::{AllocError, Global};

/// The status of an answer, and the answer.
#[derive(Drop)]
pub(crate) struct Answer {
    /// The status.
    pub(crate) status: StatusCode,
    /// The answer, as JSON.
    pub(crate) text: Vec<u8>,
}

/// What a question of a call is answered.
fn told(alloc: Global, call: Call, question: &Question) -> Result<Vec<u8>, DeskFault> {
    match call {
        Call::Table => tell_table(alloc, question),
        Call::Look => look(alloc, question),
        Call::Build => build(alloc, question),
        Call::Convert => convert(alloc, question),
        Call::Play => play(alloc, question),
        Call::Ends => ends(alloc, question),
    }
}

/// The status of a question that isn't answered.
fn status_of(fault: DeskFault) -> StatusCode {
    match fault {
        DeskFault::NotJson { .. } | DeskFault::Member { .. } => StatusCode::BAD_REQUEST,
        DeskFault::TooMuch => StatusCode::PAYLOAD_TOO_LARGE,
        DeskFault::Memory => StatusCode::SERVICE_UNAVAILABLE,
    }
}

/// The object of a sentence that says why nothing is answered.
pub(crate) fn sentence(alloc: Global, says: &str) -> Result<Vec<u8>, AllocError> {
    let mut text = Vec::new(alloc);
    text.extend_from_slice(b"{\"error\":")?;
    push_text(alloc, says.as_bytes(), &mut text)?;
    text.push(b'}')?;
    Ok(text)
}

/// The answer to a question that isn't answered.
fn refused(alloc: Global, fault: DeskFault) -> Result<Answer, AllocError> {
    let says = format!(in alloc; "{fault}")?;
    Ok(Answer {
        status: status_of(fault),
        text: sentence(alloc, &says)?,
    })
}

/// What a call is answered, which brings this text.
pub(crate) fn answer_to(alloc: Global, call: Call, text: &[u8]) -> Result<Answer, AllocError> {
    let question = match Question::read(alloc, text) {
        Ok(question) => question,
        Err(fault) => return refused(alloc, fault),
    };
    match told(alloc, call, &question) {
        Ok(text) => Ok(Answer {
            status: StatusCode::OK,
            text,
        }),
        Err(fault) => refused(alloc, fault),
    }
}

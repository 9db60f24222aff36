//! Which request gets which answer.

use crate::answering::{Answer, answer_to, sentence};
use crate::text::{PAGE, POLICY};
use bytes::Bytes;
use http::{HeaderMap, HeaderName, HeaderValue, Request, StatusCode, header};
use http_server::{Response, Service};
use iso_site::{Asked, Heads, Refusal};
use std::alloc::{AllocError, Global};

/// The page on a port.
#[derive(Drop)]
pub(crate) struct Site {
    alloc: Global,
    /// The digits of the port.
    port: String,
}

/// The value of a header; empty where it isn't there.
fn value_of(headers: &HeaderMap, name: HeaderName) -> &[u8] {
    match headers.get(name) {
        Some(value) => value.as_bytes(),
        None => b"",
    }
}

/// What the head of a request says, as far as it decides.
fn heads_of(request: &Request<Bytes>) -> Heads<'_> {
    let headers = request.headers();
    Heads {
        method: request.method().as_str().as_bytes(),
        path: request.uri().path().as_bytes(),
        host: value_of(headers, header::HOST),
        origin: headers.get(header::ORIGIN).map(|value| value.as_bytes()),
        content_type: value_of(headers, header::CONTENT_TYPE),
    }
}

/// Adds what every answer has: that nothing comes from outside or goes there, and that nothing is kept.
fn add_guards(response: &mut Response) -> Result<(), AllocError> {
    response.add_header(
        header::CONTENT_SECURITY_POLICY,
        HeaderValue::from_static(POLICY),
    )?;
    response.add_header(
        header::X_CONTENT_TYPE_OPTIONS,
        HeaderValue::from_static("nosniff"),
    )?;
    response.add_header(header::CACHE_CONTROL, HeaderValue::from_static("no-store"))?;
    response.add_header(
        header::REFERRER_POLICY,
        HeaderValue::from_static("no-referrer"),
    )
}

/// Makes the response the page.
fn put_page(response: &mut Response) -> Result<(), AllocError> {
    response.add_header(
        header::CONTENT_TYPE,
        HeaderValue::from_static("text/html; charset=utf-8"),
    )?;
    for part in PAGE {
        response.body.push(Bytes::from_static(part.as_bytes()))?;
    }
    Ok(())
}

/// Makes the response an answer in JSON.
fn put_answer(alloc: Global, answer: &Answer, response: &mut Response) -> Result<(), AllocError> {
    response.add_header(
        header::CONTENT_TYPE,
        HeaderValue::from_static("application/json"),
    )?;
    response.status = answer.status;
    response
        .body
        .push(Bytes::copy_from_slice(alloc, &answer.text)?)
}

/// The answer to a request that is refused.
fn refused(alloc: Global, refusal: Refusal) -> Result<Answer, AllocError> {
    Ok(Answer {
        status: StatusCode::from_u16(refusal.status()).unwrap_or(StatusCode::BAD_REQUEST),
        text: sentence(alloc, refusal.sentence())?,
    })
}

impl Site {
    /// The page on a port. Takes memory for its digits.
    pub(crate) fn new(alloc: Global, port: u16) -> Result<Site, AllocError> {
        Ok(Site {
            alloc,
            port: format!(in alloc; "{port}")?,
        })
    }
}

impl Service for Site {
    ghost answers = { λ old request response new. Unit {0} };

    fn call(
        &mut self,
        request: &Request<Bytes>,
        response: &mut Response,
    ) -> Result<(), AllocError> {
        add_guards(response)?;
        match Asked::of_heads(self.port.as_bytes(), heads_of(request)) {
            Asked::Page => put_page(response),
            Asked::Call(call) => {
                let answer = answer_to(self.alloc, call, request.body().as_slice())?;
                put_answer(self.alloc, &answer, response)
            }
            Asked::Refused(refusal) => {
                let answer = refused(self.alloc, refusal)?;
                put_answer(self.alloc, &answer, response)
            }
        }
    }
}

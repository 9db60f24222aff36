//! Requests to a member.
use crate::append::Cause;
use http1::{BodySize, Client, Header, WriteError};
use std::alloc::Global;

/// A request.
#[derive(Clone, Copy)]
pub struct Request<'a> {
    /// The member as it is written.
    pub host: &'a [u8],
    /// What the user shows, where there is one.
    pub token: Option<&'a [u8]>,
    /// The path.
    pub path: &'a [u8],
    /// The body.
    pub body: &'a [u8],
}

/// Adds a request, by its fields.
fn write_request(
    out: &mut Vec<u8>,
    client: &mut Client,
    request: &Request<'_>,
    fields: &[Header<'_>],
) -> Result<(), WriteError> {
    let size = BodySize::Known(request.body.len() as u64);
    client.write_request(out, b"POST", request.path, fields, size)?;
    client.write_data(out, request.body)?;
    client.write_end(out, &[])
}

/// The fields of a request, where a user shows a token: that is the last one.
fn fields_of<'a>(request: &Request<'a>) -> [Header<'a>; 3] {
    [
        Header {
            name: b"host",
            value: request.host,
        },
        Header {
            name: b"content-type",
            value: b"application/json",
        },
        Header {
            name: b"authorization",
            value: request.token.unwrap_or(b""),
        },
    ]
}

/// The text of a request.
pub fn request_text(
    alloc: Global,
    client: &mut Client,
    request: &Request<'_>,
) -> Result<Vec<u8>, Cause> {
    let fields = fields_of(request);
    let count = if request.token.is_some() { 3 } else { 2 };
    let mut out = Vec::new(alloc);
    match write_request(&mut out, client, request, &fields[..count]) {
        Ok(()) => Ok(out),
        Err(WriteError::OutOfMemory) => Err(Cause::Memory),
        Err(_) => Err(Cause::Unwritable),
    }
}

//! Tokens: what an answer makes of them.
ghost use Rattle.std.specs.Prelude.{◌≡◌, IsTrue, ◌↔◌};
ghost use Rattle.iso_etcd.specs.Logins.{IsTokenRefused, HasToken, refusal_of, IsLogin, later_of};

use crate::append::Cause;
use crate::lease::read_token;
use crate::response::{Loss, Response};
use std::alloc::{AllocError, Global};

/// Whether an answer says that the token isn't taken.
pub fn is_token_refused(heard: &Result<Response, Loss>) -> bool
    // A token is refused exactly by a response of status 401.
    ensures { IsTrue result ↔ IsTokenRefused heard.now }
{
    match heard {
        Ok(response) => response.status == 401,
        Err(_) => false,
    }
}

/// The token that a response of status 200 tells.
fn token_in(alloc: Global, body: &[u8]) -> Result<String, Cause>
    ensures { HasToken body.now result }
{
    match read_token(alloc, body) {
        Ok(Some(token)) => Ok(token),
        Ok(None) => Err(Cause::NotLetIn),
        Err(AllocError) => Err(Cause::Memory),
    }
}

/// Why a login failed, by the status of its answer.
fn refusal_of(status: u16) -> Cause
    ensures { result ≡ refusal_of status }
{
    match status {
        400..500 => Cause::NotLetIn,
        _ => Cause::Away,
    }
}

/// The token that was asked for, or why there is none. What was to be asked with it wasn't sent.
pub fn login_of(alloc: Global, heard: Result<Response, Loss>) -> Result<String, Cause>
    // A token comes of status 200 and a body that tells it. A body without one, or status 400 to
    // 499, is `NotLetIn`; any other status or a lost answer is `Away`.
    ensures { IsLogin heard result }
{
    match heard {
        Ok(response) if response.status == 200 => token_in(alloc, response.body.as_slice()),
        Ok(response) => Err(refusal_of(response.status)),
        Err(Loss::Unsent(cause)) => Err(cause),
        Err(Loss::Lost) => Err(Cause::Away),
        Err(Loss::Memory) => Err(Cause::Memory),
    }
}

/// What came of a request that was sent twice: the second outcome, or the first one where the second time nothing was sent.
pub fn later_of(
    first: Result<Response, Loss>,
    second: Result<Response, Loss>,
) -> Result<Response, Loss>
    ensures { result ≡ later_of first second }
{
    match second {
        Err(Loss::Unsent(_)) => first,
        _ => second,
    }
}

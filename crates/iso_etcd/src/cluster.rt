//! The members of a cluster, and the one connection that is kept.
ghost use Rattle.std.specs.Prelude.{◌≡◌};
ghost use Rattle.iso_etcd.specs.Turns.{turn_after};

use crate::append::Cause;
use crate::dial::{Dial, Waits, time_left};
use crate::endpoints::Endpoints;
use crate::link::{Link, Term};
use crate::login::{is_token_refused, later_of, login_of};
use crate::member::Member;
use crate::name::Name;
use crate::question::login_text;
use crate::request::Request;
use crate::response::{Loss, Response};
use crate::user::User;
use std::alloc::{AllocError, Global};

/// The members of a cluster that keep a journal.
#[derive(Drop)]
pub struct Cluster<D: Dial + Drop> {
    pub(crate) alloc: Global,
    pub(crate) name: Name,
    dial: D,
    members: Vec<Member>,
    user: Option<User>,
    token: Option<String>,
    waits: Waits,
    turn: usize,
    link: Option<Link<D::Stream>>,
}

/// The turn after this one, of so many.
fn turn_after(turn: usize, count: usize) -> usize
    ensures { result ≡ turn_after turn count }
{
    if turn < count && turn + 1 < count {
        turn + 1
    } else {
        0
    }
}

impl<D: Dial + Drop> Cluster<D> {
    /// The members that keep the journal of this name.
    pub fn new(alloc: Global, dial: D, place: Endpoints, waits: Waits) -> Cluster<D> {
        let Endpoints {
            members,
            user,
            name,
        } = place;
        Cluster {
            alloc,
            name,
            dial,
            members,
            user,
            token: None,
            waits,
            turn: 0,
            link: None,
        }
    }

    /// When a request that begins now ends.
    fn term(&self) -> Option<Term> {
        let end = self.dial.now()?.saturating_add(self.waits.whole);
        Some(Term {
            end,
            each: self.waits.each,
        })
    }

    /// A connection to the member whose turn it is.
    fn connect(&self, term: Term) -> Option<Link<D::Stream>> {
        let wait = time_left(self.dial.now()?, term.end, self.waits.connect)?;
        let stream = self.dial.dial(self.members.get(self.turn)?, wait)?;
        Some(Link::new(self.alloc, stream))
    }

    /// A connection to the first member that takes one, from the one whose turn it is. Then it is that one's turn.
    fn reach(&mut self, term: Term) -> Option<Link<D::Stream>> {
        for _ in 0..self.members.len() {
            if let Some(link) = self.connect(term) {
                return Some(link);
            }
            self.turn = turn_after(self.turn, self.members.len());
        }
        None
    }

    /// The connection that is kept, or a new one.
    fn link(&mut self, term: Term) -> Option<Link<D::Stream>> {
        match self.link.take() {
            Some(link) => Some(link),
            None => self.reach(term),
        }
    }

    /// Asks over a connection, which is kept where all went well. Else it is the next member's turn.
    fn ask(
        &mut self,
        mut link: Link<D::Stream>,
        term: Term,
        path: &str,
        body: &str,
        token: Option<&str>,
    ) -> Result<Response, Loss> {
        let host = match self.members.get(self.turn) {
            Some(member) => member.text.as_bytes(),
            None => b"etcd",
        };
        let request = Request {
            host,
            token: token.map(|token| token.as_bytes()),
            path: path.as_bytes(),
            body: body.as_bytes(),
        };
        let heard = link.ask(self.alloc, &self.dial, term, &request);
        if heard.is_ok() && link.is_idle() {
            self.link = Some(link);
        } else {
            self.turn = turn_after(self.turn, self.members.len());
        }
        heard
    }

    /// Asks a member.
    fn post(&mut self, path: &str, body: &str, token: Option<&str>) -> Result<Response, Loss> {
        let Some(term) = self.term() else {
            return Err(Loss::Unsent(Cause::Away));
        };
        match self.link(term) {
            Some(link) => self.ask(link, term, path, body, token),
            None => Err(Loss::Unsent(Cause::Away)),
        }
    }

    /// How many members there are.
    pub(crate) fn count(&self) -> usize {
        self.members.len()
    }

    /// The text that asks for the user's token.
    fn login(&self) -> Result<String, Cause> {
        let Some(user) = &self.user else {
            return Err(Cause::NotLetIn);
        };
        match login_text(self.alloc, user.name.as_str(), user.password.as_str()) {
            Ok(text) => Ok(text),
            Err(AllocError) => Err(Cause::Memory),
        }
    }

    /// Asks for the user's token.
    fn new_token(&mut self) -> Result<String, Cause> {
        let text = self.login()?;
        let heard = self.post("/v3/auth/authenticate", text.as_str(), None);
        login_of(self.alloc, heard)
    }

    /// The token that is kept, or a new one.
    fn token(&mut self) -> Result<String, Cause> {
        match self.token.take() {
            Some(token) => Ok(token),
            None => self.new_token(),
        }
    }

    /// Asks once as the user, whose token is kept unless it was refused.
    fn ask_as_user(&mut self, path: &str, body: &str) -> Result<Response, Loss> {
        let token = match self.token() {
            Ok(token) => token,
            Err(cause) => return Err(Loss::Unsent(cause)),
        };
        let heard = self.post(path, body, Some(token.as_str()));
        if !is_token_refused(&heard) {
            self.token = Some(token);
        }
        heard
    }

    /// Asks as the user, where there is one. Where its token is refused, it asks for a new one and tries again, once.
    pub(crate) fn request(&mut self, path: &str, body: &str) -> Result<Response, Loss> {
        if self.user.is_none() {
            return self.post(path, body, None);
        }
        let heard = self.ask_as_user(path, body);
        if !is_token_refused(&heard) {
            return heard;
        }
        let again = self.ask_as_user(path, body);
        later_of(heard, again)
    }
}

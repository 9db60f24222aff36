//! A client of etcd's JSON gateway, for a journal that is kept as numbered batches under a name.
#![tactic(auto)]

mod active;
mod answer;
mod append;
mod cluster;
mod cut;
mod dial;
mod endpoints;
mod endpoints_fault;
mod fault;
mod journal;
mod json;
mod judging;
mod key;
pub mod laws;
mod leaf;
mod lease;
mod link;
mod login;
mod member;
mod name;
mod page;
mod question;
mod request;
mod response;
mod tcp;
mod user;

pub use crate::active::HEADING_SIZE;
pub use crate::answer::{PutAnswer, read_put};
pub use crate::append::{Append, Cause, Doubt};
pub use crate::cluster::Cluster;
pub use crate::dial::{Dial, Timed, Waits, Watch, time_left};
pub use crate::endpoints::{Endpoints, MOST_MEMBERS};
pub use crate::endpoints_fault::EndpointsFault;
pub use crate::fault::{Fault, fault_of};
pub use crate::journal::{FEW, MOST_BATCH};
pub use crate::judging::append_of;
pub use crate::key::{FIRST_PLACE, active_key, batch_key, end_key, heading_key};
pub use crate::lease::{read_kept, read_lease, read_token};
pub use crate::link::{Link, MOST_BODY, Term};
pub use crate::login::{is_token_refused, later_of, login_of};
pub use crate::member::{Member, member_of};
pub use crate::name::Name;
pub use crate::page::{Page, read_page, read_value};
pub use crate::question::{
    grant_text, lease_text, login_text, look_text, put_leased_text, put_text, range_text,
};
pub use crate::request::Request;
pub use crate::response::{Loss, Response};
pub use crate::tcp::{Socket, Tcp};
pub use crate::user::User;

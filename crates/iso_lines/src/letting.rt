//! Who is let in.
ghost use Rattle.std.specs.Prelude.{◌≡◌};
ghost use Rattle.iso_lines.specs.Letting.{refusal_of};

use crate::event::Refusal;
use iso_links::Terms;
use std::net::IpAddr;

/// Why a peer of this address is not let in beside so many, if it isn't.
pub(crate) fn refusal_of(terms: &Terms, peers: usize, address: IpAddr) -> Option<Refusal>
    ensures { result ≡ refusal_of terms.now.networks.items terms.now.limits peers address }
{
    if !terms.lets_connect(address) {
        return Some(Refusal::Network);
    }
    if terms.limits.lets_in(peers) {
        None
    } else {
        Some(Refusal::Peers)
    }
}

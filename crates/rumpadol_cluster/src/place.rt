//! Where a journal on etcd is.
ghost use Rattle.std.specs.Prelude.{◌≡◌, IfOk, None};
ghost use Rattle.iso_etcd.specs.Endpoints.{IsEndpoints};
ghost use Rattle.rumpadol_cluster.specs.Words.{is_on_etcd};

use iso_etcd::{Endpoints, EndpointsFault};
use rumpadol_tables::{Stop, misused};
use std::alloc::Global;

/// What the word for a journal on etcd begins with.
const SCHEME: &[u8] = b"etcd://";

/// Whether a word names a journal on etcd.
pub fn is_on_etcd(word: &str) -> bool
    // It is true exactly where the word begins with `etcd://`.
    ensures { result ≡ is_on_etcd word.now }
{
    word.as_bytes().starts_with(SCHEME)
}

/// Where the journal on etcd is that a word names. The word has no password: whoever lists the processes would read it.
pub fn place_of(alloc: Global, word: &str) -> Result<Endpoints, Stop>
    // At `Ok` the members and the name are those that the word writes.
    ensures found { IfOk result (IsEndpoints word.now) }
    // At `Ok` no user is taken from the word.
    ensures nobody { IfOk result (λ place. place.user ≡ None) }
{
    match Endpoints::from_text(alloc, word) {
        Ok(place) if place.user.is_none() => Ok(place),
        Ok(_) => Err(misused(format!(in alloc;
            "rumpadol: the word of the journal has a password, which all who list processes can read; leave user and password out of it, and write --etcd-user NAME --etcd-password FILE\n"
        ))),
        Err(EndpointsFault::Memory) => Err(Stop::Memory),
        Err(fault) => Err(misused(format!(in alloc;
            "rumpadol: the word of the journal on etcd is wrong: {fault}; write it as etcd://10.0.0.1:2379,10.0.0.2:2379,10.0.0.3:2379/day\n"
        ))),
    }
}

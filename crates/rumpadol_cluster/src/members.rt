//! Whether members are of one cluster.
ghost use Rattle.std.specs.Prelude.{◌≡◌};
ghost use Rattle.rumpadol_cluster.specs.Cluster.{joined};

/// The cluster of all members, once one more has told its own, if it has. `None` where that is another one.
pub fn joined(known: Option<u64>, told: Option<u64>) -> Option<Option<u64>>
    ensures { result ≡ joined known told }
{
    match (known, told) {
        (Some(known), Some(told)) if known == told => Some(Some(known)),
        (Some(_), Some(_)) => None,
        (Some(known), None) => Some(Some(known)),
        (None, told) => Some(told),
    }
}

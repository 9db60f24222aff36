//! A host whose journal is on etcd.

use iso_issuer::Accounts;
use iso_record::Heading;
use rumpadol_ports::{HostWords, System};
use rumpadol_replicas::{Replica, start_active, start_standby};
use rumpadol_tables::{Source, Stop};
use std::alloc::Global;
use std::io::Write;

/// The host over the journal of these accounts, once it is the active one.
pub fn started<'n, S: Source + System, F: Write>(
    alloc: Global,
    words: &HostWords<'_>,
    accounts: Accounts,
    heading: &Heading,
    source: &'n S,
    is_shown: bool,
    faults: &mut F,
) -> Result<Replica<'n, S::Runtime>, Stop> {
    let (net, kept, asked) = (source.runtime(), words.kept, &words.replica);
    if asked.is_standby {
        let stop_file = words.stop_file;
        return start_standby(
            alloc, net, kept, asked, stop_file, accounts, heading, source, faults,
        );
    }
    start_active(
        alloc, net, kept, asked, accounts, heading, source, is_shown, faults,
    )
}

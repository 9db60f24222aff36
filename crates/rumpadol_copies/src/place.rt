//! Words about etcd, where the journal is a file.

use rumpadol_journals::EtcdWords;
use rumpadol_tables::{Stop, misused};
use std::alloc::Global;

/// The word about etcd that is given, if one is.
fn given<'a>(etcd: EtcdWords<'a>) -> Option<&'static str> {
    if etcd.timeout.is_some() {
        return Some("--etcd-timeout");
    }
    if etcd.user.is_some() || etcd.password.is_some() {
        return Some("--etcd-user");
    }
    None
}

/// Refuses words about etcd where the journal is a file.
pub fn check_file_words(alloc: Global, file: &str, etcd: EtcdWords<'_>) -> Result<(), Stop> {
    match given(etcd) {
        Some(word) => Err(misused(format!(in alloc;
            "rumpadol: {word}: {file} is a file; leave this word out, or name a journal on etcd, as etcd://10.0.0.1:2379,10.0.0.2:2379,10.0.0.3:2379/day\n"
        ))),
        None => Ok(()),
    }
}

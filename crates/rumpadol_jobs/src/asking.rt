//! From the words that `clap` let pass to a job.

use crate::drive::drive_job;
use crate::front::front_words;
use crate::host::host_words;
use crate::job::Job;
use crate::journal::journal_asked;
use crate::messages::{convert_words, message_words};
use crate::page::page_words;
use crate::tables::tables_asked;
use clap::ArgMatches;
use rumpadol_messages::MessageJob;
use std::alloc::{AllocError, Global};

/// What the words ask that `clap` let pass. `None` is for a subcommand that the program doesn't have, so it never comes.
pub fn job_of<'a>(alloc: Global, matches: &ArgMatches<'a>) -> Result<Option<Job<'a>>, AllocError> {
    let Some((name, inner)) = matches.subcommand() else {
        return Ok(None);
    };
    match name {
        "explain" => Ok(Some(Job::Messages(MessageJob::Explain(message_words(inner))))),
        "decode" => Ok(Some(Job::Messages(MessageJob::Decode(message_words(inner))))),
        "encode" => Ok(Some(Job::Messages(MessageJob::Encode(message_words(inner))))),
        "convert" => Ok(Some(Job::Messages(MessageJob::Convert(convert_words(inner))))),
        "table" => tables_asked(alloc, inner),
        "host" => Ok(Some(Job::Host(host_words(inner)))),
        "front" => Ok(Some(Job::Front(front_words(inner)))),
        "drive" => Ok(Some(Job::Drive(drive_job(inner)))),
        "page" => Ok(Some(Job::Page(page_words(inner)))),
        "journal" => Ok(match journal_asked(inner) {
            Some(job) => Some(Job::Books(job)),
            None => None,
        }),
        _ => Ok(None),
    }
}

//! What the words of `journal` ask.

use crate::values::text_of;
use clap::ArgMatches;
use iso_books::Form;
use rumpadol_journals::{BooksJob, BooksWords, CopyWords, EtcdWords, JournalJob};

/// In which form a journal is told, where CSV is a choice or not.
fn form_of(is_csv: bool, is_json: bool) -> Form {
    if is_csv {
        Form::Csv
    } else if is_json {
        Form::Json
    } else {
        Form::Columns
    }
}

/// The words about a journal that is told.
fn books_words<'a>(matches: &ArgMatches<'a>, is_csv: bool) -> BooksWords<'a> {
    BooksWords {
        file: text_of(matches, "file"),
        form: form_of(is_csv, matches.get_flag("json")),
        is_clear: matches.get_flag("clear"),
    }
}

/// The words about a journal that is checked.
fn check_words<'a>(matches: &ArgMatches<'a>) -> BooksWords<'a> {
    BooksWords {
        file: text_of(matches, "file"),
        form: Form::Columns,
        is_clear: false,
    }
}

/// The words about the members of etcd.
fn etcd_words<'a>(matches: &ArgMatches<'a>) -> EtcdWords<'a> {
    EtcdWords {
        timeout: matches.get_one::<u64>("etcd-timeout"),
        user: matches.get_str("etcd-user"),
        password: matches.get_str("etcd-password"),
    }
}

/// What a subcommand of `journal` asks that looks into one.
fn books_job<'a>(name: &str, matches: &ArgMatches<'a>) -> Option<BooksJob<'a>> {
    match name {
        "show" => Some(BooksJob::Show(books_words(matches, false))),
        "check" => Some(BooksJob::Check(check_words(matches), matches.get_str("accounts"))),
        "export" => Some(BooksJob::Show(books_words(matches, matches.get_flag("csv")))),
        "balance" => {
            let accounts = text_of(matches, "accounts");
            Some(BooksJob::Balance(books_words(matches, false), accounts))
        }
        _ => None,
    }
}

/// The words about a copy.
fn copy_words<'a>(matches: &ArgMatches<'a>) -> CopyWords<'a> {
    CopyWords {
        from: text_of(matches, "from"),
        to: text_of(matches, "to"),
    }
}

/// What `journal` asks.
pub fn journal_asked<'a>(matches: &ArgMatches<'a>) -> Option<JournalJob<'a>> {
    let (name, inner) = matches.subcommand()?;
    if name == "copy" {
        return Some(JournalJob::Copy(copy_words(inner), etcd_words(inner)));
    }
    let job = books_job(name, inner)?;
    Some(JournalJob::Books(job, etcd_words(inner)))
}

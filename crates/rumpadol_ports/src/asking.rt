//! Where a host is asked to listen, and how its peers write there.

use crate::link::link_under;
use crate::words::{HostWords, ListenWords, Place};
use iso_host::Link;
use iso_lines::Line;
use iso_links::{LinksFault, Terms, read_links};
use rumpadol_tables::{STANDARD_INPUT, Source, Stop, document_at, misused, refused, table_named};
use std::alloc::{AllocError, Global};
use std::io::Read;
use std::net::SocketAddr;

/// The name of the link that the words tell.
const BY_WORDS: &str = "main";

/// What is said of links that can't be read.
const NO_LINKS: &str = "the links can't be read; name a document that is there and may be read";

/// The address that a word writes.
pub fn address_of(alloc: Global, word: &str, text: &str) -> Result<SocketAddr, Stop> {
    match text.parse::<SocketAddr>() {
        Ok(address) => Ok(address),
        Err(_) => Err(misused(format!(in alloc;
            "rumpadol: --{word} {text}: write an address and a port, as 0.0.0.0:8583 or [::]:8583\n"
        ))),
    }
}

/// The link that the words tell.
fn link_by_words(alloc: Global, words: &ListenWords<'_>) -> Result<Terms, Stop> {
    Ok(Terms {
        name: String::from_str(alloc, BY_WORDS)?,
        address: address_of(alloc, "listen", words.address)?,
        table: String::from_str(alloc, words.stream.table)?,
        header: words.stream.header,
        skip: 0,
        networks: Vec::new(alloc),
        acquirers: Vec::new(alloc),
        limits: words.limits,
    })
}

/// The links of a document.
fn links_at<S: Source>(alloc: Global, source: &S, path: &str) -> Result<Vec<Terms>, Stop> {
    let text = document_at(alloc, source, path, NO_LINKS)?;
    match read_links(alloc, &text) {
        Ok(links) => Ok(links),
        Err(LinksFault::Memory) => Err(Stop::Memory),
        Err(fault) => Err(refused(format!(in alloc; "rumpadol: {path}: {fault}\n"))),
    }
}

/// Where a host is asked to listen.
#[derive(Drop)]
pub struct Asked {
    /// The terms of its links.
    pub terms: Vec<Terms>,
    /// The address at which it tells its metrics.
    pub metrics: Option<SocketAddr>,
}

/// The links that are asked.
fn terms_asked<S: Source>(
    alloc: Global,
    source: &S,
    place: &Place<'_>,
) -> Result<Vec<Terms>, Stop> {
    let mut terms = Vec::new(alloc);
    match place {
        Place::Streams(_) => {}
        Place::Listen(words) => terms.push(link_by_words(alloc, words)?)?,
        Place::Links(path) => return links_at(alloc, source, path),
    }
    Ok(terms)
}

/// The address of the metrics, if it is asked.
fn metrics_asked(alloc: Global, text: Option<&str>) -> Result<Option<SocketAddr>, Stop> {
    match text {
        Some(text) => Ok(Some(address_of(alloc, "metrics", text)?)),
        None => Ok(None),
    }
}

/// Where the words ask a host to listen.
pub fn asked_of<S: Source>(
    alloc: Global,
    source: &S,
    words: &HostWords<'_>,
) -> Result<Asked, Stop> {
    Ok(Asked {
        metrics: metrics_asked(alloc, words.metrics)?,
        terms: terms_asked(alloc, source, &words.place)?,
    })
}

/// The table and the header of a link.
fn agreed<S: Source, I: Read>(
    alloc: Global,
    source: &S,
    input: &mut I,
    terms: &Terms,
) -> Result<Link, Stop> {
    let word = terms.table.as_str();
    if word == STANDARD_INPUT {
        return Err(misused(format!(in alloc;
            "rumpadol: -: the end of standard input stops the host; name a file for the table\n"
        )));
    }
    let table = table_named(alloc, source, input, word)?;
    link_under(alloc, word, table, terms.header)
}

/// The tables and headers of all links.
pub fn all_agreed<S: Source, I: Read>(
    alloc: Global,
    source: &S,
    input: &mut I,
    terms: &[Terms],
) -> Result<Vec<Link>, Stop> {
    let mut links = Vec::new(alloc);
    for terms in terms {
        links.push(agreed(alloc, source, input, terms)?)?;
    }
    Ok(links)
}

/// The lines on which the host listens.
pub fn lines_of<'l>(
    alloc: Global,
    links: &'l [Link],
    terms: &'l [Terms],
) -> Result<Vec<Line<'l>>, AllocError> {
    let mut lines = Vec::new(alloc);
    for (link, terms) in links.iter().zip(terms.iter()) {
        lines.push(Line { link, terms })?;
    }
    Ok(lines)
}

/// The addresses on which the host listens.
pub fn addresses_of(alloc: Global, terms: &[Terms]) -> Result<Vec<SocketAddr>, AllocError> {
    let mut addresses = Vec::new(alloc);
    for terms in terms {
        addresses.push(terms.address)?;
    }
    Ok(addresses)
}

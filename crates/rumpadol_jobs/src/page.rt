//! What the words about a page ask.

use clap::ArgMatches;
use rumpadol_page::PageWords;

/// The port where the words name none.
const PORT: u16 = 8580;

/// What the words about a page tell.
pub fn page_words(matches: &ArgMatches<'_>) -> PageWords {
    let port = matches.get_one::<u16>("port").unwrap_or(PORT);
    PageWords { port }
}

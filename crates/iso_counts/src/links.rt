//! The counts of all links.
ghost use Rattle.std.specs.Prelude.{◌≡◌};
ghost use Rattle.iso_counts.specs.Metered.{link_of, link_counted};

use crate::link_counts::LinkCounts;
use iso_lines::Event;

/// The place of the link that an event is of.
pub fn link_of(event: &Event) -> Option<usize>
    // It is the link that the event names, and `None` of an event of the whole host or its journal.
    ensures { result ≡ link_of event.now }
{
    match *event {
        Event::Listening { link, .. }
        | Event::Connected { link, .. }
        | Event::Refused { link, .. }
        | Event::NotAccepted { link }
        | Event::Answered { link, .. }
        | Event::Replied { link, .. }
        | Event::Foreign { link, .. }
        | Event::Silent { link, .. }
        | Event::Unreadable { link, .. }
        | Event::Closed { link, .. }
        | Event::Moved { link, .. } => Some(link),
        Event::Kept { .. } | Event::Journal { .. } | Event::LogFailed | Event::Stopping { .. } =>
            None,
    }
}

/// Counts an event of the link at a place, if there is one.
pub fn count_link(links: &mut [LinkCounts], link: usize, event: &Event)
    // Only the counts of that link change, and only by the event.
    ensures { links.new ≡ link_counted links.old link event.now }
{
    if link < links.len() {
        links[link].count(event);
    }
}

//! A line of a schedule.

ghost use Rattle.std.specs.Prelude.{IfSome};
ghost use Rattle.iso_acquirer.specs.World.{IsFairEvent};
ghost use Rattle.iso_events.specs.Line.{IsFairLine};

use iso_acquirer::Event;
use iso_order::{MOST_AMOUNT, Pan};

/// When each purchase is sent: month, day, hour, minute, second.
const SENT: u64 = 102_030_405;

/// What a line is.
#[derive(Clone, Copy)]
pub enum ScheduleLine {
    /// A remark.
    Said,
    /// What happens next.
    Event(Event),
    /// Nothing that can happen.
    Unknown,
}

/// The event that a word and a number name, if they name one.
fn event_of(pan: Pan, word: &str, number: u64) -> Option<Event>
    ensures { IfSome result IsFairEvent }
{
    match word {
        "begin" => {
            if number == 0 || number > MOST_AMOUNT {
                return None;
            }
            Some(Event::Begin {
                pan,
                amount: number,
                currency: *b"840",
                sent: SENT,
            })
        }
        "timeout" => Some(Event::Timeout(u32::try_from(number).ok()?)),
        "deliver" => Some(Event::Deliver(number as usize)),
        "answer" => Some(Event::Answer(number as usize)),
        _ => None,
    }
}

/// What a line says. Each event is one that can be played.
pub fn schedule_line(pan: Pan, text: &str) -> ScheduleLine
    ensures { IsFairLine result }
{
    let text = text.trim();
    if text.is_empty() || text.starts_with("#") {
        return ScheduleLine::Said;
    }
    let Some((word, digits)) = text.split_once(" ") else {
        return ScheduleLine::Unknown;
    };
    let Ok(number) = digits.parse::<u64>() else {
        return ScheduleLine::Unknown;
    };
    match event_of(pan, word, number) {
        Some(event) => ScheduleLine::Event(event),
        None => ScheduleLine::Unknown,
    }
}

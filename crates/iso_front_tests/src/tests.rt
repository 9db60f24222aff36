mod frames;
mod rows;

use crate::{Dials, Line};
use frames::DOCUMENT;
use iso_front::Shards;
use iso_front_loop::{Acquirers, Front, token_of};
use iso_relay::Bounds;
use iso_table::Table;
use iso_wire::Header;
use rows::{ROWS, Row, Step};
use std::alloc::{AllocError, Global};
use std::io;

/// What is allowed.
const BOUNDS: Bounds = Bounds {
    acquirers: 2,
    waiting: 100,
    idle: 60_000,
};

/// What is behind so many bytes.
fn behind(bytes: &[u8], count: usize) -> &[u8] {
    let (_, rest) = bytes.split_at(count.min(bytes.len()));
    rest
}

/// A front of one acquirer, and what was looked at of it.
#[derive(Drop)]
struct Day<'f> {
    acquirers: Acquirers<'f, Line, io::Sink>,
    dials: Dials,
    key: usize,
    now: u64,
    /// How many bytes the acquirer had, and each shard.
    got: usize,
    asked: [usize; 2],
}

impl<'f> Day<'f> {
    /// A front of one acquirer, before anything is asked; none where the acquirer isn't let in.
    fn new(alloc: Global, front: Front<'f>) -> Option<Day<'f>> {
        let mut acquirers = Acquirers::new(alloc, front, io::sink());
        let key = acquirers.let_in(Line::new(alloc), 0)?;
        let dials = Dials {
            alloc,
            count: 0,
            refuses: false,
        };
        Some(Day {
            acquirers,
            dials,
            key,
            now: 0,
            got: 0,
            asked: [0, 0],
        })
    }

    /// Some turns at this moment.
    fn turn(&mut self) {
        for _ in 0..4 {
            self.acquirers.hear_all(self.now, &mut self.dials);
            let _ = self.acquirers.settle(self.now);
        }
    }

    /// Whether the acquirer got these bytes behind those that it had.
    fn gets(&mut self, want: &[u8]) -> bool {
        self.turn();
        let Some(line) = self.acquirers.stream_mut(self.key) else {
            return false;
        };
        let new = behind(line.taken(), self.got);
        let is = new.starts_with(want) && (!want.is_empty() || new.is_empty());
        self.got = self.got.saturating_add(want.len());
        is
    }

    /// Whether a shard got these bytes behind those that it had.
    fn got(&mut self, shard: usize, want: &[u8]) -> bool {
        let Some(line) = self.acquirers.shard_mut(self.key, shard) else {
            return false;
        };
        let Some(had) = self.asked.get_mut(shard) else {
            return false;
        };
        let is = behind(line.taken(), *had) == want;
        *had = line.taken().len();
        is
    }

    /// Feeds the acquirer's connection.
    fn ask(&mut self, bytes: &[u8]) -> Result<bool, AllocError> {
        if let Some(line) = self.acquirers.stream_mut(self.key) {
            line.feed(bytes)?;
        }
        self.acquirers.notice(token_of(self.key, 0), false);
        self.turn();
        Ok(true)
    }

    /// Feeds a shard's connection.
    fn say(&mut self, shard: usize, bytes: &[u8]) -> Result<bool, AllocError> {
        let Some(line) = self.acquirers.shard_mut(self.key, shard) else {
            return Ok(false);
        };
        line.feed(bytes)?;
        self.acquirers
            .notice(token_of(self.key, shard.saturating_add(1)), false);
        self.turn();
        Ok(true)
    }

    /// Ends a shard's connection.
    fn end(&mut self, shard: usize) -> bool {
        let Some(line) = self.acquirers.shard_mut(self.key, shard) else {
            return false;
        };
        line.end();
        if let Some(had) = self.asked.get_mut(shard) {
            *had = 0;
        }
        self.acquirers
            .notice(token_of(self.key, shard.saturating_add(1)), true);
        self.turn();
        true
    }

    /// Lets the acquirer take bytes or not.
    fn takes(&mut self, takes: bool) -> bool {
        if let Some(line) = self.acquirers.stream_mut(self.key) {
            line.takes = takes;
        }
        self.acquirers.notice(token_of(self.key, 0), false);
        self.turn();
        true
    }

    /// Whether a step goes as it is to.
    fn goes(&mut self, step: &Step) -> Result<bool, AllocError> {
        match step {
            Step::Asks(bytes) => self.ask(bytes),
            Step::Says(shard, bytes) => self.say(*shard, bytes),
            Step::Ends(shard) => Ok(self.end(*shard)),
            Step::Gets(bytes) => Ok(self.gets(bytes)),
            Step::Got(shard, bytes) => Ok(self.got(*shard, bytes)),
            Step::Lost(shard) => Ok(self.acquirers.shard_mut(self.key, *shard).is_none()),
            Step::Pass(time) => {
                self.now = self.now.saturating_add(*time);
                self.turn();
                Ok(true)
            }
            Step::Opened(count) => Ok(self.dials.count == *count),
            Step::Connected(is) => Ok(self.acquirers.is_empty() != *is),
            Step::Takes(takes) => Ok(self.takes(*takes)),
        }
    }
}

/// The step at which a row doesn't go as it is to, counted from 1; 0 where all do.
fn fails_at(alloc: Global, row: &Row) -> Result<usize, AllocError> {
    let (Ok(shards), Ok(table)) = (Shards::from_json(alloc, DOCUMENT), Table::ascii87(alloc)) else {
        return Ok(1_000);
    };
    let front = Front {
        shards: &shards,
        table: &table,
        header: Header::Ascii4,
        bounds: BOUNDS,
    };
    let Some(mut day) = Day::new(alloc, front) else {
        return Ok(1_001);
    };
    for (place, step) in row.steps.iter().enumerate() {
        if !day.goes(step)? {
            return Ok(place.saturating_add(1));
        }
    }
    Ok(0)
}

#[test]
fn days_of_a_front(rt: HostRuntime) {
    for row in ROWS {
        let at = fails_at(rt.alloc(), row).expect(&rt, "memory");
        assert!(rt; at == 0, "{}: step {at}", row.name);
    }
}

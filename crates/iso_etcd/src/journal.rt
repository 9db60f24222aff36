//! A journal on a cluster.
use crate::append::{Append, Cause};
use crate::cluster::Cluster;
use crate::dial::Dial;
use crate::fault::{Fault, fault_of};
use crate::judging::append_of;
use crate::key::{batch_key, end_key};
use crate::page::{Page, read_page, read_value};
use crate::question::{look_text, put_text, range_text};
use std::alloc::AllocError;

/// The most bytes of a batch.
pub const MOST_BATCH: usize = 1_048_576;

/// How many batches a page can have whatever their sizes are.
pub const FEW: u32 = 4;

impl From<AllocError> for Cause {
    fn from(_: AllocError) -> Cause {
        Cause::Memory
    }
}

impl From<AllocError> for Fault {
    fn from(_: AllocError) -> Fault {
        Fault::Memory
    }
}

impl<D: Dial + Drop> Cluster<D> {
    /// Sends a transaction that puts a value at a key.
    pub(crate) fn put(&mut self, key: &[u8], value: &[u8], text: &str) -> Append {
        let heard = self.request("/v3/kv/txn", text);
        append_of(self.alloc, key, value, heard)
    }

    /// The key of a batch, and the transaction that puts it there.
    fn batch_put(&self, place: u32, batch: &[u8]) -> Result<(Vec<u8>, String), Cause> {
        let key = batch_key(self.alloc, &self.name, place)?;
        let text = put_text(self.alloc, key.as_slice(), batch)?;
        Ok((key, text))
    }

    /// Asks once that a batch be put at a place where nothing stands.
    ///
    /// After `Unknown` ask again for the same batch at the same place: it is put there at most once. That nothing is read
    /// there settles nothing.
    pub fn append_once(&mut self, place: u32, batch: &[u8]) -> Append {
        if batch.len() > MOST_BATCH {
            return Append::Unsent(Cause::TooLong);
        }
        match self.batch_put(place, batch) {
            Ok((key, text)) => self.put(key.as_slice(), batch, text.as_str()),
            Err(cause) => Append::Unsent(cause),
        }
    }

    /// Asks for the same batch at the same place until it is known what stands there, at most so many times.
    pub fn append(&mut self, place: u32, batch: &[u8], times: u32) -> Append {
        let mut append = Append::Unsent(Cause::Away);
        for _ in 0..times {
            append = append.then(self.append_once(place, batch));
            if append.is_settled() {
                return append;
            }
        }
        append
    }

    /// The body of an answer.
    pub(crate) fn ask_once(&mut self, path: &str, text: &str) -> Result<Vec<u8>, Fault> {
        match self.request(path, text) {
            Ok(response) if response.status == 200 => Ok(response.body),
            Ok(response) => Err(Fault::Status(response.status)),
            Err(loss) => Err(fault_of(loss)),
        }
    }

    /// The body of the first member's answer, where one answers.
    fn ask_each(&mut self, path: &str, text: &str) -> Result<Vec<u8>, Fault> {
        let mut answer = self.ask_once(path, text);
        for _ in 1..self.count() {
            if answer.is_ok() {
                return answer;
            }
            answer = self.ask_once(path, text);
        }
        answer
    }

    /// The text that asks for batches.
    fn page_text(&self, first: u32, most: u32) -> Result<String, AllocError> {
        let key = batch_key(self.alloc, &self.name, first)?;
        let end = end_key(self.alloc, &self.name)?;
        range_text(self.alloc, key.as_slice(), end.as_slice(), most)
    }

    /// The batches from a place on, at most so many.
    pub fn page(&mut self, first: u32, most: u32) -> Result<Page, Fault> {
        let text = self.page_text(first, most)?;
        let body = self.ask_each("/v3/kv/range", text.as_str())?;
        read_page(self.alloc, &self.name, first, body.as_slice())?.ok_or(Fault::Unreadable)
    }

    /// What stands at a key.
    pub(crate) fn value(&mut self, key: &[u8]) -> Result<Option<Vec<u8>>, Fault> {
        let text = look_text(self.alloc, key)?;
        let body = self.ask_each("/v3/kv/range", text.as_str())?;
        read_value(self.alloc, key, body.as_slice())?.ok_or(Fault::Unreadable)
    }

    /// The batch at a place. `None` where nothing stood there when it was read: a batch that is under way may stand there
    /// later.
    pub fn look(&mut self, place: u32) -> Result<Option<Vec<u8>>, Fault> {
        let key = batch_key(self.alloc, &self.name, place)?;
        self.value(key.as_slice())
    }
}

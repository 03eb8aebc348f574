ghost use Rattle.std.specs.Prelude.{◌≡◌, ◌<◌, ◌^◌, [], length, IfOk, OnOk};
ghost use Rattle.spec_journal.specs.Journal as journals;
ghost use Rattle.store_journal.specs.Journaled as journaled;
ghost use Rattle.store_journal.specs.LeftBy as left_by;

use crate::record_reader::read_record;
use crate::records::Record;
use ax_types::{Entry, List, Loaded, NoMemory, NodeId};
use net_wire::{Reader, Unread};
use std::alloc::Global;
use std::marker::Model;

/// What records leave, and whether one of the number of entries is among them.
#[derive(Drop)]
pub struct Left {
    term: u64,
    vote: Option<NodeId>,
    log: Vec<Entry>,
    counted: bool,
}

impl Model for Left {
    ghost use Rattle.store_journal.specs.LeftBy as left_by;

    ghost Value = { left_by.Left };

    ghost view = { λ a. record { content = record { term = a.term; vote = a.vote; log = a.log.items }; counted = a.counted } };
}

impl Left {
    /// What no record leaves.
    fn nothing(alloc: Global) -> Left
        ensures { result ≡ left_by.left_of [] }
    {
        Left {
            term: 0,
            vote: None,
            log: Vec::new(alloc),
            counted: false,
        }
    }

    /// Whether a record of the number of entries is among them.
    pub fn is_counted(&self) -> bool
        ensures { result ≡ self.now.counted }
    {
        self.counted
    }

    /// How many entries there are.
    pub fn entries(&self) -> u64
        ensures entries { result ≡ length self.now.content.log }
        ensures room { result < 2 ^ 63 }
    {
        self.log.len() as u64
    }

    /// One record more.
    fn take(&mut self, next: Record) -> Result<(), NoMemory>
        ensures { OnOk result (self.new ≡ left_by.left_then self.old (journaled.record_of next)) }
    {
        match next {
            Record::Vote { term, vote } => {
                self.term = term;
                self.vote = vote;
            }
            Record::Cut { last } => self.log.truncate(last as usize),
            Record::Plain { entry } => self.log.push(entry)?,
            Record::Count { entries: _ } => self.counted = true,
            Record::Placed { place: _, entry } => self.log.push(entry)?,
        }
        Ok(())
    }

    /// The term, the vote and the log.
    pub fn into_loaded(self) -> Loaded
        ensures { result ≡ self.content }
    {
        Loaded {
            term: self.term,
            vote: self.vote,
            log: List::from_vec(self.log),
        }
    }
}

/// A journal that was read: what its whole records leave, how many bytes they have, and whether what stands behind them
/// begins with no record that may stand there.
#[derive(Drop)]
pub struct Journal {
    pub left: Left,
    pub whole: u64,
    pub is_bad: bool,
}

impl Journal {
    /// Its version: 0 where it has no record, 2 where one of the number of entries stands, else 1.
    pub fn version(&self) -> u8
        ensures { result ≡ journaled.version_by self.now.whole self.now.left.counted }
    {
        if self.whole == 0 {
            0
        } else if self.left.is_counted() {
            2
        } else {
            1
        }
    }
}

/// The journal of these bytes.
pub fn read_journal(alloc: Global, bytes: &[u8]) -> Result<Journal, NoMemory>
    ensures left { IfOk result (λ j. j.left ≡ left_by.left_of (journals.records_of bytes.now)) }
    ensures whole { IfOk result (λ j. j.whole ≡ journals.whole (journals.records_of bytes.now)) }
    ensures bad { IfOk result (λ j. j.is_bad ≡ journaled.is_wrong (journals.journal_of bytes.now).why) }
{
    let mut left = Left::nothing(alloc);
    let mut reader = Reader::new(alloc, bytes);
    'records: loop {
        let whole = (bytes.len() - reader.left()) as u64;
        match read_record(&mut reader, left.is_counted(), left.entries()) {
            Ok(next) => left.take(next)?,
            Err(Unread::NoMemory) => return Err(NoMemory),
            Err(Unread::Part) => return Ok(Journal {
                left,
                whole,
                is_bad: false,
            }),
            Err(Unread::Wrong) => return Ok(Journal {
                left,
                whole,
                is_bad: true,
            }),
        }
    }
}

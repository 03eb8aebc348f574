ghost use Rattle.std.specs.Prelude.{◌≡◌, ◌<◌, ◌+◌, ◌-◌, ◌^◌, if◌then◌else◌};
ghost use Rattle.spec_reading.specs.Reading as reading;
ghost use Rattle.spec_reading.specs.Packets as packets;
ghost use Rattle.spec_journal.specs.Records as journal_records;
ghost use Rattle.net_wire.specs.ReaderCalls.{Gives};
ghost use Rattle.store_journal.specs.Journaled as journaled;

use crate::records::Record;
use ax_types::NodeId;
use ax_types::limits::MAX_NODES;
use net_wire::{Reader, Unread};

/// The node that was voted for: one byte, 0 for none.
fn read_vote(reader: &mut Reader) -> Result<Option<NodeId>, Unread>
    ensures { Gives result reader.new (journal_records.vote_at reader.old) }
{
    Ok(NodeId::new(reader.read_small(0, MAX_NODES)?))
}

fn read_plain(reader: &mut Reader, counted: bool) -> Result<Record, Unread>
    ensures { journaled.GivesRecord result reader.new (if counted then Err reading.Wrong else reading.one_field packets.entry_at journal_records.Plain reader.old) }
{
    if counted {
        return Err(Unread::Wrong);
    }
    Ok(Record::Plain {
        entry: reader.read_entry()?,
    })
}

fn read_count(reader: &mut Reader, counted: bool, entries: u64) -> Result<Record, Unread>
    ensures { journaled.GivesRecord result reader.new (if counted then Err reading.Wrong else reading.one_field (reading.within_at entries entries) journal_records.Count reader.old) }
{
    if counted {
        return Err(Unread::Wrong);
    }
    Ok(Record::Count {
        entries: reader.read_within(entries, entries)?,
    })
}

fn read_placed(reader: &mut Reader, counted: bool, entries: u64) -> Result<Record, Unread>
    requires { entries < 2 ^ 64 - 1 }
    ensures { journaled.GivesRecord result reader.new (if counted then reading.two_fields (reading.within_at (entries + 1) (entries + 1)) packets.entry_at journal_records.Placed reader.old else Err reading.Wrong) }
{
    if !counted {
        return Err(Unread::Wrong);
    }
    let place = entries + 1;
    Ok(Record::Placed {
        place: reader.read_within(place, place)?,
        entry: reader.read_entry()?,
    })
}

/// The next record, behind so many entries, and behind a record of their number if `counted`.
#[tactic(auto, unfolding(spec_journal::specs::Records::record_at))]
pub fn read_record(reader: &mut Reader, counted: bool, entries: u64) -> Result<Record, Unread>
    requires { entries < 2 ^ 64 - 1 }
    ensures { journaled.GivesRecord result reader.new (journal_records.record_at counted entries reader.old) }
{
    match reader.read_byte()? {
        0x11 => Ok(Record::Vote {
            term: reader.read_u64()?,
            vote: read_vote(reader)?,
        }),
        0x12 => Ok(Record::Cut {
            last: reader.read_u64()?,
        }),
        0x13 => read_plain(reader, counted),
        0x14 => read_count(reader, counted, entries),
        0x15 => read_placed(reader, counted, entries),
        _ => Err(Unread::Wrong),
    }
}

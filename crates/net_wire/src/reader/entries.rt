ghost use Rattle.spec_reading.specs.Reading as reading;
ghost use Rattle.spec_reading.specs.Packets as packets;
ghost use Rattle.net_wire.specs.ReaderCalls.{Gives};

use super::Reader;
use crate::Unread;
use ax_types::{Body, Entry};

impl<'a> Reader<'a> {
    /// A body: its number and its fields.
    #[tactic(auto, unfolding(spec_reading::specs::Packets::body_at))]
    fn read_body(&mut self) -> Result<Body, Unread>
        ensures { Gives result self.new (packets.body_at self.old) }
    {
        match self.read_byte()? {
            0 => Ok(Body::Blank),
            1 => Ok(Body::Register {
                client: self.read_client()?,
                opening: self.read_u64()?,
            }),
            2 => Ok(Body::Keep {
                client: self.read_client()?,
                session: self.read_u64()?,
                answered: self.read_u64()?,
                heard: self.read_u64()?,
            }),
            3 => Ok(Body::Command {
                client: self.read_client()?,
                session: self.read_u64()?,
                seq: self.read_u64()?,
                name: self.read_name()?,
                op: self.read_op()?,
            }),
            4 => Ok(Body::Close {
                client: self.read_client()?,
                session: self.read_u64()?,
            }),
            5 => Ok(Body::Expire {
                session: self.read_u64()?,
            }),
            _ => Err(Unread::Wrong),
        }
    }

    /// An entry: its term, its time and its body.
    #[tactic(auto, unfolding(spec_reading::specs::Packets::entry_at))]
    pub fn read_entry(&mut self) -> Result<Entry, Unread>
        ensures { Gives result self.new (packets.entry_at self.old) }
    {
        Ok(Entry {
            term: self.read_u64()?,
            time: self.read_u64()?,
            body: self.read_body()?,
        })
    }
}

ghost use Rattle.spec_reading.specs.Reading as reading;
ghost use Rattle.spec_reading.specs.ReadReplies as read_replies;
ghost use Rattle.spec_reading.specs.Packets as packets;
ghost use Rattle.ax_types.specs.declared.packets.Payload.TheVariants as payload;
ghost use Rattle.net_wire.specs.ReaderCalls.{Gives};

use super::Reader;
use crate::Unread;
use ax_types::limits::MAX_APPEND;
use ax_types::{Entry, Event, How, Level, List, Payload};

impl<'a> Reader<'a> {
    /// A level: one byte, 0 or 1.
    fn read_level(&mut self) -> Result<Level, Unread>
        ensures { Gives result self.new (packets.level_at self.old) }
    {
        match self.read_byte()? {
            0 => Ok(Level::Seq),
            1 => Ok(Level::Lin),
            _ => Err(Unread::Wrong),
        }
    }

    /// How a session ended: one byte, 0 or 1.
    fn read_how(&mut self) -> Result<How, Unread>
        ensures { Gives result self.new (packets.how_at self.old) }
    {
        match self.read_byte()? {
            0 => Ok(How::Closed),
            1 => Ok(How::Expired),
            _ => Err(Unread::Wrong),
        }
    }

    /// A term or an arrival: 0 at level `seq`.
    fn read_reach(&mut self, level: Level) -> Result<u64, Unread>
        ensures { Gives result self.new (packets.reach_at level self.old) }
    {
        match level {
            Level::Seq => self.read_within(0, 0),
            Level::Lin => self.read_u64(),
        }
    }

    /// So many entries.
    fn read_entries(&mut self, count: u8) -> Result<List<Entry>, Unread>
        ensures { Gives result self.new (reading.many_at packets.entry_at count self.old) }
    {
        let mut entries = List::with_capacity(self.alloc, count as usize)?;
        'entries: for _ in 0..count {
            entries.push(self.read_entry()?)?;
        }
        Ok(entries)
    }

    /// So many events.
    fn read_counted_events(&mut self, count: u32) -> Result<List<Event>, Unread>
        ensures { Gives result self.new (reading.many_at read_replies.event_at count self.old) }
    {
        let mut events = List::new(self.alloc);
        'events: for _ in 0..count {
            events.push(self.read_event()?)?;
        }
        Ok(events)
    }

    /// Events: their count of four bytes, at least 1, and each.
    #[tactic(auto, unfolding(spec_reading::specs::Packets::events_at))]
    fn read_events(&mut self) -> Result<List<Event>, Unread>
        ensures { Gives result self.new (packets.events_at self.old) }
    {
        let count = self.read_u32()?;
        if count == 0 {
            return Err(Unread::Wrong);
        }
        self.read_counted_events(count)
    }

    fn read_vote(&mut self) -> Result<Payload, Unread>
        ensures { Gives result self.new (reading.three_fields reading.u64_at reading.u64_at reading.u64_at payload.Vote self.old) }
    {
        Ok(Payload::Vote {
            term: self.read_u64()?,
            last: self.read_u64()?,
            last_term: self.read_u64()?,
        })
    }

    #[tactic(auto, unfolding(spec_reading::specs::Packets::append_at))]
    fn read_append(&mut self) -> Result<Payload, Unread>
        ensures { Gives result self.new (packets.append_at self.old) }
    {
        let term = self.read_u64()?;
        let prev = self.read_u64()?;
        let prev_term = self.read_u64()?;
        let commit = self.read_u64()?;
        let round = self.read_u64()?;
        let count = self.read_small(0, MAX_APPEND as u8)?;
        Ok(Payload::Append {
            term,
            prev,
            prev_term,
            commit,
            round,
            entries: self.read_entries(count)?,
        })
    }

    #[tactic(auto, unfolding(spec_reading::specs::Packets::append_reply_at))]
    fn read_append_reply(&mut self) -> Result<Payload, Unread>
        ensures { Gives result self.new (packets.append_reply_at self.old) }
    {
        Ok(Payload::AppendReply {
            term: self.read_u64()?,
            ok: self.read_truth()?,
            place: self.read_u64()?,
            round: self.read_u64()?,
        })
    }

    fn read_keep(&mut self) -> Result<Payload, Unread>
        ensures { Gives result self.new (packets.keep_fields payload.Keep self.old) }
    {
        Ok(Payload::Keep {
            client: self.read_client()?,
            session: self.read_u64()?,
            answered: self.read_u64()?,
            heard: self.read_u64()?,
        })
    }

    fn read_command(&mut self) -> Result<Payload, Unread>
        ensures { Gives result self.new (packets.command_fields payload.Command self.old) }
    {
        Ok(Payload::Command {
            client: self.read_client()?,
            session: self.read_u64()?,
            seq: self.read_u64()?,
            name: self.read_name()?,
            op: self.read_op()?,
        })
    }

    #[tactic(auto, unfolding(spec_reading::specs::Packets::query_payload_at))]
    fn read_query_payload(&mut self) -> Result<Payload, Unread>
        ensures { Gives result self.new (packets.query_payload_at self.old) }
    {
        Ok(Payload::Query {
            client: self.read_client()?,
            session: self.read_u64()?,
            call: self.read_u64()?,
            level: self.read_level()?,
            seen: self.read_u64()?,
            seq: self.read_u64()?,
            name: self.read_name()?,
            query: self.read_query()?,
        })
    }

    #[tactic(auto, unfolding(spec_reading::specs::Packets::reply_payload_at))]
    fn read_reply_payload(&mut self) -> Result<Payload, Unread>
        ensures { Gives result self.new (packets.reply_payload_at self.old) }
    {
        Ok(Payload::Reply {
            session: self.read_u64()?,
            seq: self.read_u64()?,
            place: self.read_u64()?,
            events: self.read_u64()?,
            reply: self.read_reply()?,
        })
    }

    #[tactic(auto, unfolding(spec_reading::specs::Packets::answer_at))]
    fn read_answer(&mut self) -> Result<Payload, Unread>
        ensures { Gives result self.new (packets.answer_at self.old) }
    {
        let session = self.read_u64()?;
        let call = self.read_u64()?;
        let level = self.read_level()?;
        Ok(Payload::Answer {
            session,
            call,
            level,
            place: self.read_u64()?,
            events: self.read_u64()?,
            term: self.read_reach(level)?,
            arrival: self.read_reach(level)?,
            reply: self.read_reply()?,
        })
    }

    #[tactic(auto, unfolding(spec_reading::specs::Packets::batch_at))]
    fn read_batch(&mut self) -> Result<Payload, Unread>
        ensures { Gives result self.new (packets.batch_at self.old) }
    {
        Ok(Payload::Batch {
            session: self.read_u64()?,
            place: self.read_u64()?,
            prev: self.read_u64()?,
            events: self.read_events()?,
        })
    }

    /// A payload: its number and its fields.
    #[tactic(auto, unfolding(spec_reading::specs::Packets::payload_at))]
    pub fn read_payload(&mut self) -> Result<Payload, Unread>
        ensures { Gives result self.new (packets.payload_at self.old) }
    {
        match self.read_byte()? {
            1 => self.read_vote(),
            2 => Ok(Payload::VoteReply {
                term: self.read_u64()?,
                granted: self.read_truth()?,
            }),
            3 => self.read_append(),
            4 => self.read_append_reply(),
            5 => Ok(Payload::Register {
                client: self.read_client()?,
                opening: self.read_u64()?,
            }),
            6 => self.read_keep(),
            7 => self.read_command(),
            8 => Ok(Payload::Close {
                client: self.read_client()?,
                session: self.read_u64()?,
            }),
            9 => self.read_query_payload(),
            10 => Ok(Payload::Connect {
                client: self.read_client()?,
                session: self.read_u64()?,
                heard: self.read_u64()?,
            }),
            11 => Ok(Payload::Reset {
                client: self.read_client()?,
                session: self.read_u64()?,
                heard: self.read_u64()?,
            }),
            12 => Ok(Payload::Opened {
                opening: self.read_u64()?,
                session: self.read_u64()?,
            }),
            13 => self.read_reply_payload(),
            14 => Ok(Payload::Gap {
                session: self.read_u64()?,
                last: self.read_u64()?,
            }),
            15 => self.read_answer(),
            16 => self.read_batch(),
            17 => Ok(Payload::Ended {
                session: self.read_u64()?,
                place: self.read_u64()?,
                how: self.read_how()?,
            }),
            _ => Err(Unread::Wrong),
        }
    }
}

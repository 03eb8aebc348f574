ghost use Rattle.std.specs.Prelude.{◌++◌};
ghost use Rattle.spec_reading.specs.Reading as reading;
ghost use Rattle.spec_reading.specs.ReadReplies as read_replies;
ghost use Rattle.net_wire.specs.ReaderCalls.{Gives};

use super::Reader;
use crate::Unread;
use ax_types::{Event, List, Reply};

impl<'a> Reader<'a> {
    /// So many sessions.
    fn read_sessions(&mut self, count: u32) -> Result<List<u64>, Unread>
        ensures { Gives result self.new (reading.many_at reading.u64_at count self.old) }
    {
        let mut sessions = List::new(self.alloc);
        'sessions: for _ in 0..count {
            sessions.push(self.read_u64()?)?;
        }
        Ok(sessions)
    }

    /// The sessions of a group: their count of four bytes, and each.
    #[tactic(auto, unfolding(spec_reading::specs::ReadReplies::members_at))]
    fn read_members(&mut self) -> Result<List<u64>, Unread>
        ensures { Gives result self.new (read_replies.members_at self.old) }
    {
        let count = self.read_u32()?;
        self.read_sessions(count)
    }

    /// A reply: its number and its fields.
    #[tactic(auto, unfolding(spec_reading::specs::ReadReplies::reply_at))]
    pub fn read_reply(&mut self) -> Result<Reply, Unread>
        ensures { Gives result self.new (read_replies.reply_at self.old) }
    {
        match self.read_byte()? {
            0 => Ok(Reply::Done),
            1 => Ok(Reply::Nothing),
            2 => Ok(Reply::Found(self.read_text()?)),
            3 => Ok(Reply::Yes),
            4 => Ok(Reply::No),
            5 => Ok(Reply::Number(self.read_i64()?)),
            6 => Ok(Reply::Fence(self.read_u64()?)),
            7 => Ok(Reply::Holder {
                session: self.read_u64()?,
                fence: self.read_u64()?,
            }),
            8 => Ok(Reply::Leader {
                session: self.read_u64()?,
                term: self.read_u64()?,
            }),
            9 => Ok(Reply::Members(self.read_members()?)),
            10 => Ok(Reply::Busy),
            11 => Ok(Reply::Already),
            12 => Ok(Reply::NotHolder),
            13 => Ok(Reply::NotMember),
            14 => Ok(Reply::Overflow),
            15 => Ok(Reply::Full),
            16 => Ok(Reply::WrongKind),
            _ => Err(Unread::Wrong),
        }
    }

    /// An event: its number and its fields.
    #[tactic(auto, unfolding(spec_reading::specs::ReadReplies::event_at))]
    pub fn read_event(&mut self) -> Result<Event, Unread>
        ensures { Gives result self.new (read_replies.event_at self.old) }
    {
        match self.read_byte()? {
            1 => Ok(Event::Changed {
                name: self.read_name()?,
                key: self.read_key()?,
                text: self.read_text()?,
            }),
            2 => Ok(Event::Removed {
                name: self.read_name()?,
                key: self.read_key()?,
            }),
            3 => Ok(Event::Set {
                name: self.read_name()?,
                text: self.read_text()?,
            }),
            4 => Ok(Event::Cleared {
                name: self.read_name()?,
            }),
            5 => Ok(Event::Granted {
                name: self.read_name()?,
                fence: self.read_u64()?,
            }),
            6 => Ok(Event::Joined {
                name: self.read_name()?,
                session: self.read_u64()?,
            }),
            7 => Ok(Event::Left {
                name: self.read_name()?,
                session: self.read_u64()?,
            }),
            8 => Ok(Event::Elected {
                name: self.read_name()?,
                session: self.read_u64()?,
                term: self.read_u64()?,
            }),
            9 => Ok(Event::Message {
                name: self.read_name()?,
                text: self.read_text()?,
            }),
            _ => Err(Unread::Wrong),
        }
    }
}

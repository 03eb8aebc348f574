ghost use Rattle.std.specs.Prelude.{◌≡◌, []};

use crate::{Duplicate, Key, Level, List, Name, NoMemory, Text};
use std::alloc::Global;

/// What a command or a query is answered.
#[derive(Clone, PartialEq, Drop)]
pub enum Reply {
    Done,
    Nothing,
    Found(Text),
    Yes,
    No,
    Number(i64),
    /// The fencing number of a grant: the place of the act that made it.
    Fence(u64),
    Holder { session: u64, fence: u64 },
    Leader { session: u64, term: u64 },
    Members(List<u64>),
    Busy,
    Already,
    NotHolder,
    NotMember,
    Overflow,
    Full,
    WrongKind,
}

impl From<bool> for Reply {
    ghost use Rattle.std.specs.Prelude.{if◌then◌else◌};
    ghost use Rattle.ax_types.specs.declared.replies.Reply.TheVariants as reply;

    ghost from_gives = { λ b r. r ≡ (if b then reply.Yes else reply.No) };

    fn from(holds: bool) -> Reply {
        if holds { Reply::Yes } else { Reply::No }
    }
}

impl Duplicate for Reply {
    fn copy(&self) -> Result<Reply, NoMemory> {
        Ok(self.clone()?)
    }
}

/// What a session that listens is told of a resource.
#[derive(Clone, PartialEq, Drop)]
pub enum Event {
    Changed { name: Name, key: Key, text: Text },
    Removed { name: Name, key: Key },
    Set { name: Name, text: Text },
    Cleared { name: Name },
    Granted { name: Name, fence: u64 },
    Joined { name: Name, session: u64 },
    Left { name: Name, session: u64 },
    Elected { name: Name, session: u64, term: u64 },
    Message { name: Name, text: Text },
}

impl Duplicate for Event {
    fn copy(&self) -> Result<Event, NoMemory> {
        Ok(self.clone()?)
    }
}

/// What an act at a resource gives: the reply, and the sessions that are told, each with its event, in order.
#[derive(Drop)]
pub struct Turn {
    pub reply: Reply,
    pub told: List<(u64, Event)>,
}

impl Turn {
    /// A reply of which nobody is told.
    pub fn quiet(alloc: Global, reply: Reply) -> Turn
        ensures { result ≡ record { reply = reply; told = [] } }
    {
        Turn {
            reply,
            told: List::new(alloc),
        }
    }
}

/// How a session ended.
#[derive(Clone, Copy, PartialEq)]
pub enum How {
    Closed,
    Expired,
}

/// What became of a call. `Stopped` is what a pump that has stopped answers.
#[derive(Clone, Drop)]
pub enum Outcome {
    Reply {
        place: u64,
        reply: Reply,
    },
    Read {
        level: Level,
        place: u64,
        reach: Option<(u64, u64)>,
        reply: Reply,
    },
    Doubt,
    Lost,
    Unsent,
    Unanswered,
    Stopped,
}

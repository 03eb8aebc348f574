ghost use Rattle.spec_reading.specs.ReadOperations as read_operations;
ghost use Rattle.net_wire.specs.ReaderCalls.{Gives};

use super::Reader;
use crate::Unread;
use ax_types::{GroupOp, LockOp, LongOp, MapOp, MultimapOp, Op, QueueOp, SetOp, TopicOp, ValueOp};

impl<'a> Reader<'a> {
    #[tactic(auto, unfolding(spec_reading::specs::ReadOperations::map_op_at))]
    fn read_map_op(&mut self) -> Result<MapOp, Unread>
        ensures { Gives result self.new (read_operations.map_op_at self.old) }
    {
        match self.read_byte()? {
            1 => Ok(MapOp::Put {
                key: self.read_key()?,
                text: self.read_text()?,
            }),
            2 => Ok(MapOp::PutIfAbsent {
                key: self.read_key()?,
                text: self.read_text()?,
            }),
            3 => Ok(MapOp::Replace {
                key: self.read_key()?,
                text: self.read_text()?,
            }),
            4 => Ok(MapOp::Remove {
                key: self.read_key()?,
            }),
            5 => Ok(MapOp::Clear),
            6 => Ok(MapOp::Listen),
            7 => Ok(MapOp::PutFor {
                key: self.read_key()?,
                text: self.read_text()?,
                life: self.read_life()?,
            }),
            _ => Err(Unread::Wrong),
        }
    }

    #[tactic(auto, unfolding(spec_reading::specs::ReadOperations::value_op_at))]
    fn read_value_op(&mut self) -> Result<ValueOp, Unread>
        ensures { Gives result self.new (read_operations.value_op_at self.old) }
    {
        match self.read_byte()? {
            1 => Ok(ValueOp::Set {
                text: self.read_text()?,
            }),
            2 => Ok(ValueOp::Cas {
                expected: self.read_text()?,
                text: self.read_text()?,
            }),
            3 => Ok(ValueOp::Clear),
            4 => Ok(ValueOp::Listen),
            _ => Err(Unread::Wrong),
        }
    }

    #[tactic(auto, unfolding(spec_reading::specs::ReadOperations::long_op_at))]
    fn read_long_op(&mut self) -> Result<LongOp, Unread>
        ensures { Gives result self.new (read_operations.long_op_at self.old) }
    {
        match self.read_byte()? {
            1 => Ok(LongOp::Add {
                delta: self.read_i64()?,
            }),
            2 => Ok(LongOp::GetAndAdd {
                delta: self.read_i64()?,
            }),
            3 => Ok(LongOp::Set {
                number: self.read_i64()?,
            }),
            4 => Ok(LongOp::Cas {
                expected: self.read_i64()?,
                number: self.read_i64()?,
            }),
            _ => Err(Unread::Wrong),
        }
    }

    #[tactic(auto, unfolding(spec_reading::specs::ReadOperations::lock_op_at))]
    fn read_lock_op(&mut self) -> Result<LockOp, Unread>
        ensures { Gives result self.new (read_operations.lock_op_at self.old) }
    {
        match self.read_byte()? {
            1 => Ok(LockOp::Lock),
            2 => Ok(LockOp::TryLock),
            3 => Ok(LockOp::Unlock),
            4 => Ok(LockOp::Cancel),
            _ => Err(Unread::Wrong),
        }
    }

    #[tactic(auto, unfolding(spec_reading::specs::ReadOperations::group_op_at))]
    fn read_group_op(&mut self) -> Result<GroupOp, Unread>
        ensures { Gives result self.new (read_operations.group_op_at self.old) }
    {
        match self.read_byte()? {
            1 => Ok(GroupOp::Join),
            2 => Ok(GroupOp::Leave),
            3 => Ok(GroupOp::Listen),
            _ => Err(Unread::Wrong),
        }
    }

    #[tactic(auto, unfolding(spec_reading::specs::ReadOperations::set_op_at))]
    fn read_set_op(&mut self) -> Result<SetOp, Unread>
        ensures { Gives result self.new (read_operations.set_op_at self.old) }
    {
        match self.read_byte()? {
            1 => Ok(SetOp::Add {
                text: self.read_text()?,
            }),
            2 => Ok(SetOp::Remove {
                text: self.read_text()?,
            }),
            3 => Ok(SetOp::Clear),
            _ => Err(Unread::Wrong),
        }
    }

    #[tactic(auto, unfolding(spec_reading::specs::ReadOperations::queue_op_at))]
    fn read_queue_op(&mut self) -> Result<QueueOp, Unread>
        ensures { Gives result self.new (read_operations.queue_op_at self.old) }
    {
        match self.read_byte()? {
            1 => Ok(QueueOp::Offer {
                text: self.read_text()?,
            }),
            2 => Ok(QueueOp::Poll),
            _ => Err(Unread::Wrong),
        }
    }

    #[tactic(auto, unfolding(spec_reading::specs::ReadOperations::multimap_op_at))]
    fn read_multimap_op(&mut self) -> Result<MultimapOp, Unread>
        ensures { Gives result self.new (read_operations.multimap_op_at self.old) }
    {
        match self.read_byte()? {
            1 => Ok(MultimapOp::Put {
                key: self.read_key()?,
                text: self.read_text()?,
            }),
            2 => Ok(MultimapOp::Remove {
                key: self.read_key()?,
                text: self.read_text()?,
            }),
            3 => Ok(MultimapOp::RemoveAll {
                key: self.read_key()?,
            }),
            _ => Err(Unread::Wrong),
        }
    }

    #[tactic(auto, unfolding(spec_reading::specs::ReadOperations::topic_op_at))]
    fn read_topic_op(&mut self) -> Result<TopicOp, Unread>
        ensures { Gives result self.new (read_operations.topic_op_at self.old) }
    {
        match self.read_byte()? {
            1 => Ok(TopicOp::Subscribe),
            2 => Ok(TopicOp::Unsubscribe),
            3 => Ok(TopicOp::Publish {
                text: self.read_text()?,
            }),
            _ => Err(Unread::Wrong),
        }
    }

    /// An operation: its kind, its number and its operands.
    #[tactic(auto, unfolding(spec_reading::specs::ReadOperations::op_at))]
    pub fn read_op(&mut self) -> Result<Op, Unread>
        ensures { Gives result self.new (read_operations.op_at self.old) }
    {
        match self.read_byte()? {
            1 => Ok(Op::Map(self.read_map_op()?)),
            2 => Ok(Op::Value(self.read_value_op()?)),
            3 => Ok(Op::Long(self.read_long_op()?)),
            4 => Ok(Op::Lock(self.read_lock_op()?)),
            5 => Ok(Op::Group(self.read_group_op()?)),
            6 => Ok(Op::Set(self.read_set_op()?)),
            7 => Ok(Op::Queue(self.read_queue_op()?)),
            8 => Ok(Op::Multimap(self.read_multimap_op()?)),
            9 => Ok(Op::Topic(self.read_topic_op()?)),
            _ => Err(Unread::Wrong),
        }
    }
}

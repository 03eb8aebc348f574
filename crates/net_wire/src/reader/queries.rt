ghost use Rattle.spec_reading.specs.ReadQueries as read_queries;
ghost use Rattle.net_wire.specs.ReaderCalls.{Gives};

use super::Reader;
use crate::Unread;
use ax_types::{
    GroupQuery, LockQuery, LongQuery, MapQuery, MultimapQuery, Query, QueueQuery, SetQuery,
    TopicQuery, ValueQuery,
};

impl<'a> Reader<'a> {
    #[tactic(auto, unfolding(spec_reading::specs::ReadQueries::map_query_at))]
    fn read_map_query(&mut self) -> Result<MapQuery, Unread>
        ensures { Gives result self.new (read_queries.map_query_at self.old) }
    {
        match self.read_byte()? {
            1 => Ok(MapQuery::Get {
                key: self.read_key()?,
            }),
            2 => Ok(MapQuery::Contains {
                key: self.read_key()?,
            }),
            3 => Ok(MapQuery::Size),
            _ => Err(Unread::Wrong),
        }
    }

    #[tactic(auto, unfolding(spec_reading::specs::ReadQueries::value_query_at))]
    fn read_value_query(&mut self) -> Result<ValueQuery, Unread>
        ensures { Gives result self.new (read_queries.value_query_at self.old) }
    {
        match self.read_byte()? {
            1 => Ok(ValueQuery::Get),
            _ => Err(Unread::Wrong),
        }
    }

    #[tactic(auto, unfolding(spec_reading::specs::ReadQueries::long_query_at))]
    fn read_long_query(&mut self) -> Result<LongQuery, Unread>
        ensures { Gives result self.new (read_queries.long_query_at self.old) }
    {
        match self.read_byte()? {
            1 => Ok(LongQuery::Get),
            _ => Err(Unread::Wrong),
        }
    }

    #[tactic(auto, unfolding(spec_reading::specs::ReadQueries::lock_query_at))]
    fn read_lock_query(&mut self) -> Result<LockQuery, Unread>
        ensures { Gives result self.new (read_queries.lock_query_at self.old) }
    {
        match self.read_byte()? {
            1 => Ok(LockQuery::Holder),
            2 => Ok(LockQuery::Waiting),
            _ => Err(Unread::Wrong),
        }
    }

    #[tactic(auto, unfolding(spec_reading::specs::ReadQueries::group_query_at))]
    fn read_group_query(&mut self) -> Result<GroupQuery, Unread>
        ensures { Gives result self.new (read_queries.group_query_at self.old) }
    {
        match self.read_byte()? {
            1 => Ok(GroupQuery::Members),
            2 => Ok(GroupQuery::Leader),
            _ => Err(Unread::Wrong),
        }
    }

    #[tactic(auto, unfolding(spec_reading::specs::ReadQueries::set_query_at))]
    fn read_set_query(&mut self) -> Result<SetQuery, Unread>
        ensures { Gives result self.new (read_queries.set_query_at self.old) }
    {
        match self.read_byte()? {
            1 => Ok(SetQuery::Contains {
                text: self.read_text()?,
            }),
            2 => Ok(SetQuery::Size),
            _ => Err(Unread::Wrong),
        }
    }

    #[tactic(auto, unfolding(spec_reading::specs::ReadQueries::queue_query_at))]
    fn read_queue_query(&mut self) -> Result<QueueQuery, Unread>
        ensures { Gives result self.new (read_queries.queue_query_at self.old) }
    {
        match self.read_byte()? {
            1 => Ok(QueueQuery::Peek),
            2 => Ok(QueueQuery::Size),
            _ => Err(Unread::Wrong),
        }
    }

    #[tactic(auto, unfolding(spec_reading::specs::ReadQueries::multimap_query_at))]
    fn read_multimap_query(&mut self) -> Result<MultimapQuery, Unread>
        ensures { Gives result self.new (read_queries.multimap_query_at self.old) }
    {
        match self.read_byte()? {
            1 => Ok(MultimapQuery::Contains {
                key: self.read_key()?,
                text: self.read_text()?,
            }),
            2 => Ok(MultimapQuery::Count {
                key: self.read_key()?,
            }),
            3 => Ok(MultimapQuery::Size),
            _ => Err(Unread::Wrong),
        }
    }

    #[tactic(auto, unfolding(spec_reading::specs::ReadQueries::topic_query_at))]
    fn read_topic_query(&mut self) -> Result<TopicQuery, Unread>
        ensures { Gives result self.new (read_queries.topic_query_at self.old) }
    {
        match self.read_byte()? {
            1 => Ok(TopicQuery::Subscribers),
            _ => Err(Unread::Wrong),
        }
    }

    /// A query: its kind, its number and its operands.
    #[tactic(auto, unfolding(spec_reading::specs::ReadQueries::query_at))]
    pub fn read_query(&mut self) -> Result<Query, Unread>
        ensures { Gives result self.new (read_queries.query_at self.old) }
    {
        match self.read_byte()? {
            1 => Ok(Query::Map(self.read_map_query()?)),
            2 => Ok(Query::Value(self.read_value_query()?)),
            3 => Ok(Query::Long(self.read_long_query()?)),
            4 => Ok(Query::Lock(self.read_lock_query()?)),
            5 => Ok(Query::Group(self.read_group_query()?)),
            6 => Ok(Query::Set(self.read_set_query()?)),
            7 => Ok(Query::Queue(self.read_queue_query()?)),
            8 => Ok(Query::Multimap(self.read_multimap_query()?)),
            9 => Ok(Query::Topic(self.read_topic_query()?)),
            _ => Err(Unread::Wrong),
        }
    }
}

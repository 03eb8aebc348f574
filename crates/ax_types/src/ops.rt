use crate::{Duplicate, Key, Life, Name, NoMemory, Text};

/// The kind of a resource.
#[derive(Clone, Copy, PartialEq)]
pub enum Kind {
    Map,
    Value,
    Long,
    Lock,
    Group,
    Set,
    Queue,
    Multimap,
    Topic,
}

/// What a client asks of a map.
#[derive(Clone, PartialEq, Drop)]
pub enum MapOp {
    Put { key: Key, text: Text },
    PutIfAbsent { key: Key, text: Text },
    Replace { key: Key, text: Text },
    Remove { key: Key },
    Clear,
    Listen,
    PutFor { key: Key, text: Text, life: Life },
}

/// What a client asks of a value.
#[derive(Clone, PartialEq, Drop)]
pub enum ValueOp {
    Set { text: Text },
    Cas { expected: Text, text: Text },
    Clear,
    Listen,
}

/// What a client asks of a long.
#[derive(Clone, Copy, PartialEq)]
pub enum LongOp {
    Add { delta: i64 },
    GetAndAdd { delta: i64 },
    Set { number: i64 },
    Cas { expected: i64, number: i64 },
}

/// What a client asks of a lock.
#[derive(Clone, Copy, PartialEq)]
pub enum LockOp {
    Lock,
    TryLock,
    Unlock,
    Cancel,
}

/// What a client asks of a group.
#[derive(Clone, Copy, PartialEq)]
pub enum GroupOp {
    Join,
    Leave,
    Listen,
}

/// What a client asks of a set.
#[derive(Clone, PartialEq, Drop)]
pub enum SetOp {
    Add { text: Text },
    Remove { text: Text },
    Clear,
}

/// What a client asks of a queue.
#[derive(Clone, PartialEq, Drop)]
pub enum QueueOp {
    Offer { text: Text },
    Poll,
}

/// What a client asks of a multimap.
#[derive(Clone, PartialEq, Drop)]
pub enum MultimapOp {
    Put { key: Key, text: Text },
    Remove { key: Key, text: Text },
    RemoveAll { key: Key },
}

/// What a client asks of a topic.
#[derive(Clone, PartialEq, Drop)]
pub enum TopicOp {
    Subscribe,
    Unsubscribe,
    Publish { text: Text },
}

/// What a client asks of a resource, by its kind.
#[derive(Clone, PartialEq, Drop)]
pub enum Op {
    Map(MapOp),
    Value(ValueOp),
    Long(LongOp),
    Lock(LockOp),
    Group(GroupOp),
    Set(SetOp),
    Queue(QueueOp),
    Multimap(MultimapOp),
    Topic(TopicOp),
}

impl Duplicate for Op {
    fn copy(&self) -> Result<Op, NoMemory> {
        Ok(self.clone()?)
    }
}

/// What a client reads of a map.
#[derive(Clone, Drop)]
pub enum MapQuery {
    Get { key: Key },
    Contains { key: Key },
    Size,
}

/// What a client reads of a value.
#[derive(Clone, Copy)]
pub enum ValueQuery {
    Get,
}

/// What a client reads of a long.
#[derive(Clone, Copy)]
pub enum LongQuery {
    Get,
}

/// What a client reads of a lock.
#[derive(Clone, Copy)]
pub enum LockQuery {
    Holder,
    Waiting,
}

/// What a client reads of a group.
#[derive(Clone, Copy)]
pub enum GroupQuery {
    Members,
    Leader,
}

/// What a client reads of a set.
#[derive(Clone, Drop)]
pub enum SetQuery {
    Contains { text: Text },
    Size,
}

/// What a client reads of a queue.
#[derive(Clone, Copy)]
pub enum QueueQuery {
    Peek,
    Size,
}

/// What a client reads of a multimap.
#[derive(Clone, Drop)]
pub enum MultimapQuery {
    Contains { key: Key, text: Text },
    Count { key: Key },
    Size,
}

/// What a client reads of a topic.
#[derive(Clone, Copy)]
pub enum TopicQuery {
    Subscribers,
}

/// What a client reads of a resource, by its kind.
#[derive(Clone, Drop)]
pub enum Query {
    Map(MapQuery),
    Value(ValueQuery),
    Long(LongQuery),
    Lock(LockQuery),
    Group(GroupQuery),
    Set(SetQuery),
    Queue(QueueQuery),
    Multimap(MultimapQuery),
    Topic(TopicQuery),
}

impl Duplicate for Query {
    fn copy(&self) -> Result<Query, NoMemory> {
        Ok(self.clone()?)
    }
}

/// How fresh a query's answer has to be: sequential for its session, or linearizable (Ongaro 2014, 6.4).
#[derive(Clone, Copy, PartialEq)]
pub enum Level {
    Seq,
    Lin,
}

/// A call of a session: a command, which goes through the log, or a query, which does not.
#[derive(Clone, Drop)]
pub enum WindowCall {
    Command {
        name: Name,
        op: Op,
    },
    Query {
        level: Level,
        name: Name,
        query: Query,
    },
}

impl Duplicate for WindowCall {
    fn copy(&self) -> Result<WindowCall, NoMemory> {
        Ok(self.clone()?)
    }
}

ghost use Rattle.std.specs.Prelude.{◌≡◌, [], ◌∷◌, ◌++◌, OnOk};
ghost use Rattle.spec_wire.specs.OperationBytes as operation_bytes;
ghost use Rattle.spec_wire.specs.Ranges as ranges;

use super::texts::{put_key_and_text, put_one_key, put_one_text};
use ax_types::{
    GroupQuery, LockQuery, LongQuery, MapQuery, MultimapQuery, NoMemory, Query, QueueQuery,
    SetQuery, TopicQuery, ValueQuery,
};

fn put_map_query(out: &mut Vec<u8>, query: &MapQuery) -> Result<(), NoMemory>
    ensures bytes { OnOk result (out.new.items ≡ out.old.items ++ operation_bytes.map_query_bytes query.now) }
    ensures fits { OnOk result (ranges.FitsMapQuery query.now) }
{
    match query {
        MapQuery::Get { key } => put_one_key(out, 1, key),
        MapQuery::Contains { key } => put_one_key(out, 2, key),
        MapQuery::Size => Ok(out.push(3)?),
    }
}

fn put_lock_query(out: &mut Vec<u8>, query: LockQuery) -> Result<(), NoMemory>
    ensures { OnOk result (out.new.items ≡ out.old.items ++ operation_bytes.lock_query_bytes query) }
{
    out.push(match query {
        LockQuery::Holder => 1,
        LockQuery::Waiting => 2,
    })?;
    Ok(())
}

fn put_group_query(out: &mut Vec<u8>, query: GroupQuery) -> Result<(), NoMemory>
    ensures { OnOk result (out.new.items ≡ out.old.items ++ operation_bytes.group_query_bytes query) }
{
    out.push(match query {
        GroupQuery::Members => 1,
        GroupQuery::Leader => 2,
    })?;
    Ok(())
}

fn put_set_query(out: &mut Vec<u8>, query: &SetQuery) -> Result<(), NoMemory>
    ensures bytes { OnOk result (out.new.items ≡ out.old.items ++ operation_bytes.set_query_bytes query.now) }
    ensures fits { OnOk result (ranges.FitsSetQuery query.now) }
{
    match query {
        SetQuery::Contains { text } => put_one_text(out, 1, text),
        SetQuery::Size => Ok(out.push(2)?),
    }
}

fn put_queue_query(out: &mut Vec<u8>, query: QueueQuery) -> Result<(), NoMemory>
    ensures { OnOk result (out.new.items ≡ out.old.items ++ operation_bytes.queue_query_bytes query) }
{
    out.push(match query {
        QueueQuery::Peek => 1,
        QueueQuery::Size => 2,
    })?;
    Ok(())
}

fn put_multimap_query(out: &mut Vec<u8>, query: &MultimapQuery) -> Result<(), NoMemory>
    ensures bytes { OnOk result (out.new.items ≡ out.old.items ++ operation_bytes.multimap_query_bytes query.now) }
    ensures fits { OnOk result (ranges.FitsMultimapQuery query.now) }
{
    match query {
        MultimapQuery::Contains { key, text } => put_key_and_text(out, 1, key, text),
        MultimapQuery::Count { key } => put_one_key(out, 2, key),
        MultimapQuery::Size => Ok(out.push(3)?),
    }
}

/// A query: its kind, its number and its operands.
pub(super) fn put_query(out: &mut Vec<u8>, query: &Query) -> Result<(), NoMemory>
    ensures bytes { OnOk result (out.new.items ≡ out.old.items ++ operation_bytes.query_bytes query.now) }
    ensures fits { OnOk result (ranges.FitsQuery query.now) }
{
    match query {
        Query::Map(query) => {
            out.push(1)?;
            put_map_query(out, query)
        }
        Query::Value(ValueQuery::Get) => {
            out.push(2)?;
            out.push(1)?;
            Ok(())
        }
        Query::Long(LongQuery::Get) => {
            out.push(3)?;
            out.push(1)?;
            Ok(())
        }
        Query::Lock(query) => {
            out.push(4)?;
            put_lock_query(out, *query)
        }
        Query::Group(query) => {
            out.push(5)?;
            put_group_query(out, *query)
        }
        Query::Set(query) => {
            out.push(6)?;
            put_set_query(out, query)
        }
        Query::Queue(query) => {
            out.push(7)?;
            put_queue_query(out, *query)
        }
        Query::Multimap(query) => {
            out.push(8)?;
            put_multimap_query(out, query)
        }
        Query::Topic(TopicQuery::Subscribers) => {
            out.push(9)?;
            out.push(1)?;
            Ok(())
        }
    }
}

ghost use Rattle.std.specs.Prelude.{◌≡◌, OnOk, string_bytes, ◌++◌, []};
ghost use Rattle.spec_report.specs.CallLines as spec;
ghost use Rattle.spec_report.specs.ReportValues as report_values;
ghost use Rattle.spec_wire.specs.Ranges as ranges;

use crate::pieces::{blank, one_operand, three_operands, two_operands, word};
use ax_types::{
    GroupOp, GroupQuery, Level, LockOp, LockQuery, LongOp, LongQuery, MapOp, MapQuery, MultimapOp,
    MultimapQuery, Name, NoMemory, Op, Query, QueueOp, QueueQuery, SetOp, SetQuery, TopicOp,
    TopicQuery, ValueOp, ValueQuery, WindowCall,
};

/// `seq` or `lin`.
pub fn level_text(level: Level) -> &'static str
    ensures { result.now ≡ spec.level_text level }
{
    match level {
        Level::Seq => "seq",
        Level::Lin => "lin",
    }
}

fn write_map_op(line: &mut String, op: &MapOp) -> Result<(), NoMemory>
    ensures written { OnOk result (string_bytes line.new ≡ string_bytes line.old ++ spec.map_op_text op.now) }
    ensures fits { OnOk result (ranges.FitsMapOp op.now) }
{
    match op {
        MapOp::Put { key, text } => two_operands(line, "put", key.as_str(), text.as_str()),
        MapOp::PutIfAbsent { key, text } => two_operands(
            line,
            "put_if_absent",
            key.as_str(),
            text.as_str(),
        ),
        MapOp::Replace { key, text } => two_operands(line, "replace", key.as_str(), text.as_str()),
        MapOp::Remove { key } => one_operand(line, "remove", key.as_str()),
        MapOp::Clear => word(line, "clear"),
        MapOp::Listen => word(line, "listen"),
        MapOp::PutFor { key, text, life } => three_operands(
            line,
            "put_for",
            key.as_str(),
            text.as_str(),
            life.length(),
        ),
    }
}

fn write_value_op(line: &mut String, op: &ValueOp) -> Result<(), NoMemory>
    ensures written { OnOk result (string_bytes line.new ≡ string_bytes line.old ++ spec.value_op_text op.now) }
    ensures fits { OnOk result (ranges.FitsValueOp op.now) }
{
    match op {
        ValueOp::Set { text } => one_operand(line, "set", text.as_str()),
        ValueOp::Cas { expected, text } => two_operands(
            line,
            "cas",
            expected.as_str(),
            text.as_str(),
        ),
        ValueOp::Clear => word(line, "clear"),
        ValueOp::Listen => word(line, "listen"),
    }
}

fn write_long_op(line: &mut String, op: &LongOp) -> Result<(), NoMemory>
    ensures written { OnOk result (string_bytes line.new ≡ string_bytes line.old ++ spec.long_op_text op.now) }
    ensures fits { OnOk result (ranges.FitsLongOp op.now) }
{
    match op {
        LongOp::Add { delta } => one_operand(line, "add", *delta),
        LongOp::GetAndAdd { delta } => one_operand(line, "get_and_add", *delta),
        LongOp::Set { number } => one_operand(line, "set", *number),
        LongOp::Cas { expected, number } => two_operands(line, "cas", *expected, *number),
    }
}

fn lock_op_text(op: LockOp) -> &'static str
    ensures { result.now ≡ spec.lock_op_text op }
{
    match op {
        LockOp::Lock => "lock",
        LockOp::TryLock => "try_lock",
        LockOp::Unlock => "unlock",
        LockOp::Cancel => "cancel",
    }
}

fn group_op_text(op: GroupOp) -> &'static str
    ensures { result.now ≡ spec.group_op_text op }
{
    match op {
        GroupOp::Join => "join",
        GroupOp::Leave => "leave",
        GroupOp::Listen => "listen",
    }
}

fn write_set_op(line: &mut String, op: &SetOp) -> Result<(), NoMemory>
    ensures written { OnOk result (string_bytes line.new ≡ string_bytes line.old ++ spec.set_op_text op.now) }
    ensures fits { OnOk result (ranges.FitsSetOp op.now) }
{
    match op {
        SetOp::Add { text } => one_operand(line, "add", text.as_str()),
        SetOp::Remove { text } => one_operand(line, "remove", text.as_str()),
        SetOp::Clear => word(line, "clear"),
    }
}

fn write_queue_op(line: &mut String, op: &QueueOp) -> Result<(), NoMemory>
    ensures written { OnOk result (string_bytes line.new ≡ string_bytes line.old ++ spec.queue_op_text op.now) }
    ensures fits { OnOk result (ranges.FitsQueueOp op.now) }
{
    match op {
        QueueOp::Offer { text } => one_operand(line, "offer", text.as_str()),
        QueueOp::Poll => word(line, "poll"),
    }
}

fn write_multimap_op(line: &mut String, op: &MultimapOp) -> Result<(), NoMemory>
    ensures written { OnOk result (string_bytes line.new ≡ string_bytes line.old ++ spec.multimap_op_text op.now) }
    ensures fits { OnOk result (ranges.FitsMultimapOp op.now) }
{
    match op {
        MultimapOp::Put { key, text } => two_operands(line, "put", key.as_str(), text.as_str()),
        MultimapOp::Remove { key, text } => two_operands(
            line,
            "remove",
            key.as_str(),
            text.as_str(),
        ),
        MultimapOp::RemoveAll { key } => one_operand(line, "remove_all", key.as_str()),
    }
}

fn write_topic_op(line: &mut String, op: &TopicOp) -> Result<(), NoMemory>
    ensures written { OnOk result (string_bytes line.new ≡ string_bytes line.old ++ spec.topic_op_text op.now) }
    ensures fits { OnOk result (ranges.FitsTopicOp op.now) }
{
    match op {
        TopicOp::Subscribe => word(line, "subscribe"),
        TopicOp::Unsubscribe => word(line, "unsubscribe"),
        TopicOp::Publish { text } => one_operand(line, "publish", text.as_str()),
    }
}

/// A kind and a name, each with a blank behind it.
fn kind_and_name(line: &mut String, kind: &str, name: &Name) -> Result<(), NoMemory>
    ensures written { OnOk result (string_bytes line.new ≡ string_bytes line.old ++ spec.two_operands kind.now name.now []) }
    ensures fits { OnOk result (ranges.IsName name.now) }
{
    one_operand(line, kind, name.as_str())?;
    blank(line)
}

/// `KIND NAME OPERATION`, as a script writes it too.
pub fn write_op(line: &mut String, name: &Name, op: &Op) -> Result<(), NoMemory>
    ensures written { OnOk result (string_bytes line.new ≡ string_bytes line.old ++ spec.op_text name.now op.now) }
    ensures fits { OnOk result (ranges.IsName name.now × ranges.FitsOp op.now) }
{
    match op {
        Op::Map(op) => {
            kind_and_name(line, "map", name)?;
            write_map_op(line, op)
        }
        Op::Value(op) => {
            kind_and_name(line, "value", name)?;
            write_value_op(line, op)
        }
        Op::Long(op) => {
            kind_and_name(line, "long", name)?;
            write_long_op(line, op)
        }
        Op::Lock(op) => two_operands(line, "lock", name.as_str(), lock_op_text(*op)),
        Op::Group(op) => two_operands(line, "group", name.as_str(), group_op_text(*op)),
        Op::Set(op) => {
            kind_and_name(line, "set", name)?;
            write_set_op(line, op)
        }
        Op::Queue(op) => {
            kind_and_name(line, "queue", name)?;
            write_queue_op(line, op)
        }
        Op::Multimap(op) => {
            kind_and_name(line, "multimap", name)?;
            write_multimap_op(line, op)
        }
        Op::Topic(op) => {
            kind_and_name(line, "topic", name)?;
            write_topic_op(line, op)
        }
    }
}

fn write_map_query(line: &mut String, query: &MapQuery) -> Result<(), NoMemory>
    ensures written { OnOk result (string_bytes line.new ≡ string_bytes line.old ++ spec.map_query_text query.now) }
    ensures fits { OnOk result (ranges.FitsMapQuery query.now) }
{
    match query {
        MapQuery::Get { key } => one_operand(line, "get", key.as_str()),
        MapQuery::Contains { key } => one_operand(line, "contains", key.as_str()),
        MapQuery::Size => word(line, "size"),
    }
}

fn value_query_text(query: ValueQuery) -> &'static str
    ensures { result.now ≡ spec.value_query_text query }
{
    match query {
        ValueQuery::Get => "get",
    }
}

fn long_query_text(query: LongQuery) -> &'static str
    ensures { result.now ≡ spec.long_query_text query }
{
    match query {
        LongQuery::Get => "get",
    }
}

fn lock_query_text(query: LockQuery) -> &'static str
    ensures { result.now ≡ spec.lock_query_text query }
{
    match query {
        LockQuery::Holder => "holder",
        LockQuery::Waiting => "waiting",
    }
}

fn group_query_text(query: GroupQuery) -> &'static str
    ensures { result.now ≡ spec.group_query_text query }
{
    match query {
        GroupQuery::Members => "members",
        GroupQuery::Leader => "leader",
    }
}

fn write_set_query(line: &mut String, query: &SetQuery) -> Result<(), NoMemory>
    ensures written { OnOk result (string_bytes line.new ≡ string_bytes line.old ++ spec.set_query_text query.now) }
    ensures fits { OnOk result (ranges.FitsSetQuery query.now) }
{
    match query {
        SetQuery::Contains { text } => one_operand(line, "contains", text.as_str()),
        SetQuery::Size => word(line, "size"),
    }
}

fn queue_query_text(query: QueueQuery) -> &'static str
    ensures { result.now ≡ spec.queue_query_text query }
{
    match query {
        QueueQuery::Peek => "peek",
        QueueQuery::Size => "size",
    }
}

fn write_multimap_query(line: &mut String, query: &MultimapQuery) -> Result<(), NoMemory>
    ensures written { OnOk result (string_bytes line.new ≡ string_bytes line.old ++ spec.multimap_query_text query.now) }
    ensures fits { OnOk result (ranges.FitsMultimapQuery query.now) }
{
    match query {
        MultimapQuery::Contains { key, text } => two_operands(
            line,
            "contains",
            key.as_str(),
            text.as_str(),
        ),
        MultimapQuery::Count { key } => one_operand(line, "count", key.as_str()),
        MultimapQuery::Size => word(line, "size"),
    }
}

fn topic_query_text(query: TopicQuery) -> &'static str
    ensures { result.now ≡ spec.topic_query_text query }
{
    match query {
        TopicQuery::Subscribers => "subscribers",
    }
}

/// `KIND NAME QUERY`, as a script writes it too.
pub fn write_query(line: &mut String, name: &Name, query: &Query) -> Result<(), NoMemory>
    ensures written { OnOk result (string_bytes line.new ≡ string_bytes line.old ++ spec.query_text name.now query.now) }
    ensures fits { OnOk result (ranges.IsName name.now × ranges.FitsQuery query.now) }
{
    match query {
        Query::Map(query) => {
            kind_and_name(line, "map", name)?;
            write_map_query(line, query)
        }
        Query::Value(query) => two_operands(line, "value", name.as_str(), value_query_text(*query)),
        Query::Long(query) => two_operands(line, "long", name.as_str(), long_query_text(*query)),
        Query::Lock(query) => two_operands(line, "lock", name.as_str(), lock_query_text(*query)),
        Query::Group(query) => two_operands(line, "group", name.as_str(), group_query_text(*query)),
        Query::Set(query) => {
            kind_and_name(line, "set", name)?;
            write_set_query(line, query)
        }
        Query::Queue(query) => two_operands(line, "queue", name.as_str(), queue_query_text(*query)),
        Query::Multimap(query) => {
            kind_and_name(line, "multimap", name)?;
            write_multimap_query(line, query)
        }
        Query::Topic(query) => two_operands(line, "topic", name.as_str(), topic_query_text(*query)),
    }
}

/// `call KIND NAME OPERATION` or `query LEVEL KIND NAME QUERY`.
pub fn write_call(line: &mut String, call: &WindowCall) -> Result<(), NoMemory>
    ensures written { OnOk result (string_bytes line.new ≡ string_bytes line.old ++ spec.call_text call.now) }
    ensures fits { OnOk result (report_values.FitsCall call.now) }
{
    match call {
        WindowCall::Command { name, op } => {
            word(line, "call ")?;
            write_op(line, name, op)
        }
        WindowCall::Query { level, name, query } => {
            one_operand(line, "query", level_text(*level))?;
            blank(line)?;
            write_query(line, name, query)
        }
    }
}

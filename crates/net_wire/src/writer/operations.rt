ghost use Rattle.std.specs.Prelude.{◌≡◌, [], ◌∷◌, ◌++◌, OnOk};
ghost use Rattle.spec_wire.specs.NumberBytes as number_bytes;
ghost use Rattle.spec_wire.specs.OperationBytes as operation_bytes;
ghost use Rattle.spec_wire.specs.Ranges as ranges;

use super::numbers::{put_i64, put_u64};
use super::texts::{put_key, put_key_and_text, put_one_key, put_one_text, put_text};
use ax_types::{
    GroupOp, Key, Life, LockOp, LongOp, MapOp, MultimapOp, NoMemory, Op, QueueOp, SetOp, Text,
    TopicOp, ValueOp,
};

fn put_put_for(out: &mut Vec<u8>, key: &Key, text: &Text, life: Life) -> Result<(), NoMemory>
    ensures bytes { OnOk result (out.new.items ≡ out.old.items ++ 7 ∷ number_bytes.counted_bytes key.now ++ number_bytes.counted_bytes text.now ++ number_bytes.u64_bytes life) }
    ensures fits { OnOk result (ranges.IsName key.now × ranges.IsText text.now × ranges.IsLife life) }
{
    out.push(7)?;
    put_key(out, key)?;
    put_text(out, text)?;
    put_u64(out, life.length())
}

fn put_map_op(out: &mut Vec<u8>, op: &MapOp) -> Result<(), NoMemory>
    ensures bytes { OnOk result (out.new.items ≡ out.old.items ++ operation_bytes.map_op_bytes op.now) }
    ensures fits { OnOk result (ranges.FitsMapOp op.now) }
{
    match op {
        MapOp::Put { key, text } => put_key_and_text(out, 1, key, text),
        MapOp::PutIfAbsent { key, text } => put_key_and_text(out, 2, key, text),
        MapOp::Replace { key, text } => put_key_and_text(out, 3, key, text),
        MapOp::Remove { key } => put_one_key(out, 4, key),
        MapOp::Clear => Ok(out.push(5)?),
        MapOp::Listen => Ok(out.push(6)?),
        MapOp::PutFor { key, text, life } => put_put_for(out, key, text, *life),
    }
}

fn put_two_texts(out: &mut Vec<u8>, number: u8, one: &Text, other: &Text) -> Result<(), NoMemory>
    ensures bytes { OnOk result (out.new.items ≡ out.old.items ++ number ∷ number_bytes.counted_bytes one.now ++ number_bytes.counted_bytes other.now) }
    ensures fits { OnOk result (ranges.IsText one.now × ranges.IsText other.now) }
{
    out.push(number)?;
    put_text(out, one)?;
    put_text(out, other)
}

fn put_value_op(out: &mut Vec<u8>, op: &ValueOp) -> Result<(), NoMemory>
    ensures bytes { OnOk result (out.new.items ≡ out.old.items ++ operation_bytes.value_op_bytes op.now) }
    ensures fits { OnOk result (ranges.FitsValueOp op.now) }
{
    match op {
        ValueOp::Set { text } => put_one_text(out, 1, text),
        ValueOp::Cas { expected, text } => put_two_texts(out, 2, expected, text),
        ValueOp::Clear => Ok(out.push(3)?),
        ValueOp::Listen => Ok(out.push(4)?),
    }
}

fn put_one_signed(out: &mut Vec<u8>, number: u8, a: i64) -> Result<(), NoMemory>
    ensures { OnOk result (out.new.items ≡ out.old.items ++ number ∷ number_bytes.i64_bytes a) }
{
    out.push(number)?;
    put_i64(out, a)
}

fn put_two_signed(out: &mut Vec<u8>, number: u8, a: i64, b: i64) -> Result<(), NoMemory>
    ensures { OnOk result (out.new.items ≡ out.old.items ++ number ∷ number_bytes.i64_bytes a ++ number_bytes.i64_bytes b) }
{
    out.push(number)?;
    put_i64(out, a)?;
    put_i64(out, b)
}

fn put_long_op(out: &mut Vec<u8>, op: LongOp) -> Result<(), NoMemory>
    ensures bytes { OnOk result (out.new.items ≡ out.old.items ++ operation_bytes.long_op_bytes op) }
    ensures fits { OnOk result (ranges.FitsLongOp op) }
{
    match op {
        LongOp::Add { delta } => put_one_signed(out, 1, delta),
        LongOp::GetAndAdd { delta } => put_one_signed(out, 2, delta),
        LongOp::Set { number } => put_one_signed(out, 3, number),
        LongOp::Cas { expected, number } => put_two_signed(out, 4, expected, number),
    }
}

fn put_lock_op(out: &mut Vec<u8>, op: LockOp) -> Result<(), NoMemory>
    ensures { OnOk result (out.new.items ≡ out.old.items ++ operation_bytes.lock_op_bytes op) }
{
    out.push(match op {
        LockOp::Lock => 1,
        LockOp::TryLock => 2,
        LockOp::Unlock => 3,
        LockOp::Cancel => 4,
    })?;
    Ok(())
}

fn put_group_op(out: &mut Vec<u8>, op: GroupOp) -> Result<(), NoMemory>
    ensures { OnOk result (out.new.items ≡ out.old.items ++ operation_bytes.group_op_bytes op) }
{
    out.push(match op {
        GroupOp::Join => 1,
        GroupOp::Leave => 2,
        GroupOp::Listen => 3,
    })?;
    Ok(())
}

fn put_set_op(out: &mut Vec<u8>, op: &SetOp) -> Result<(), NoMemory>
    ensures bytes { OnOk result (out.new.items ≡ out.old.items ++ operation_bytes.set_op_bytes op.now) }
    ensures fits { OnOk result (ranges.FitsSetOp op.now) }
{
    match op {
        SetOp::Add { text } => put_one_text(out, 1, text),
        SetOp::Remove { text } => put_one_text(out, 2, text),
        SetOp::Clear => Ok(out.push(3)?),
    }
}

fn put_queue_op(out: &mut Vec<u8>, op: &QueueOp) -> Result<(), NoMemory>
    ensures bytes { OnOk result (out.new.items ≡ out.old.items ++ operation_bytes.queue_op_bytes op.now) }
    ensures fits { OnOk result (ranges.FitsQueueOp op.now) }
{
    match op {
        QueueOp::Offer { text } => put_one_text(out, 1, text),
        QueueOp::Poll => Ok(out.push(2)?),
    }
}

fn put_multimap_op(out: &mut Vec<u8>, op: &MultimapOp) -> Result<(), NoMemory>
    ensures bytes { OnOk result (out.new.items ≡ out.old.items ++ operation_bytes.multimap_op_bytes op.now) }
    ensures fits { OnOk result (ranges.FitsMultimapOp op.now) }
{
    match op {
        MultimapOp::Put { key, text } => put_key_and_text(out, 1, key, text),
        MultimapOp::Remove { key, text } => put_key_and_text(out, 2, key, text),
        MultimapOp::RemoveAll { key } => put_one_key(out, 3, key),
    }
}

fn put_topic_op(out: &mut Vec<u8>, op: &TopicOp) -> Result<(), NoMemory>
    ensures bytes { OnOk result (out.new.items ≡ out.old.items ++ operation_bytes.topic_op_bytes op.now) }
    ensures fits { OnOk result (ranges.FitsTopicOp op.now) }
{
    match op {
        TopicOp::Subscribe => Ok(out.push(1)?),
        TopicOp::Unsubscribe => Ok(out.push(2)?),
        TopicOp::Publish { text } => put_one_text(out, 3, text),
    }
}

/// An operation: its kind, its number and its operands.
pub(super) fn put_op(out: &mut Vec<u8>, op: &Op) -> Result<(), NoMemory>
    ensures bytes { OnOk result (out.new.items ≡ out.old.items ++ operation_bytes.op_bytes op.now) }
    ensures fits { OnOk result (ranges.FitsOp op.now) }
{
    match op {
        Op::Map(op) => {
            out.push(1)?;
            put_map_op(out, op)
        }
        Op::Value(op) => {
            out.push(2)?;
            put_value_op(out, op)
        }
        Op::Long(op) => {
            out.push(3)?;
            put_long_op(out, *op)
        }
        Op::Lock(op) => {
            out.push(4)?;
            put_lock_op(out, *op)
        }
        Op::Group(op) => {
            out.push(5)?;
            put_group_op(out, *op)
        }
        Op::Set(op) => {
            out.push(6)?;
            put_set_op(out, op)
        }
        Op::Queue(op) => {
            out.push(7)?;
            put_queue_op(out, op)
        }
        Op::Multimap(op) => {
            out.push(8)?;
            put_multimap_op(out, op)
        }
        Op::Topic(op) => {
            out.push(9)?;
            put_topic_op(out, op)
        }
    }
}

ghost use Rattle.std.specs.Prelude.{◌≡◌, IfOk};
ghost use Rattle.spec_text.specs.OperationWords as operation_words;
ghost use Rattle.text_words.specs.Behind as behind;

use crate::operands::{
    is, key_and_text, lasting_entry, only_key, only_signed, only_text, two_signed, two_texts,
    without_operands,
};
use ax_types::{
    GroupOp, LockOp, LongOp, MapOp, MultimapOp, NoMemory, Op, QueueOp, SetOp, TopicOp, ValueOp,
};
use std::alloc::Global;

fn map_op(alloc: Global, word: &[u8], words: &[&[u8]]) -> Result<Option<MapOp>, NoMemory>
    ensures { IfOk result (λ read. read ≡ operation_words.map_op_of word.now (behind.words_behind words.now)) }
{
    if is(word, "put") {
        Ok(key_and_text(alloc, words)?.map(|(key, text)| MapOp::Put { key, text }))
    } else if is(word, "put_if_absent") {
        Ok(key_and_text(alloc, words)?.map(|(key, text)| MapOp::PutIfAbsent { key, text }))
    } else if is(word, "replace") {
        Ok(key_and_text(alloc, words)?.map(|(key, text)| MapOp::Replace { key, text }))
    } else if is(word, "remove") {
        Ok(only_key(alloc, words)?.map(|key| MapOp::Remove { key }))
    } else if is(word, "clear") {
        Ok(without_operands(MapOp::Clear, words))
    } else if is(word, "listen") {
        Ok(without_operands(MapOp::Listen, words))
    } else if is(word, "put_for") {
        Ok(lasting_entry(alloc, words)?.map(|(key, text, life)| MapOp::PutFor { key, text, life }))
    } else {
        Ok(None)
    }
}

fn value_op(alloc: Global, word: &[u8], words: &[&[u8]]) -> Result<Option<ValueOp>, NoMemory>
    ensures { IfOk result (λ read. read ≡ operation_words.value_op_of word.now (behind.words_behind words.now)) }
{
    if is(word, "set") {
        Ok(only_text(alloc, words)?.map(|text| ValueOp::Set { text }))
    } else if is(word, "cas") {
        Ok(two_texts(alloc, words)?.map(|(expected, text)| ValueOp::Cas { expected, text }))
    } else if is(word, "clear") {
        Ok(without_operands(ValueOp::Clear, words))
    } else if is(word, "listen") {
        Ok(without_operands(ValueOp::Listen, words))
    } else {
        Ok(None)
    }
}

fn long_op(word: &[u8], words: &[&[u8]]) -> Option<LongOp>
    ensures { result ≡ operation_words.long_op_of word.now (behind.words_behind words.now) }
{
    if is(word, "add") {
        only_signed(words).map(|delta| LongOp::Add { delta })
    } else if is(word, "get_and_add") {
        only_signed(words).map(|delta| LongOp::GetAndAdd { delta })
    } else if is(word, "set") {
        only_signed(words).map(|number| LongOp::Set { number })
    } else if is(word, "cas") {
        two_signed(words).map(|(expected, number)| LongOp::Cas { expected, number })
    } else {
        None
    }
}

fn lock_op(word: &[u8], words: &[&[u8]]) -> Option<LockOp>
    ensures { result ≡ operation_words.lock_op_of word.now (behind.words_behind words.now) }
{
    if is(word, "lock") {
        without_operands(LockOp::Lock, words)
    } else if is(word, "try_lock") {
        without_operands(LockOp::TryLock, words)
    } else if is(word, "unlock") {
        without_operands(LockOp::Unlock, words)
    } else if is(word, "cancel") {
        without_operands(LockOp::Cancel, words)
    } else {
        None
    }
}

fn group_op(word: &[u8], words: &[&[u8]]) -> Option<GroupOp>
    ensures { result ≡ operation_words.group_op_of word.now (behind.words_behind words.now) }
{
    if is(word, "join") {
        without_operands(GroupOp::Join, words)
    } else if is(word, "leave") {
        without_operands(GroupOp::Leave, words)
    } else if is(word, "listen") {
        without_operands(GroupOp::Listen, words)
    } else {
        None
    }
}

fn set_op(alloc: Global, word: &[u8], words: &[&[u8]]) -> Result<Option<SetOp>, NoMemory>
    ensures { IfOk result (λ read. read ≡ operation_words.set_op_of word.now (behind.words_behind words.now)) }
{
    if is(word, "add") {
        Ok(only_text(alloc, words)?.map(|text| SetOp::Add { text }))
    } else if is(word, "remove") {
        Ok(only_text(alloc, words)?.map(|text| SetOp::Remove { text }))
    } else if is(word, "clear") {
        Ok(without_operands(SetOp::Clear, words))
    } else {
        Ok(None)
    }
}

fn queue_op(alloc: Global, word: &[u8], words: &[&[u8]]) -> Result<Option<QueueOp>, NoMemory>
    ensures { IfOk result (λ read. read ≡ operation_words.queue_op_of word.now (behind.words_behind words.now)) }
{
    if is(word, "offer") {
        Ok(only_text(alloc, words)?.map(|text| QueueOp::Offer { text }))
    } else if is(word, "poll") {
        Ok(without_operands(QueueOp::Poll, words))
    } else {
        Ok(None)
    }
}

fn multimap_op(alloc: Global, word: &[u8], words: &[&[u8]]) -> Result<Option<MultimapOp>, NoMemory>
    ensures { IfOk result (λ read. read ≡ operation_words.multimap_op_of word.now (behind.words_behind words.now)) }
{
    if is(word, "put") {
        Ok(key_and_text(alloc, words)?.map(|(key, text)| MultimapOp::Put { key, text }))
    } else if is(word, "remove") {
        Ok(key_and_text(alloc, words)?.map(|(key, text)| MultimapOp::Remove { key, text }))
    } else if is(word, "remove_all") {
        Ok(only_key(alloc, words)?.map(|key| MultimapOp::RemoveAll { key }))
    } else {
        Ok(None)
    }
}

fn topic_op(alloc: Global, word: &[u8], words: &[&[u8]]) -> Result<Option<TopicOp>, NoMemory>
    ensures { IfOk result (λ read. read ≡ operation_words.topic_op_of word.now (behind.words_behind words.now)) }
{
    if is(word, "subscribe") {
        Ok(without_operands(TopicOp::Subscribe, words))
    } else if is(word, "unsubscribe") {
        Ok(without_operands(TopicOp::Unsubscribe, words))
    } else if is(word, "publish") {
        Ok(only_text(alloc, words)?.map(|text| TopicOp::Publish { text }))
    } else {
        Ok(None)
    }
}

/// The operation with this kind's word, this word of its own and these operands; `None` exactly where it is no form of one.
pub fn operation(
    alloc: Global,
    kind: &[u8],
    word: &[u8],
    words: &[&[u8]],
) -> Result<Option<Op>, NoMemory>
    ensures { IfOk result (λ read. read ≡ operation_words.op_of kind.now word.now (behind.words_behind words.now)) }
{
    if is(kind, "map") {
        Ok(map_op(alloc, word, words)?.map(Op::Map))
    } else if is(kind, "value") {
        Ok(value_op(alloc, word, words)?.map(Op::Value))
    } else if is(kind, "long") {
        Ok(long_op(word, words).map(Op::Long))
    } else if is(kind, "lock") {
        Ok(lock_op(word, words).map(Op::Lock))
    } else if is(kind, "group") {
        Ok(group_op(word, words).map(Op::Group))
    } else if is(kind, "set") {
        Ok(set_op(alloc, word, words)?.map(Op::Set))
    } else if is(kind, "queue") {
        Ok(queue_op(alloc, word, words)?.map(Op::Queue))
    } else if is(kind, "multimap") {
        Ok(multimap_op(alloc, word, words)?.map(Op::Multimap))
    } else if is(kind, "topic") {
        Ok(topic_op(alloc, word, words)?.map(Op::Topic))
    } else {
        Ok(None)
    }
}

ghost use Rattle.std.specs.Prelude.{◌≡◌, IfOk};
ghost use Rattle.spec_text.specs.OperationWords as operation_words;
ghost use Rattle.text_words.specs.Behind as behind;

use crate::operands::{is, key_and_text, only_key, only_text, without_operands};
use ax_types::{
    GroupQuery, LockQuery, LongQuery, MapQuery, MultimapQuery, NoMemory, Query, QueueQuery,
    SetQuery, TopicQuery, ValueQuery,
};
use std::alloc::Global;

fn map_query(alloc: Global, word: &[u8], words: &[&[u8]]) -> Result<Option<MapQuery>, NoMemory>
    ensures { IfOk result (λ read. read ≡ operation_words.map_query_of word.now (behind.words_behind words.now)) }
{
    if is(word, "get") {
        Ok(only_key(alloc, words)?.map(|key| MapQuery::Get { key }))
    } else if is(word, "contains") {
        Ok(only_key(alloc, words)?.map(|key| MapQuery::Contains { key }))
    } else if is(word, "size") {
        Ok(without_operands(MapQuery::Size, words))
    } else {
        Ok(None)
    }
}

fn value_query(word: &[u8], words: &[&[u8]]) -> Option<ValueQuery>
    ensures { result ≡ operation_words.value_query_of word.now (behind.words_behind words.now) }
{
    if is(word, "get") {
        without_operands(ValueQuery::Get, words)
    } else {
        None
    }
}

fn long_query(word: &[u8], words: &[&[u8]]) -> Option<LongQuery>
    ensures { result ≡ operation_words.long_query_of word.now (behind.words_behind words.now) }
{
    if is(word, "get") {
        without_operands(LongQuery::Get, words)
    } else {
        None
    }
}

fn lock_query(word: &[u8], words: &[&[u8]]) -> Option<LockQuery>
    ensures { result ≡ operation_words.lock_query_of word.now (behind.words_behind words.now) }
{
    if is(word, "holder") {
        without_operands(LockQuery::Holder, words)
    } else if is(word, "waiting") {
        without_operands(LockQuery::Waiting, words)
    } else {
        None
    }
}

fn group_query(word: &[u8], words: &[&[u8]]) -> Option<GroupQuery>
    ensures { result ≡ operation_words.group_query_of word.now (behind.words_behind words.now) }
{
    if is(word, "members") {
        without_operands(GroupQuery::Members, words)
    } else if is(word, "leader") {
        without_operands(GroupQuery::Leader, words)
    } else {
        None
    }
}

fn set_query(alloc: Global, word: &[u8], words: &[&[u8]]) -> Result<Option<SetQuery>, NoMemory>
    ensures { IfOk result (λ read. read ≡ operation_words.set_query_of word.now (behind.words_behind words.now)) }
{
    if is(word, "contains") {
        Ok(only_text(alloc, words)?.map(|text| SetQuery::Contains { text }))
    } else if is(word, "size") {
        Ok(without_operands(SetQuery::Size, words))
    } else {
        Ok(None)
    }
}

fn queue_query(word: &[u8], words: &[&[u8]]) -> Option<QueueQuery>
    ensures { result ≡ operation_words.queue_query_of word.now (behind.words_behind words.now) }
{
    if is(word, "peek") {
        without_operands(QueueQuery::Peek, words)
    } else if is(word, "size") {
        without_operands(QueueQuery::Size, words)
    } else {
        None
    }
}

fn multimap_query(
    alloc: Global,
    word: &[u8],
    words: &[&[u8]],
) -> Result<Option<MultimapQuery>, NoMemory>
    ensures { IfOk result (λ read. read ≡ operation_words.multimap_query_of word.now (behind.words_behind words.now)) }
{
    if is(word, "contains") {
        Ok(key_and_text(alloc, words)?.map(|(key, text)| MultimapQuery::Contains { key, text }))
    } else if is(word, "count") {
        Ok(only_key(alloc, words)?.map(|key| MultimapQuery::Count { key }))
    } else if is(word, "size") {
        Ok(without_operands(MultimapQuery::Size, words))
    } else {
        Ok(None)
    }
}

fn topic_query(word: &[u8], words: &[&[u8]]) -> Option<TopicQuery>
    ensures { result ≡ operation_words.topic_query_of word.now (behind.words_behind words.now) }
{
    if is(word, "subscribers") {
        without_operands(TopicQuery::Subscribers, words)
    } else {
        None
    }
}

/// The query with this kind's word, this word of its own and these operands; `None` exactly where it is no form of one.
pub fn question(
    alloc: Global,
    kind: &[u8],
    word: &[u8],
    words: &[&[u8]],
) -> Result<Option<Query>, NoMemory>
    ensures { IfOk result (λ read. read ≡ operation_words.query_of kind.now word.now (behind.words_behind words.now)) }
{
    if is(kind, "map") {
        Ok(map_query(alloc, word, words)?.map(Query::Map))
    } else if is(kind, "value") {
        Ok(value_query(word, words).map(Query::Value))
    } else if is(kind, "long") {
        Ok(long_query(word, words).map(Query::Long))
    } else if is(kind, "lock") {
        Ok(lock_query(word, words).map(Query::Lock))
    } else if is(kind, "group") {
        Ok(group_query(word, words).map(Query::Group))
    } else if is(kind, "set") {
        Ok(set_query(alloc, word, words)?.map(Query::Set))
    } else if is(kind, "queue") {
        Ok(queue_query(word, words).map(Query::Queue))
    } else if is(kind, "multimap") {
        Ok(multimap_query(alloc, word, words)?.map(Query::Multimap))
    } else if is(kind, "topic") {
        Ok(topic_query(word, words).map(Query::Topic))
    } else {
        Ok(None)
    }
}

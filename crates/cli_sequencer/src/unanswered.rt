ghost use Rattle.std.specs.Prelude.{◌≡◌, ℕ, ◌&&◌, ◌-◌, not, is_some, position, find, nat_eq, map, Some, None};
ghost use Rattle.std.specs.Option.{option_copied};
ghost use Rattle.spec_sequencer.specs.Sequencers as sequencers;
ghost use Rattle.spec_client.specs.Clients as clients;
ghost use Rattle.spec_client.specs.Receipts as receipts;
ghost use Rattle.cli_sequencer.specs.Numbers as numbers;
ghost use Rattle.cli_sequencer.specs.GivenOut as given;

use ax_types::{Got, Level};
use std::collections::VecDeque;
use std::marker::Model;

/// A call that lacks an outcome, and the answer that it has got. A query has no sequence, a command no level.
#[derive(Drop)]
pub struct Unanswered {
    pub number: u64,
    pub seq: Option<u64>,
    pub level: Option<Level>,
    pub got: Option<Got>,
}

impl Model for Unanswered {
    ghost use Rattle.spec_sequencer.specs.Sequencers as sequencers;

    ghost Value = { sequencers.Unanswered };

    ghost view = { λ a. record { number = a.number; seq = a.seq; level = a.level; got = a.got } };
}

impl Unanswered {
    /// The call's number.
    pub fn number(&self) -> u64
        ensures { result ≡ self.now.number }
    {
        self.number
    }

    /// Whether the call is the command with this sequence.
    pub fn has_seq(&self, seq: u64) -> bool
        ensures { result ≡ receipts.has_seq seq self.now.seq }
    {
        match self.seq {
            Some(own) => own == seq,
            None => false,
        }
    }

    /// Whether the call is a query at this level.
    pub fn has_level(&self, level: Level) -> bool
        ensures { result ≡ receipts.has_level level self.now.level }
    {
        match (self.level, level) {
            (Some(Level::Seq), Level::Seq) | (Some(Level::Lin), Level::Lin) => true,
            _ => false,
        }
    }

    /// Whether the call lacks an answer.
    pub fn is_waiting(&self) -> bool
        ensures { result ≡ not (is_some self.now.got) }
    {
        self.got.is_none()
    }

    /// Whether the call is a command that lacks an answer.
    pub fn is_open_command(&self) -> bool
        ensures { result ≡ sequencers.is_open_command self.now }
    {
        self.seq.is_some() && self.got.is_none()
    }

    /// How many commands were called before this one.
    pub fn commands_before(&self) -> u64
        ensures { result ≡ sequencers.seq_or self.now.seq 1 - 1 }
    {
        match self.seq {
            Some(seq) => seq.saturating_sub(1),
            None => 0,
        }
    }

    /// Whether the call's answer is given out where the call is the first: its events are heard, and it is no read older
    /// than the last one.
    pub fn is_given(&self, heard: u64, read: u64) -> bool
        ensures { result ≡ given.is_given_out heard read self.now }
    {
        match &self.got {
            None => false,
            Some(got) => got.events <= heard && (self.seq.is_some() || read <= got.place),
        }
    }

    /// Whether the call is asked again where it is the first: its answer's events are heard, and it is a read older than
    /// the last one.
    pub fn is_stale(&self, heard: u64, read: u64) -> bool
        ensures { result ≡ given.is_stale heard read self.now }
    {
        match &self.got {
            None => false,
            Some(got) => got.events <= heard && self.seq.is_none() && got.place < read,
        }
    }

    /// The place of the last read, once the call's answer was given out.
    pub fn read_after(&self, read: u64) -> u64
        ensures { result ≡ given.read_after read self.now }
    {
        match (&self.got, self.seq) {
            (Some(got), None) => got.place,
            (None, None) => 0,
            (_, Some(_)) => read,
        }
    }

    /// The call gets an answer, unless it has one.
    fn answer(&mut self, got: Got)
        ensures { self.new ≡ record self.old { got = Some (sequencers.first_got self.old.got got) } }
    {
        if self.got.is_none() {
            self.got = Some(got);
        }
    }
}

/// Where the call with this number stands: where numbers follow one another, by its distance from the first.
fn index_of(calls: &VecDeque<Unanswered>, number: u64) -> Option<usize>
    requires { numbers.AreAscending calls.now.items }
    ensures { result ≡ position (λ u. nat_eq u.number number) calls.now.items }
{
    let first = calls.front()?.number();
    if number < first {
        return None;
    }
    let index = (number - first) as usize;
    match calls.get(index) {
        Some(call) if call.number() == number => Some(index),
        _ => calls.iter().position(|call| call.number() == number),
    }
}

#[tactic(auto, using(crate::proofs::Found::find_no_position))]
/// The call with this number.
pub fn call_at(calls: &VecDeque<Unanswered>, number: u64) -> Option<&Unanswered>
    requires { numbers.AreAscending calls.now.items }
    ensures { option_copied result ≡ find (λ u. nat_eq u.number number) calls.now.items }
{
    match index_of(calls, number) {
        Some(index) => {
            let call = &calls[index];
            Some(call)
        }
        None => None,
    }
}

/// The command with this sequence.
pub fn command_at(calls: &VecDeque<Unanswered>, seq: u64) -> Option<&Unanswered>
    ensures { option_copied result ≡ receipts.asked_command calls.now.items seq }
{
    calls.iter().find(|call| call.has_seq(seq))
}

#[tactic(auto, using(crate::proofs::Found::asked_query_by_number))]
/// The query with this number and level.
pub fn query_at(calls: &VecDeque<Unanswered>, number: u64, level: Level) -> Option<&Unanswered>
    requires { numbers.AreAscending calls.now.items }
    ensures { option_copied result ≡ receipts.asked_query calls.now.items number level }
{
    match call_at(calls, number) {
        Some(call) if call.has_level(level) => Some(call),
        _ => None,
    }
}

/// The first command that lacks an answer.
pub fn first_open_command(calls: &VecDeque<Unanswered>) -> Option<&Unanswered>
    ensures { option_copied result ≡ find sequencers.is_open_command calls.now.items }
{
    calls.iter().find(|call| call.is_open_command())
}

#[tactic(auto, using(crate::proofs::Found::answers_found, crate::proofs::Found::answers_none))]
/// The call with this number gets an answer, unless it has one.
pub fn answer_at(calls: &mut VecDeque<Unanswered>, number: u64, got: Got)
    requires { numbers.AreAscending calls.old.items }
    ensures items { calls.new.items ≡ map (sequencers.get_answer number got) calls.old.items }
    ensures ascending { numbers.AreAscending calls.new.items }
{
    if let Some(index) = index_of(calls, number) {
        let call = &mut calls[index];
        call.answer(got);
    }
}

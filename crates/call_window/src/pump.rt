//! How the pump takes calls and answers them.
ghost use Rattle.std.specs.Prelude.{◌≡◌, [], ◌∷◌, IfOk, MatchBool, MatchResult};
ghost use Rattle.spec_window.specs.WindowCalls.{IsTaken, IsEmpty, IsAnswered};
ghost use Rattle.spec_window.specs.WindowWords.{window_places};
ghost use Rattle.law_window.specs.WindowKnown.{pump_of, known_to_pump};
ghost use Rattle.law_window.specs.WindowPlays.{took, gave};
ghost use Rattle.call_window.specs.WindowPumping.{IsRaising, HasPassed, HasStopped, HasRaised, IsSeeking, HasSought, IsTakingOut, IsAnswering};
ghost use Rattle.law_window.specs.WindowSeats.{IsTakenOnly};

use crate::seats::{Pump, Window};
use crate::words::{BASE, answered, free_for, place_of, places, published, state, taken_out};
use ax_types::{Empty, Outcome, WindowCall};
use law_window::{Gives, Parcel, Puts, Raises, SeesCall, SeesPassed, TableSeat, Takes};

impl Window {
    // Raises the base past its place, if that is free for its next number.
    fn pass(&self, seat: &mut TableSeat, base: u64) -> bool
        requires window { seat.old.table_id ≡ self.now.table.shared.table_id }
        requires seat { IsRaising seat.old.me base }
        ensures window { seat.new.table_id ≡ seat.old.table_id }
        ensures passed { MatchBool result (HasPassed window_places seat.old.me seat.new.me) (HasStopped window_places seat.old.me seat.new.me) }
    {
        let word = state(place_of(base));
        let free = free_for(base + places());
        let found = self.table.shared.load::<SeesPassed>(seat, word);
        if found != free {
            return false;
        }
        self.table.shared.store::<Raises>(seat, BASE, base + 1);
        true
    }

    // Raises the base past each place that is free for its next number, and answers the base.
    fn raise(&self, seat: &mut TableSeat, first: u64) -> u64
        requires window { seat.old.table_id ≡ self.now.table.shared.table_id }
        requires seat { IsRaising seat.old.me first }
        ensures window { seat.new.table_id ≡ seat.old.table_id }
        ensures raised { HasRaised window_places seat.old.me seat.new.me result }
    {
        let mut base = first;
        'passing: for _ in 0..places() {
            if !self.pass(seat, base) {
                return base;
            }
            base += 1;
        }
        base
    }

    // Loads the state of the place of the next number.
    fn seek(&self, seat: &mut TableSeat, number: u64) -> u64
        requires window { seat.old.table_id ≡ self.now.table.shared.table_id }
        requires seat { IsSeeking seat.old.me number }
        ensures window { seat.new.table_id ≡ seat.old.table_id }
        ensures sought { HasSought window_places seat.old.me seat.new.me number result }
    {
        let word = state(place_of(number));
        self.table.shared.load::<SeesCall>(seat, word)
    }

    // Takes the call out of the slot of the place of the next number.
    fn take_out(&self, seat: &mut TableSeat, number: u64) -> WindowCall
        requires window { seat.old.table_id ≡ self.now.table.shared.table_id }
        requires seat { IsTakingOut window_places seat.old.me number }
        ensures window { seat.new.table_id ≡ seat.old.table_id }
        ensures seat { seat.new.me ≡ (known_to_pump (took (pump_of seat.old.me.0) result), []) }
    {
        let place = place_of(number);
        let word = state(place);
        let taken = taken_out(number);
        let parcel = self.table.shared.exchange(seat, place, None);
        self.table.shared.store::<Takes>(seat, word, taken);
        match parcel {
            Some(Parcel::Call(call)) => call,
            _ => unreachable!(),
        }
    }

    /// Takes the call of the next number, if it is published. Before, it raises the base past the places that are free.
    pub fn take(&self, pump: &mut Pump) -> Result<(u64, WindowCall), Empty>
        requires { pump.old.window ≡ self.now.table.shared.table_id }
        ensures window { pump.new.window ≡ pump.old.window }
        ensures taken { MatchResult result (λ r. IsTaken window_places pump.old.pump pump.new.pump r.0 r.1) (λ e. IsEmpty window_places pump.old.pump pump.new.pump e.found) }
        ensures only { IfOk result (λ r. IsTakenOnly pump.new.pump r.0) }
    {
        pump.base = self.raise(&mut pump.seat, pump.base);
        let number = pump.taken;
        let there = published(number);
        let found = self.seek(&mut pump.seat, number);
        if found != there {
            return Err(Empty { found });
        }
        let call = self.take_out(&mut pump.seat, number);
        pump.taken += 1;
        Ok((number, call))
    }

    // Puts the outcome of a number into the slot of its place.
    fn put(&self, seat: &mut TableSeat, number: u64, outcome: Outcome)
        requires window { seat.old.table_id ≡ self.now.table.shared.table_id }
        requires seat { IsAnswering seat.old.me number }
        ensures window { seat.new.table_id ≡ seat.old.table_id }
        ensures seat { seat.new.me ≡ (known_to_pump (gave (pump_of seat.old.me.0) number outcome), []) }
    {
        let place = place_of(number);
        let word = state(place);
        let taken = taken_out(number);
        let given = answered(number);
        let words = &self.table.shared;
        words.store::<Puts>(seat, word, taken);
        words.exchange(seat, place, Some(Parcel::Outcome(outcome)));
        words.store::<Gives>(seat, word, given);
    }

    /// Gives a number that this pump took its outcome.
    pub fn answer(&self, pump: &mut Pump, number: u64, outcome: Outcome)
        requires window { pump.old.window ≡ self.now.table.shared.table_id }
        requires number { IsTakenOnly pump.old.pump number }
        ensures window { pump.new.window ≡ pump.old.window }
        ensures answered { IsAnswered pump.old.pump pump.new.pump number outcome }
    {
        self.put(&mut pump.seat, number, outcome);
        pump.answered += 1;
    }
}

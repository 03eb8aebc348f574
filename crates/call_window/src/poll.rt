//! How a caller polls for an outcome.
ghost use Rattle.std.specs.Prelude.{◌≡◌, [], ◌∷◌, Some, MatchResult};
ghost use Rattle.spec_window.specs.WindowCalls.{IsPolled, IsPending};
ghost use Rattle.spec_window.specs.WindowWords.{window_places};
ghost use Rattle.law_window.specs.WindowKnown.{caller_of, known_to_caller};
ghost use Rattle.law_window.specs.WindowPlays.{SeesOutcome as the_sees_outcome, was_told};
ghost use Rattle.call_window.specs.WindowPolls.{IsLooking, HasLooked, IsGetting};
ghost use Rattle.law_window.specs.WindowSeats.{IsCallerSeat, IsUnanswered};

use crate::seats::{CallerSeat, Window};
use crate::words::{answered, free_for, place_of, places, state};
use ax_types::{Outcome, Pending};
use law_window::{About, Frees, Parcel, SeesOutcome, TableSeat};
use std::marker::Brand;

impl Window {
    // Loads the state of the place of a number that waits for its outcome.
    fn look_for<N: About>(&self, seat: &mut TableSeat, number: u64) -> u64
        requires window { seat.old.table_id ≡ self.now.table.shared.table_id }
        requires seat { IsLooking seat.old.me number }
        requires about { number ≡ N.number }
        ensures window { seat.new.table_id ≡ seat.old.table_id }
        ensures looked { HasLooked window_places seat.old.me seat.new.me number result }
    {
        self.table
            .shared
            .load::<SeesOutcome<N>>(seat, state(place_of(number)))
    }

    // Takes the outcome out of the slot, and frees the place for its next number.
    fn get(&self, seat: &mut TableSeat, number: u64) -> Outcome
        requires window { seat.old.table_id ≡ self.now.table.shared.table_id }
        requires seat { IsGetting window_places seat.old.me number }
        ensures window { seat.new.table_id ≡ seat.old.table_id }
        ensures seat { seat.new.me ≡ (known_to_caller (was_told (caller_of seat.old.me.0) number result), []) }
    {
        let place = place_of(number);
        let parcel = self.table.shared.exchange(seat, place, None);
        self.table
            .shared
            .store::<Frees>(seat, state(place), free_for(number + places()));
        match parcel {
            Some(Parcel::Outcome(outcome)) => outcome,
            _ => unreachable!(),
        }
    }

    /// Takes the outcome of a number that this seat drew, if there is one.
    pub fn poll(&self, seat: &mut CallerSeat, number: u64) -> Result<Outcome, Pending>
        requires window { seat.old.window ≡ self.now.table.shared.table_id }
        requires number { IsUnanswered number seat.old.seat.mine }
        ensures window { seat.new.window ≡ seat.old.window }
        ensures polled { MatchResult result (IsPolled window_places seat.old.seat seat.new.seat number) (λ p. IsPending window_places seat.old.seat seat.new.seat number p.found) }
    {
        let found = self.look_for::<Brand>(&mut seat.seat, number);
        if found != answered(number) {
            return Err(Pending { found });
        }
        Ok(self.get(&mut seat.seat, number))
    }
}

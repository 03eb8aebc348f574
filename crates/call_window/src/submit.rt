//! How a caller submits a call.
ghost use Rattle.std.specs.Prelude.{◌≡◌, [], ◌∷◌, None, IfOk, MatchResult};
ghost use Rattle.ax_types.specs.declared.ops.WindowCall.{WindowCall};
ghost use Rattle.spec_window.specs.Views.{SeatView};
ghost use Rattle.spec_window.specs.WindowCalls.{IsSubmitted};
ghost use Rattle.spec_window.specs.WindowWords.{window_places, place_of as the_place_of};
ghost use Rattle.law_window.specs.WindowKnown.{caller_of, known_to_caller, Drew};
ghost use Rattle.law_window.specs.WindowPlays.{has_published};
ghost use Rattle.call_window.specs.WindowRefused.{IsRefused, IsDrawRefused, IsDrawn, IsDrawing};
ghost use Rattle.law_window.specs.WindowSeats.{IsCallerSeat, IsUnanswered};

use crate::seats::{CallerSeat, Window};
use crate::words::{BASE, NEXT, place_of, places, published, state};
use ax_types::limits::LAST_NUMBER;
use ax_types::{SubmitRefused, WindowCall};
use law_window::{Draws, Parcel, Publishes, SeesBase, SeesNext, TableSeat};

/// Why a caller drew no number.
#[derive(Clone, Copy)]
pub enum DrawRefused {
    Full { next: u64, base: u64 },
    Lost { seen: u64, found: u64 },
    Spent { next: u64 },
}

impl DrawRefused {
    // The refusal, which hands the call back.
    fn with_call(self, call: WindowCall) -> SubmitRefused
        ensures { (old new : SeatView) → IsDrawRefused window_places old new self → IsRefused window_places old new call result }
    {
        match self {
            DrawRefused::Full { next, base } => SubmitRefused::Full { next, base, call },
            DrawRefused::Lost { seen, found } => SubmitRefused::Lost { seen, found, call },
            DrawRefused::Spent { next } => SubmitRefused::Spent { next, call },
        }
    }
}

impl Window {
    // Draws the next number, where the window has a place for it.
    fn draw(&self, seat: &mut TableSeat) -> Result<u64, DrawRefused>
        requires window { seat.old.table_id ≡ self.now.table.shared.table_id }
        requires seat { IsCallerSeat seat.old.me }
        ensures window { seat.new.table_id ≡ seat.old.table_id }
        ensures drawn { MatchResult result (IsDrawn window_places seat.old.me seat.new.me) (λ r. IsCallerSeat seat.new.me × IsDrawRefused window_places (caller_of seat.old.me.0).seat (caller_of seat.new.me.0).seat r) }
    {
        let next = self.table.shared.load::<SeesNext>(seat, NEXT);
        if next >= LAST_NUMBER {
            return Err(DrawRefused::Spent { next });
        }
        let base = self.table.shared.load::<SeesBase>(seat, BASE);
        if base <= next && next - base == places() {
            return Err(DrawRefused::Full { next, base });
        }
        let found = self
            .table
            .shared
            .compare_exchange::<Draws>(seat, NEXT, next, next + 1);
        if found != next {
            return Err(DrawRefused::Lost { seen: next, found });
        }
        Ok(next)
    }

    // Puts the call of a number that was drawn into the slot of its place, and publishes it.
    fn publish(&self, seat: &mut TableSeat, number: u64, call: WindowCall)
        requires window { seat.old.table_id ≡ self.now.table.shared.table_id }
        requires seat { IsDrawing window_places seat.old.me number }
        ensures window { seat.new.table_id ≡ seat.old.table_id }
        ensures seat { seat.new.me ≡ (known_to_caller (has_published (caller_of seat.old.me.0) number call), []) }
    {
        let place = place_of(number);
        self.table
            .shared
            .exchange(seat, place, Some(Parcel::Call(call)));
        self.table
            .shared
            .store::<Publishes>(seat, state(place), published(number));
    }

    /// Submits a call, which gets the next number. A caller whose window is full, or that lost the number to another caller,
    /// has its call back and may submit it again.
    pub fn submit(&self, seat: &mut CallerSeat, call: WindowCall) -> Result<u64, SubmitRefused>
        requires { seat.old.window ≡ self.now.table.shared.table_id }
        ensures window { seat.new.window ≡ seat.old.window }
        ensures submitted { MatchResult result (IsSubmitted window_places seat.old.seat seat.new.seat call) (IsRefused window_places seat.old.seat seat.new.seat call) }
        ensures waits { IfOk result (λ n. IsUnanswered n seat.new.seat.mine) }
    {
        match self.draw(&mut seat.seat) {
            Ok(number) => {
                self.publish(&mut seat.seat, number, call);
                Ok(number)
            }
            Err(refused) => Err(refused.with_call(call)),
        }
    }
}

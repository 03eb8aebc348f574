//! How a window is closed.
ghost use Rattle.std.specs.Prelude.{◌≡◌, ℕ, ◌+◌, ◌<◌, ◌≤◌, Some, [], map};
ghost use Rattle.std.specs.List.{AllByRecursion};
ghost use Rattle.spec_window.specs.WindowAgreement.{IsClosed};
ghost use Rattle.spec_window.specs.WindowWords.{window_places};
ghost use Rattle.call_window.specs.WindowClosing.{AreAllSeats, HasMet, HasJoined, HasSurveyed};
ghost use Rattle.law_window.specs.WindowKnown.{PumpKnown};
ghost use Rattle.law_window.specs.WindowPlays.{saw_last, IsFoundIn};

use crate::seats::{CallerSeat, Pump, Window};
use crate::words::{NEXT, places, state};
use ax_types::List;
use law_window::{About, Leaves, Meets, SeesLast, TableSeat};
use std::marker::Brand;

/// What a window has at its close: how many numbers were drawn, how many were given an outcome, and the first seat.
#[derive(Drop)]
pub struct Closed {
    pub drawn: u64,
    pub answered: u64,
    pub seat: CallerSeat,
}

impl Window {
    // A joined seat looks at a word.
    fn look<N: About>(&self, seat: &mut TableSeat, word: usize) -> u64
        requires window { seat.old.table_id ≡ self.now.table.shared.table_id }
        requires word { word < window_places + 2 }
        requires about { self.now.table.shared.key ≡ N.number }
        ensures window { seat.new.table_id ≡ seat.old.table_id }
        ensures seat { seat.new.me ≡ (saw_last seat.old.me.0 word result, seat.old.me.1) }
        ensures found { IsFoundIn window_places N.number seat.old.me.0 word result }
    {
        self.table.shared.load::<SeesLast<N>>(seat, word)
    }

    // Takes another seat in, after a look at the next number.
    fn join<N: About>(&self, seat: &mut TableSeat, other: TableSeat)
        requires window { (seat.old.table_id ≡ self.now.table.shared.table_id) × (other.table_id ≡ self.now.table.shared.table_id) }
        requires slots { other.me.1 ≡ [] }
        requires about { self.now.table.shared.key ≡ N.number }
        ensures window { seat.new.table_id ≡ seat.old.table_id }
        ensures met { HasMet seat.old.me seat.new.me other.me.0 }
    {
        self.look::<N>(seat, NEXT);
        self.table.shared.join_seat::<Meets>(seat, other);
    }

    // Takes the seats of other callers in.
    fn join_all<N: About>(&self, seat: &mut TableSeat, mut others: Vec<CallerSeat>)
        requires window { (seat.old.table_id ≡ self.now.table.shared.table_id) × AllByRecursion (λ s. s.window ≡ self.now.table.shared.table_id) others.items }
        requires about { self.now.table.shared.key ≡ N.number }
        ensures window { seat.new.table_id ≡ seat.old.table_id }
        ensures joined { HasJoined seat.old.me seat.new.me (map (λ s. s.seat) others.items) }
    {
        'joining: while let Some(other) = others.pop() {
            let CallerSeat { seat: next } = other;
            self.join::<N>(seat, next);
        }
    }

    // Looks at the state of each place.
    fn survey<N: About>(&self, seat: &mut TableSeat)
        requires window { seat.old.table_id ≡ self.now.table.shared.table_id }
        requires about { self.now.table.shared.key ≡ N.number }
        ensures window { seat.new.table_id ≡ seat.old.table_id }
        ensures surveyed { (p : PumpKnown) → seat.old.me.0.pump ≡ Some p → HasSurveyed window_places N.number p seat.old.me seat.new.me window_places }
    {
        'surveying: for place in 0..places() {
            self.look::<N>(seat, state(place as usize));
        }
    }

    // Joins all seats into the first, looks at the words, and hands the first seat back.
    fn close_as<N: About>(&self, pump: Pump, seats: List<CallerSeat>) -> Closed
        requires window { (pump.window ≡ self.now.table.shared.table_id) × AllByRecursion (λ s. s.window ≡ self.now.table.shared.table_id) seats }
        requires all { AreAllSeats self.now.table.shared.key (map (λ s. s.seat) seats) }
        requires about { self.now.table.shared.key ≡ N.number }
        ensures window { result.seat.window ≡ self.now.table.shared.table_id }
        ensures closed { IsClosed window_places pump.pump (map (λ s. s.seat) seats) result.drawn result.answered result.seat.seat }
    {
        let mut others = seats.into_vec();
        let CallerSeat { mut seat } = others.remove(0);
        let Pump {
            seat: pump_seat,
            taken: _,
            base: _,
            answered,
        } = pump;
        self.join::<N>(&mut seat, pump_seat);
        self.join_all::<N>(&mut seat, others);
        let drawn = self.look::<N>(&mut seat, NEXT);
        self.survey::<N>(&mut seat);
        let seat = self.table.shared.split_seat::<Leaves>(&mut seat);
        Closed {
            drawn,
            answered,
            seat: CallerSeat { seat },
        }
    }

    /// Closes the window: joins the pump and the seats of all callers, which have then ended, into the first seat, and looks at
    /// the words. What all of them kept agrees with what it finds. The first seat comes back.
    pub fn close(&self, pump: Pump, seats: List<CallerSeat>) -> Closed
        requires window { (pump.window ≡ self.now.table.shared.table_id) × AllByRecursion (λ s. s.window ≡ self.now.table.shared.table_id) seats }
        requires all { AreAllSeats self.now.table.shared.key (map (λ s. s.seat) seats) }
        ensures window { result.seat.window ≡ self.now.table.shared.table_id }
        ensures closed { IsClosed window_places pump.pump (map (λ s. s.seat) seats) result.drawn result.answered result.seat.seat }
    {
        self.close_as::<Brand>(pump, seats)
    }
}

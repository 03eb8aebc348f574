//! The window, and the seats of its callers and of its pump.
ghost use Rattle.std.specs.Prelude.{◌≡◌, ◌+◌, ◌≤◌};
ghost use Rattle.spec_window.specs.WindowWords.{window_places};

use atomic_table::Table;
use law_window::{Known, Parcel, TableSeat, WindowLaw};
use std::alloc::Global;
use std::marker::Model;

/// The places of a session that threads share. It has 64 places, and each holds a call or its outcome.
#[derive(Drop)]
pub struct Window {
    pub(crate) table: Table<Option<Parcel>, Known, u8, WindowLaw, Global>,
    ghost sized: { (table.shared.table_id.words ≡ window_places + 2) × (table.shared.table_id.slots ≡ window_places) },
    ghost staffed: { 1 ≤ table.shared.key },
}

/// A caller's seat of a window, with which one thread submits calls and polls for their outcomes.
#[derive(Drop)]
pub struct CallerSeat {
    pub(crate) seat: TableSeat,
}

impl Model for CallerSeat {
    ghost use Rattle.law_window.specs.WindowKnown.{caller_of};
    ghost use Rattle.law_window.specs.WindowSeats.{SeatOf, IsCallerSeat};

    ghost Value = { SeatOf };

    ghost view = { λ s. record { window = s.seat.table_id; seat = (caller_of s.seat.me.0).seat } };

    ghost invariant = { λ s. IsCallerSeat s.seat.me };
}

/// The pump of a window, with which one thread takes the calls and answers them.
#[derive(Drop)]
pub struct Pump {
    pub(crate) seat: TableSeat,
    pub(crate) taken: u64,
    pub(crate) base: u64,
    pub(crate) answered: u64,
}

impl Model for Pump {
    ghost use Rattle.law_window.specs.WindowKnown.{pump_of};
    ghost use Rattle.law_window.specs.WindowSeats.{PumpOf, IsPumpSeat};

    ghost Value = { PumpOf };

    ghost view = { λ p. record { window = p.seat.table_id; pump = (pump_of p.seat.me.0).pump } };

    ghost invariant = { λ p. IsPumpSeat p.seat.me p.taken p.base p.answered };
}

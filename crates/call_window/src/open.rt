//! How a window is opened.
ghost use Rattle.std.specs.Prelude.{◌≡◌, ◌≤◌, [], IfOk};
ghost use Rattle.spec_window.specs.WindowWords.{window_places};
ghost use Rattle.law_window.specs.WindowKnown.{known_at_first, known_to_pump, new_pump};
ghost use Rattle.call_window.specs.WindowOpening.{AreFirstWords, new_seats, new_pump_of};

use crate::seats::{CallerSeat, Pump, Window};
use crate::words::{free_for, places};
use atomic_table::Table;
use ax_types::{List, NoMemory};
use law_window::{Parts, TableSeat};
use std::alloc::Global;

// The words at the start: no number is drawn, and each place is free for its own number.
fn first_words(alloc: Global) -> Result<Vec<u64>, NoMemory>
    ensures { IfOk result (λ v. AreFirstWords window_places v.items) }
{
    let mut words = Vec::with_capacity(alloc, places() as usize + 2)?;
    words.push(0)?;
    words.push(0)?;
    'filling: for place in 0..places() {
        words.push(free_for(place))?;
    }
    Ok(words)
}

impl Window {
    // The seats of the callers, split off one after the other.
    fn seats_of(
        &self,
        alloc: Global,
        first: &mut TableSeat,
        callers: u8,
    ) -> Result<List<CallerSeat>, NoMemory>
        requires window { first.old.table_id ≡ self.now.table.shared.table_id }
        requires first { first.old.me ≡ (known_at_first callers, []) }
        ensures window { first.new.table_id ≡ first.old.table_id }
        ensures seats { IfOk result (λ seats. (seats ≡ new_seats self.now.table.shared.table_id 1 callers) × (first.new.me ≡ (known_to_pump new_pump, []))) }
    {
        let mut seats = List::with_capacity(alloc, callers as usize)?;
        'splitting: for _ in 0..callers {
            let seat = self.table.shared.split_seat::<Parts>(first);
            seats.push(CallerSeat { seat })?;
        }
        Ok(seats)
    }

    /// A window with its pump and the seats of as many callers, numbered from 1: 1 to 16 of them. It takes all the memory that
    /// the window ever takes.
    pub fn open(alloc: Global, callers: u8) -> Result<(Window, Pump, List<CallerSeat>), NoMemory>
        requires { 1 ≤ callers }
        ensures { IfOk result (λ r. (r.0.table.shared.key ≡ callers) × (r.1 ≡ new_pump_of r.0.table.shared.table_id) × (r.2 ≡ new_seats r.0.table.shared.table_id 1 callers)) }
    {
        let words = first_words(alloc)?;
        let (table, mut seat) = Table::vacant(
            alloc,
            words.as_slice(),
            places() as usize,
            &callers,
        )?;
        let window = Window { table };
        let seats = window.seats_of(alloc, &mut seat, callers)?;
        let pump = Pump {
            seat,
            taken: 0,
            base: 0,
            answered: 0,
        };
        Ok((window, pump, seats))
    }
}

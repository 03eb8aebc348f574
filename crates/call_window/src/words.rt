//! The words of the window: the next number, the base, and the state of each place, which is 4n and a phase, where n is the
//! number that the place serves.
ghost use Rattle.std.specs.Prelude.{◌≡◌, ◌+◌, ◌<◌, ◌≤◌};
ghost use Rattle.spec_window.specs.WindowWords.{window_places, place_of as the_place_of, free_for as the_free_for, published as the_published, taken_out as the_taken_out, answered as the_answered, last_number};

use ax_types::limits::{LAST_NUMBER, MAX_UNANSWERED};

pub const NEXT: usize = 0;

pub const BASE: usize = 1;

/// How many places the window has.
pub fn places() -> u64
    ensures value { result ≡ window_places }
    ensures some { 0 < result }
    ensures few { result ≤ 64 }
{
    MAX_UNANSWERED
}

/// The place of a number.
pub fn place_of(number: u64) -> usize
    ensures value { result ≡ the_place_of window_places number }
    ensures within { result < window_places }
{
    (number % MAX_UNANSWERED) as usize
}

/// The word of the state of a place.
pub fn state(place: usize) -> usize
    requires { place < window_places }
    ensures { result ≡ place + 2 }
{
    place + 2
}

/// The place is free for the number.
pub fn free_for(number: u64) -> u64
    requires { number ≤ last_number + 64 }
    ensures { result ≡ the_free_for number }
{
    4 * number
}

/// The call of the number is published.
pub fn published(number: u64) -> u64
    requires { number ≤ last_number }
    ensures { result ≡ the_published number }
{
    4 * number + 1
}

/// The pump took the call of the number out.
pub fn taken_out(number: u64) -> u64
    requires { number ≤ last_number }
    ensures { result ≡ the_taken_out number }
{
    4 * number + 2
}

/// The number has its outcome.
pub fn answered(number: u64) -> u64
    requires { number ≤ last_number }
    ensures { result ≡ the_answered number }
{
    4 * number + 3
}

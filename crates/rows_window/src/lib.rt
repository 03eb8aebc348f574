//! One call through a window.
#![tactic(auto)]

ghost use Rattle.std.specs.Prelude.{◌≡◌, ℕ, [], ◌∷◌};
ghost use Rattle.spec_window.specs.WindowAgreement as agreement;
ghost use Rattle.spec_window.specs.WindowWords as window_words;
ghost use Rattle.rows_window.specs.ClosedWindow as closed_window;

/// A call goes through a window of two places: drawn, published, taken, answered, taken out, and its place passed.
pub fn one_call()
    ensures { window_words.words_moved 2 (window_words.words_moved 2 (window_words.words_moved 2 (window_words.words_moved 2 (window_words.words_moved 2 (window_words.words_moved 2 (window_words.words_at_start 2) (window_words.Draw 0)) (window_words.Publish 0)) (window_words.Take 0)) (window_words.Answer 0)) (window_words.Free 0)) (window_words.Raise 0)
        ≡ record { next = 1; base = 1; states = 8 ∷ 4 ∷ [] } }
{}

/// After that call the seat, the pump and the words agree.
pub fn one_call_is_agreed()
    ensures { agreement.IsAgreed 2 closed_window.pump (closed_window.seat ∷ []) closed_window.last_loads }
{}

/// The window is closed: one call was drawn, and one outcome given.
pub fn one_call_is_closed()
    ensures { agreement.IsClosed 2 closed_window.pump (closed_window.seat ∷ []) 1 1 closed_window.closed_seat }
{}

/// The caller drew its one call and was told its outcome.
pub fn one_call_is_reported()
    ensures { agreement.IsReported (closed_window.add_five_call ∷ []) closed_window.seat closed_window.told_outcomes }
{}

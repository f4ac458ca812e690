//! Laws of periods, each as the contract of a function that does nothing.
ghost use Rattle.std.specs.Prelude.{◌≡◌, ◌+◌, ℕ, ℤ, neg_ℤ, false, IsTrue, ◌↔◌, Ok, Some, slice_get};
ghost use Rattle.fisca_time.specs.Calendar.{day_number, date_of};
ghost use Rattle.fisca_time.specs.Instant.{CivilDate, is_on_calendar};
ghost use Rattle.fisca_time.specs.Period.{Span, is_period, is_eternal, start_day, subs, day_at, moved_by, KeepsDay, Covers};
ghost use Rattle.fisca_time.specs.PeriodText.{period_of_text, text_of};
ghost use Rattle.fisca_time.specs.declared.unit.Unit.{Unit};
ghost use Rattle.fisca_time.specs.declared.unit.Unit.TheVariants.{Day};

/// Law: the subperiods of a period by day are the days that it covers, each once, in order of time.
pub fn subperiods_by_day_are_its_days()
    ensures { (p : Span) → IsTrue (is_period p) → is_eternal p ≡ false → (i : ℕ) → (day : ℕ)
        → (slice_get (subs p Day) i ≡ Some (day_at day)) ↔ ((day ≡ start_day p + i) × Covers p day) }
{}

/// Law: the text of a period reads as that period.
pub fn texts_read_as_their_periods()
    ensures { (p : Span) → IsTrue (is_period p) → period_of_text (text_of p) ≡ Ok p }
{}

/// Law: a period that was moved by k of a unit is given back by a move by -k of it, but for days that
/// came to a month that was too short for them.
pub fn moves_go_back()
    ensures { (p : Span) → (q : Span) → (k : ℤ) → (unit : Unit) → IsTrue (is_period p) → moved_by k unit p ≡ Ok q → KeepsDay unit p q → moved_by (neg_ℤ k) unit q ≡ Ok p }
{}

/// Law: a date of the calendar has a number, and the number gives the date.
pub fn numbers_give_their_dates()
    ensures { (date : CivilDate) → IsTrue (is_on_calendar date) → date_of (day_number date) ≡ date }
{}

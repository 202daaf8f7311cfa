//! Laws of the definitions: functions that do nothing when they run.

ghost use Rattle.std.specs.Prelude.{◌≡◌, ◌≤◌, ◌+◌, ◌&&◌, ℕ, true, false, nat_le, nat_lt, count_by, List, [], None};
ghost use Rattle.std.specs.Prelude.{Some};
ghost use Rattle.std.specs.List.{list_all};
ghost use Rattle.desk_rows.specs.Desk.{Desk};
ghost use Rattle.picture_requests.specs.declared.source.VideoSource.{VideoSource};
ghost use Rattle.picture_requests.specs.declared.choosing.SlotChoice.{SlotChoice};
ghost use Rattle.picture_requests.specs.Sources.{same_source, is_among};
ghost use Rattle.picture_requests.specs.Choices.{chosen_source, choices_of, newly_chosen};
ghost use Rattle.picture_requests.specs.Requests.{no_requests, request_gap, due};
ghost use Rattle.picture_requests.specs.Steps.{RequestStep, after_steps, waits_at_end, asks_of, AreDue, AreInOrder};
ghost use Rattle.picture_requests.specs.Steps.{AreSpaced, IsAskedInTime, AreApart};

/// A law: from one desk to a later one, a source is newly chosen exactly if a slot chose it on the later desk, and did
/// not choose it on the earlier one. Each source stands there once.
pub fn changed_slots_are_all()
    ensures all { (before after : Desk) (out_ssrc : ℕ) (source : VideoSource)
        → chosen_source after out_ssrc ≡ Some source → ¬ (chosen_source before out_ssrc ≡ Some source)
        → is_among (newly_chosen (choices_of before) (choices_of after)) source ≡ true }
    ensures only { (before after : Desk) (source : VideoSource)
        → is_among (newly_chosen (choices_of before) (choices_of after)) source ≡ true
        → (out_ssrc : ℕ) × (chosen_source after out_ssrc ≡ Some source)
        × ¬ (chosen_source before out_ssrc ≡ Some source) }
    ensures once { (before after : List SlotChoice) (source : VideoSource)
        → count_by (same_source source) (newly_chosen before after) ≤ 1 }
{}

/// A law over all steps: what waits is what each source's own history says. A source waits since a slot changed to it,
/// or since it was wanted, until it is asked, or until a desk is seen in which no slot chooses it. Only what waits is
/// due.
///
/// So nothing is asked unasked: a source that was asked is due again only once it waits again.
pub fn nothing_is_asked_unasked()
    ensures waits { (source : VideoSource) (steps : List RequestStep)
        → is_among (after_steps steps no_requests).waiting source ≡ waits_at_end source steps [] false }
    ensures due { (source : VideoSource) (steps : List RequestStep) (moment : ℕ)
        → is_among (due moment (after_steps steps no_requests)) source ≡ true
        → waits_at_end source steps [] false ≡ true }
{}

/// A law over all steps: a source that waits is due once its requests are half a second old.
pub fn what_waits_becomes_due()
    ensures { (source : VideoSource) (steps : List RequestStep) (moment : ℕ)
        → waits_at_end source steps [] false ≡ true
        → list_all (λ m. nat_le (m + request_gap) moment) (asks_of source steps) ≡ true
        → is_among (due moment (after_steps steps no_requests)) source ≡ true }
{}

/// A law over all steps whose moments never go back, where each source is asked when it is due: two requests to a
/// source are at least half a second apart. In no second is a source asked more than twice.
pub fn requests_are_spaced()
    ensures spaced { (source : VideoSource) (steps : List RequestStep) → AreInOrder 0 steps
        → AreDue no_requests steps → AreSpaced (asks_of source steps) }
    ensures two { (source : VideoSource) (steps : List RequestStep) (moment : ℕ) → AreInOrder 0 steps
        → AreDue no_requests steps
        → count_by (λ m. nat_le moment m && nat_lt m (moment + 1000000000)) (asks_of source steps) ≤ 2 }
{}

/// A law over all steps whose moments never go back, where a source is asked when it is due, or at once where it was
/// wanted: two requests to it are at least half a second apart, unless it was wanted between them.
pub fn requests_between_wants_are_spaced()
    ensures { (source : VideoSource) (steps : List RequestStep) → AreInOrder 0 steps
        → IsAskedInTime source no_requests false steps → AreApart source None steps }
{}

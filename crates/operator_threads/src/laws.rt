//! Laws of what an operator is told. The functions do nothing when they run.

ghost use Rattle.std.specs.Prelude.{◌≡◌, ◌≤◌, ℕ, length, List, Some, None};
ghost use Rattle.logbook.specs.Pages.{Book};
ghost use Rattle.desk_rows.specs.Desk.{Desk};
ghost use Rattle.desk_edit.specs.Asked.{CallOf};
ghost use Rattle.operator_lines.specs.DeskAsk.{DeskAsk, calls};
ghost use Rattle.operator_threads.specs.Lease.{last_lease};
ghost use Rattle.operator_threads.specs.Watches.{
  AnswersCall,
  AreSeatAnswers,
  SeatAnswers,
  SittingOf,
  WasTold,
  after_learning,
  news_among,
};

/// A watch tells each call once. Whatever an operator at the desk asks, the news on the connection are the lines of the
/// log's calls behind those that were told or passed over before, in order and without a gap: each with its moment and
/// its name, or without them.
pub fn a_watch_tells_each_call_once()
    ensures { (start : Desk) (publisher : Book) (asked : List (DeskAsk × List ℕ)) (told : ℕ) (old new : SittingOf)
        → AreSeatAnswers start publisher asked old new → old.told ≡ Some told → told ≤ length old.seat.seen
        → WasTold told new (news_among asked) }
{}

/// A desk that was told no lease takes each call, and so does one whose last lease was taken back: the call is answered
/// as the desk answers it.
pub fn without_a_lease_each_call_is_taken()
    ensures { (start : Desk) (publisher : Book) (moment : ℕ) (old new : SittingOf) (line : List ℕ) (call : CallOf)
        (said : List ℕ) → SeatAnswers start publisher moment old new (calls line call) said
        → last_lease new.learnt.list ≡ None
        → AnswersCall start publisher moment (after_learning new.learnt old) new line call said }
{}

//! Laws of the definitions.

ghost use Rattle.desk_http.specs.PendingLines.{IsSentAtMostOnce};
ghost use Rattle.desk_http.specs.Guarded.{IsGuarded};
ghost use Rattle.desk_http.specs.Events.{MakesText};

/// A request is a call only if it is a POST to the page's own host, from no other origin, with its token, a line, a
/// name that the bridge takes, and a version of the desk or none.
pub fn calls_are_guarded()
    ensures { IsGuarded }
{}

/// At most one line of each request is handed over, and that once.
pub fn lines_are_sent_at_most_once()
    ensures { IsSentAtMostOnce }
{}

/// Where two texts are the same at both ends of an edit, the edit makes the second one of the first.
pub fn edits_make_texts()
    ensures { MakesText }
{}

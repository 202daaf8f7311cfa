//! Laws of calls. Each is a function that does nothing, and whose contract is the law.

ghost use Rattle.std.specs.Prelude.{◌≡◌, List, fold, reverse};
ghost use Rattle.undo_log.specs.Timeline.{rewound};
ghost use Rattle.desk_edit.specs.Asked.{CallOf};
ghost use Rattle.desk_edit.specs.Calls.{CallHistory};
ghost use Rattle.desk_calls.specs.Edits.{after, inverse};
ghost use Rattle.desk_calls.specs.Desk.{DeskOf};
ghost use Rattle.desk_calls.specs.Following.{HasCalled};
ghost use Rattle.desk_calls.specs.Accepted.{after_calls, AreAccepted, AcceptsInTurn};

/// Calls that a desk accepts one after another are a legal list of calls, and the desk is then where
/// that list leads.
pub fn accepted_calls_are_legal()
    ensures legal { (first last : DeskOf) (calls : List CallOf) (h : CallHistory) → HasCalled first h →
        AcceptsInTurn first calls last → AreAccepted h calls }
    ensures leads { (first last : DeskOf) (calls : List CallOf) (h : CallHistory) → HasCalled first h →
        AcceptsInTurn first calls last → HasCalled last (after_calls h calls) }
{}

/// The edits that are kept lead from the start to the desk of the command equations; taken back,
/// the last one first, they lead to the start again, whatever the commands removed.
pub fn edits_lead_back()
    ensures leads { (d : DeskOf) (h : CallHistory) → HasCalled d h → fold after h.start d.done ≡ d.desk }
    ensures back { (d : DeskOf) (h : CallHistory) → HasCalled d h →
        rewound after inverse d.desk (reverse d.done) ≡ h.start }
{}

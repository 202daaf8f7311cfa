//! Laws of the lines, as functions that do nothing, and whose contracts are the laws.

ghost use Rattle.std.specs.Prelude.{◌≡◌, ℕ, ◌<◌, ◌≤◌, ◌^◌, List, length, map, Ok};
ghost use Rattle.desk_edit.specs.Calls.{no_calls};
ghost use Rattle.desk_calls.specs.Accepted.{AreAccepted};
ghost use Rattle.sender_feedback.specs.Upstream.{Asker};
ghost use Rattle.media_items.specs.Inputs.{Input};
ghost use Rattle.media_workers.specs.LaneRuns.{Versioned};
ghost use Rattle.lane_laws.specs.Merges.{InOrder, UpTo};
ghost use Rattle.lane_laws.specs.Replays.{sent_alone};
ghost use Rattle.desk_text.specs.Words.{words_of};
ghost use Rattle.desk_text.specs.Lines.{lines_of, ended_lines};
ghost use Rattle.script_text.specs.Requests.{Item};
ghost use Rattle.script_text.specs.ItemLines.{item_line, later_request, request_of};
ghost use Rattle.script_text.specs.Decodings.{Decoding};
ghost use Rattle.script_text.specs.Bridge.{first_desk};
ghost use Rattle.script_text.specs.Scripts.{requests_of};
ghost use Rattle.call_history.specs.AcceptedCall.{AcceptedOf};
ghost use Rattle.trace_text.specs.TraceLines.{marked};
ghost use Rattle.trace_text.specs.declared.speaker.Speaker.TheVariants.{Lane};
ghost use Rattle.trace_laws.specs.Items.{IsInput};
ghost use Rattle.trace_laws.specs.Traces.{IsWritten, AreToldCalls, AreWithin, AreToldItems, asked_calls};
ghost use Rattle.trace_laws.specs.Traces.{lane_script, lane_part, lane_asked, script_sent};

/// The line of an item is read as that item, if its numbers are in range.
pub fn item_lines_are_read()
    ensures words { (input : Input) → IsInput input → later_request (words_of (item_line input)) ≡ Ok (Item input) }
    ensures line { (input : Input) → IsInput input → length (item_line input) ≤ 8388608
        → request_of (item_line input) ≡ Ok (Item input) }
{}

/// The lines of a lane's part of a trace are those of its script, each behind the words that name the lane.
pub fn a_lanes_lines_are_its_script()
    ensures { (lane : ℕ) (who : Asker) (calls : List AcceptedOf) (items : List Versioned) → lane < 2 ^ 64
        → IsWritten who → AreToldCalls calls → AreToldItems items
        → ended_lines (lane_part lane who calls items)
        ≡ map (marked (Lane lane)) (ended_lines (lane_script lane who calls items)) }
{}

/// A lane's part of a trace is a script that begins the lane's bridge, and then asks for the lane's items, each behind
/// the calls that lead to its version, and for nothing else.
pub fn a_trace_is_read()
    ensures { (lane : ℕ) (who : Asker) (calls : List AcceptedOf) (items : List Versioned) → IsWritten who
        → AreToldCalls calls → AreWithin calls → AreToldItems items
        → requests_of (lines_of (lane_script lane who calls items)) ≡ lane_asked who calls items }
{}

/// A lane's part of a trace, as a script, sends what a bridge of one lane sends for the lane's items: each by the desk
/// of its version.
///
/// The calls are accepted one after another from the first desk, and the versions of the items don't fall. By
/// [`one_lane_sends_it_alone`](lane_laws::one_lane_sends_it_alone) the lane sent what of all that is about its streams.
pub fn a_trace_sends_what_its_lane_sent()
    ensures { (decoding : Decoding) (lane : ℕ) (who : Asker) (calls : List AcceptedOf) (items : List Versioned)
        → IsWritten who → AreToldCalls calls → AreToldItems items
        → AreAccepted (no_calls (first_desk who)) (asked_calls calls) → InOrder 0 items → UpTo (length calls) items
        → script_sent decoding (lane_script lane who calls items)
        ≡ sent_alone who (first_desk who) (asked_calls calls) items }
{}

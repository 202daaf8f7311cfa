//! The answer to one line.

ghost use Rattle.std.specs.Prelude.{◌≡◌, ◌≢◌, ◌⊎◌, ◌^◌, ◌++◌, true, [], OnOk, map};
ghost use Rattle.std.specs.List.{flat_map, list_all};
ghost use Rattle.desk_edit.specs.Asked.{asked_by};
ghost use Rattle.media_items.specs.Inputs.{input_of, is_sized};
ghost use Rattle.bridge_core.specs.Sent.{sent_of};
ghost use Rattle.script_text.specs.SentLines.{sent_text};
ghost use Rattle.script_text.specs.Requests.{Desk, Rx, Wait as WaitRequest};
ghost use Rattle.script_text.specs.Requests.{Report as ReportRequest, Show as ShowRequest};
ghost use Rattle.script_text.specs.inner.Cursor.{view};
ghost use Rattle.script_text.specs.inner.Steps.{HasLane, wants_memory, HandsItem};
ghost use Rattle.script_text.specs.inner.Steps.{HandsItems, AnswersRequest, AnswersLine};

use crate::beginning::answer_begin;
use crate::fault::RunFault;
use crate::handed_item::HandedItem;
use crate::line::{Line, parse_line};
use crate::outcomes::{print_all_up, print_outcome};
use crate::print::print_egress;
use crate::sending::send;
use crate::sink::TextSink;
use bridge_core::{Core, Egress, Item};
use desk_calls::Reply;
use desk_edit::{Call, Refusal};
use desk_text::{ParseFault, print_reply, print_rows};
use rtp_codec::Address;
use std::alloc::{AllocError, Allocator};

/// The lane that a script's items go to: there is this one alone.
const LANE: u32 = 0;

/// Whether the reply is a refusal by out of memory.
fn wants_memory(reply: &Reply) -> bool
    ensures { result ≡ wants_memory reply.now }
{
    matches!(
        reply,
        Reply::Refused {
            why: Refusal::OutOfMemory,
            ..
        }
    )
}

/// Answers a call and appends the reply's line.
fn answer_call<A: Allocator + Copy>(
    alloc: A,
    core: &mut Core<A>,
    op: u8,
    call: Call<A>,
    out: &mut Vec<u8, A>,
) -> Result<(), AllocError>
    requires { out.old.items ≡ [] }
    ensures answer { OnOk result (AnswersRequest core.old (Desk op (asked_by call)) core.new out.new.items) }
    ensures lane { HasLane core.old → HasLane core.new }
{
    let reply = core.desk(alloc, op, call);
    if wants_memory(&reply) {
        return Err(AllocError);
    }
    print_reply(&reply, out)
}

/// Appends the lines of all that is sent.
fn print_all<A: Allocator + Copy>(
    egresses: &[Egress<A>],
    out: &mut Vec<u8, A>,
) -> Result<(), AllocError>
    ensures { OnOk result (out.new.items ≡ out.old.items ++ flat_map sent_text (map sent_of egresses.now)) }
{
    for egress in egresses {
        print_egress(egress, out)?;
    }
    Ok(())
}

/// Hands an item to the lane and appends the lines of what is sent.
pub(crate) fn answer_item<A: Allocator + Copy>(
    alloc: A,
    core: &mut Core<A>,
    item: &Item<A>,
    out: &mut Vec<u8, A>,
) -> Result<(), AllocError>
    requires lane { HasLane core.old }
    requires sized { is_sized (input_of item.now) ≡ true }
    ensures answer { OnOk result (HandsItem core.old (input_of item.now) core.new out.old.items out.new.items) }
    ensures lane { HasLane core.new }
{
    match core.item(alloc, LANE, item) {
        // The item numbers of a lane are never used up: a script has fewer lines.
        Err(_) => Err(AllocError),
        Ok(egresses) => print_all(&egresses, out),
    }
}

/// Hands items to the lane, one after another.
fn answer_items<A: Allocator + Copy>(
    alloc: A,
    core: &mut Core<A>,
    items: &[Item<A>],
    out: &mut Vec<u8, A>,
) -> Result<(), AllocError>
    requires lane { HasLane core.old }
    requires sized { list_all is_sized (map input_of items.now) ≡ true }
    ensures answer { OnOk result (HandsItems core.old (map input_of items.now) core.new out.old.items out.new.items) }
    ensures lane { HasLane core.new }
{
    for item in items {
        answer_item(alloc, core, item, out)?;
    }
    Ok(())
}

/// Takes a datagram in, and appends the lines of its outcome, of the datagrams sent back, and of what is sent for its
/// items.
fn answer_datagram<A: Allocator + Copy>(
    alloc: A,
    core: &mut Core<A>,
    moment: u64,
    from: Address,
    octets: &[u8],
    out: &mut Vec<u8, A>,
) -> Result<(), AllocError>
    requires lane { HasLane core.old }
    requires empty { out.old.items ≡ [] }
    ensures answer { OnOk result (AnswersRequest core.old (Rx moment from octets.now) core.new out.new.items) }
    ensures lane { HasLane core.new }
{
    let ingest = core.datagram(alloc, &from, moment, octets)?;
    print_outcome(&ingest.received.outcome, out)?;
    print_all_up(&ingest.up, out)?;
    answer_items(alloc, core, &ingest.items, out)
}

/// Lets time pass for a source, and appends the lines of the datagrams sent back, and of what is sent for the frames
/// that the wait freed.
fn answer_wait<A: Allocator + Copy>(
    alloc: A,
    core: &mut Core<A>,
    moment: u64,
    from: Address,
    ssrc: u32,
    out: &mut Vec<u8, A>,
) -> Result<(), AllocError>
    requires lane { HasLane core.old }
    requires empty { out.old.items ≡ [] }
    ensures answer { OnOk result (AnswersRequest core.old (WaitRequest moment from ssrc) core.new out.new.items) }
    ensures lane { HasLane core.new }
{
    let answer = core.wait(alloc, &from, ssrc, moment)?;
    print_all_up(&answer.up, out)?;
    answer_items(alloc, core, &answer.items, out)
}

/// Appends the lines of the receiver reports of a moment, and then of what goes out for the sender reports.
fn answer_report<A: Allocator + Copy>(
    alloc: A,
    core: &mut Core<A>,
    moment: u64,
    out: &mut Vec<u8, A>,
) -> Result<(), AllocError>
    requires lane { HasLane core.old }
    requires empty { out.old.items ≡ [] }
    ensures answer { OnOk result (AnswersRequest core.old (ReportRequest moment) core.new out.new.items) }
    ensures lane { HasLane core.new }
{
    let up = core.reports(alloc, moment)?;
    print_all_up(&up, out)?;
    answer_item(alloc, core, &Item::Report { moment }, out)
}

/// Appends the lines of the desk's rows.
fn answer_show<A: Allocator + Copy>(core: &Core<A>, out: &mut Vec<u8, A>) -> Result<(), AllocError>
    requires { out.old.items ≡ [] }
    ensures { OnOk result (AnswersRequest core.now ShowRequest core.now out.new.items) }
{
    print_rows(core.rows(), core.version(), out)
}

/// Carries out a line, and appends its output.
fn answer_request<A: Allocator + Copy>(
    alloc: A,
    core: &mut Core<A>,
    line: Line<A>,
    out: &mut Vec<u8, A>,
) -> Result<(), AllocError>
    requires lane { HasLane core.old }
    requires empty { out.old.items ≡ [] }
    ensures answer { OnOk result (AnswersRequest core.old (view line) core.new out.new.items) }
    ensures lane { HasLane core.new }
{
    match line {
        Line::Nothing => Ok(()),
        Line::Begin(named) => answer_begin(alloc, core, named, out),
        Line::Desk { op, call } => answer_call(alloc, core, op, call, out),
        Line::Frame(frame) => answer_item(alloc, core, &Item::Frame(frame), out),
        Line::Item(HandedItem { item }) => answer_item(alloc, core, &item, out),
        Line::Rx {
            moment,
            from,
            octets,
        } => answer_datagram(alloc, core, moment, from, &octets, out),
        Line::Wait { moment, from, ssrc } => answer_wait(alloc, core, moment, from, ssrc, out),
        Line::Tick { moment } => answer_item(alloc, core, &Item::Tick { moment }, out),
        Line::Report { moment } => answer_report(alloc, core, moment, out),
        Line::Show => answer_show(core, out),
    }
}

/// Answers the line of this number. All that it gives is sent at its end, so on out of memory nothing of it is sent.
pub(crate) fn answer<T: TextSink, A: Allocator + Copy>(
    alloc: A,
    core: &mut Core<A>,
    number: u64,
    line: &[u8],
    writer: &mut T,
) -> Result<(), RunFault>
    requires { HasLane core.old }
    ensures answer { AnswersLine core.old number line.now core.new (T.held writer.old) (T.held writer.new) result }
    ensures lane { HasLane core.new }
    ensures read { result ≢ Err RunFault.Read }
    ensures write { result ≡ Err RunFault.Write →
        T.may_fail ⊎ (T.may_starve × T.may_split) ⊎ ((first : T) × T.goes_on (2 ^ 32) first writer.new) }
{
    let line = match parse_line(alloc, number, line) {
        Err(ParseFault::OutOfMemory) => return Err(RunFault::OutOfMemory),
        Err(ParseFault::Line { word, fault }) => {
            return Err(RunFault::Script {
                line: number,
                word,
                fault,
            });
        }
        Ok(line) => line,
    };
    let mut out = Vec::new(alloc);
    match answer_request(alloc, core, line, &mut out) {
        Err(_) => Err(RunFault::OutOfMemory),
        Ok(()) => send(writer, &out),
    }
}

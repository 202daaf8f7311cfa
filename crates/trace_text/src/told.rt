//! What a speaker of a trace has told.

ghost use Rattle.std.specs.Prelude.{◌≡◌, ◌+◌, ◌-◌, ◌≤◌, ◌∷◌, ◌++◌, [], length, take, max, IfOk, OnOk};
ghost use Rattle.media_items.specs.Inputs.{input_of};
ghost use Rattle.desk_text.specs.HistoryText.{called_line};
ghost use Rattle.script_text.specs.Requests.{wait_line, report_line};
ghost use Rattle.script_text.specs.ItemLines.{item_text};
ghost use Rattle.trace_text.specs.TraceLines.{marked, first_line, calls_text, datagram_line, picture_line};

use crate::appending::{append_datagram_line, append_first, append_mark, append_picture};
use crate::speaker::Speaker;
use call_history::AcceptedCall;
use desk_text::print_called;
use media_items::Item;
use rtp_codec::Address;
use script_text::{append_item_line, append_report_line, append_wait_line};
use std::alloc::{AllocError, Allocator};

/// What a speaker has told: so many calls. What it did since, it did at the version that they lead to.
#[derive(Clone, Copy)]
pub struct Told {
    /// Who speaks.
    pub speaker: Speaker,
    /// How many calls it has told.
    pub calls: usize,
}

/// Appends the line of a call.
fn append_call<A: Allocator>(
    speaker: Speaker,
    made: &AcceptedCall<'_>,
    out: &mut Vec<u8, A>,
) -> Result<(), AllocError>
    ensures { OnOk result (out.new.items ≡ out.old.items ++ marked speaker (called_line made.now)) }
{
    append_mark(speaker, out)?;
    print_called(made, out)
}

/// Appends the lines of calls.
fn append_calls<A: Allocator>(
    speaker: Speaker,
    calls: &[AcceptedCall<'_>],
    out: &mut Vec<u8, A>,
) -> Result<(), AllocError>
    ensures { OnOk result (out.new.items ≡ out.old.items ++ calls_text speaker calls.now) }
{
    for made in calls {
        append_call(speaker, made, out)?;
    }
    Ok(())
}

/// Appends the first line of a speaker.
fn append_marked_first<A: Allocator>(
    speaker: Speaker,
    ssrc: u32,
    name: &[u8],
    out: &mut Vec<u8, A>,
) -> Result<(), AllocError>
    ensures { OnOk result (out.new.items ≡ out.old.items ++ marked speaker (first_line speaker ssrc name.now)) }
{
    append_mark(speaker, out)?;
    append_first(speaker, ssrc, name, out)
}

/// Appends the line of an item.
fn append_item<A: Allocator>(
    speaker: Speaker,
    item: &Item,
    out: &mut Vec<u8, A>,
) -> Result<(), AllocError>
    ensures { OnOk result (out.new.items ≡ out.old.items ++ marked speaker (item_text (input_of item.now))) }
{
    append_mark(speaker, out)?;
    append_item_line(item, out)
}

/// Appends the line of a datagram.
fn append_datagram<A: Allocator>(
    speaker: Speaker,
    moment: u64,
    from: Address,
    octets: &[u8],
    out: &mut Vec<u8, A>,
) -> Result<(), AllocError>
    ensures { OnOk result (out.new.items ≡ out.old.items ++ marked speaker (datagram_line moment from octets.now)) }
{
    append_mark(speaker, out)?;
    append_datagram_line(moment, from, octets, out)
}

/// Appends the line of a wait.
fn append_wait<A: Allocator>(
    speaker: Speaker,
    moment: u64,
    from: Address,
    ssrc: u32,
    out: &mut Vec<u8, A>,
) -> Result<(), AllocError>
    ensures { OnOk result (out.new.items ≡ out.old.items ++ marked speaker (wait_line moment from ssrc ++ 10 ∷ [])) }
{
    append_mark(speaker, out)?;
    append_wait_line(moment, from, ssrc, out)
}

/// Appends the line of reports.
fn append_report<A: Allocator>(
    speaker: Speaker,
    moment: u64,
    out: &mut Vec<u8, A>,
) -> Result<(), AllocError>
    ensures { OnOk result (out.new.items ≡ out.old.items ++ marked speaker (report_line moment ++ 10 ∷ [])) }
{
    append_mark(speaker, out)?;
    append_report_line(moment, out)
}

/// Appends the comment on a picture.
fn append_marked_picture<A: Allocator>(
    speaker: Speaker,
    to: Address,
    ssrc: u32,
    out: &mut Vec<u8, A>,
) -> Result<(), AllocError>
    ensures { OnOk result (out.new.items ≡ out.old.items ++ marked speaker (picture_line to ssrc)) }
{
    append_mark(speaker, out)?;
    append_picture(to, ssrc, out)
}

impl Told {
    /// Appends the first line of a speaker: the bridge's SSRC, and its CNAME, which has one word. Here as below, an
    /// `Err`, out of memory, may leave a part of the text.
    pub fn begin<A: Allocator>(
        speaker: Speaker,
        ssrc: u32,
        name: &[u8],
        out: &mut Vec<u8, A>,
    ) -> Result<Self, AllocError>
        ensures told { IfOk result (λ told. told ≡ record { speaker = speaker; calls = 0 }) }
        ensures text { OnOk result (out.new.items
            ≡ out.old.items ++ marked speaker (first_line speaker ssrc name.now)) }
    {
        append_marked_first(speaker, ssrc, name, out)?;
        Ok(Self { speaker, calls: 0 })
    }

    /// Tells the calls that lead to this version, as far as it has not told them. `calls`: those behind the ones that
    /// it told.
    pub fn reach<A: Allocator>(
        &mut self,
        calls: &[AcceptedCall<'_>],
        version: usize,
        out: &mut Vec<u8, A>,
    ) -> Result<(), AllocError>
        requires enough { version ≤ self.old.calls + length calls.now }
        ensures told { OnOk result (self.new ≡ record self.old { calls = max self.old.calls version }) }
        ensures text { OnOk result (out.new.items ≡ out.old.items
            ++ calls_text self.old.speaker (take (version - self.old.calls) calls.now)) }
    {
        let more = version.saturating_sub(self.calls);
        append_calls(self.speaker, &calls[..more], out)?;
        self.calls = self.calls.max(version);
        Ok(())
    }

    /// Tells an item that the lane handled, after the calls that lead to its version.
    pub fn tell_item<A: Allocator>(
        &self,
        item: &Item,
        out: &mut Vec<u8, A>,
    ) -> Result<(), AllocError>
        ensures text { OnOk result (out.new.items ≡ out.old.items
            ++ marked self.now.speaker (item_text (input_of item.now))) }
    {
        append_item(self.speaker, item, out)
    }

    /// Tells a datagram that was taken in. One without octets has a comment.
    pub fn tell_datagram<A: Allocator>(
        &self,
        moment: u64,
        from: Address,
        octets: &[u8],
        out: &mut Vec<u8, A>,
    ) -> Result<(), AllocError>
        ensures text { OnOk result (out.new.items ≡ out.old.items
            ++ marked self.now.speaker (datagram_line moment from octets.now)) }
    {
        append_datagram(self.speaker, moment, from, octets, out)
    }

    /// Tells that time passed for a video source, until a moment.
    pub fn tell_wait<A: Allocator>(
        &self,
        moment: u64,
        from: Address,
        ssrc: u32,
        out: &mut Vec<u8, A>,
    ) -> Result<(), AllocError>
        ensures text { OnOk result (out.new.items ≡ out.old.items
            ++ marked self.now.speaker (wait_line moment from ssrc ++ 10 ∷ [])) }
    {
        append_wait(self.speaker, moment, from, ssrc, out)
    }

    /// Tells that the reports were made.
    pub fn tell_report<A: Allocator>(
        &self,
        moment: u64,
        out: &mut Vec<u8, A>,
    ) -> Result<(), AllocError>
        ensures text { OnOk result (out.new.items ≡ out.old.items
            ++ marked self.now.speaker (report_line moment ++ 10 ∷ [])) }
    {
        append_report(self.speaker, moment, out)
    }

    /// Tells, as a comment, that the bridge asked a sender for a picture of its own accord.
    pub fn tell_picture<A: Allocator>(
        &self,
        to: Address,
        ssrc: u32,
        out: &mut Vec<u8, A>,
    ) -> Result<(), AllocError>
        ensures text { OnOk result (out.new.items ≡ out.old.items ++ marked self.now.speaker (picture_line to ssrc)) }
    {
        append_marked_picture(self.speaker, to, ssrc, out)
    }
}

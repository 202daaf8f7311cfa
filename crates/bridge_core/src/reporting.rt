//! A lane's sender reports.

ghost use Rattle.std.specs.Prelude.{◌≡◌, ◌++◌, true, List, map, IfOk, OnOk};
ghost use Rattle.std.specs.List.{flat_map};
ghost use Rattle.ingress.specs.Names.{is_name};
ghost use Rattle.media_items.specs.OwnStreams.{is_mine};
ghost use Rattle.bridge_core.specs.Sent.{sent_of};
ghost use Rattle.bridge_core.specs.Lanes.{Visit, routed, video_counts, tells};
ghost use Rattle.bridge_core.specs.inner.Parts.{LeftBy};
ghost use Rattle.bridge_core.specs.inner.Visits.{asker_of};
ghost use Rattle.bridge_core.specs.inner.Control.{report_visit, mix_report};
ghost use Rattle.bridge_core.specs.inner.Control.{slot_report, slot_reports, member_reports};

use crate::egress::Egress;
use crate::parts::LaneParts;
use crate::visit::LaneVisit;
use desk_rows::{Member, Slot};
use forward_rewrite::Counts;
use receiver_feedback::sender_report;
use std::alloc::{AllocError, Allocator, Global};
use topology::slots_to;

/// Sender reports that are due.
#[derive(Clone, Copy)]
pub struct Reporting<'a, A: Allocator + Copy = Global> {
    /// The parts whose streams are reported.
    pub parts: &'a LaneParts<A>,
    /// The item's visit to the desk.
    pub visit: LaneVisit<'a, A>,
    /// The moment, in nanoseconds since 1970.
    pub moment: u64,
}

impl<A: Allocator + Copy> Reporting<'_, A> {
    /// What a report tells of a slot's stream, if it is the lane's and has begun.
    fn video_counts(&self, ssrc: u32) -> Option<Counts>
        ensures { (before : List Visit) → is_mine self.now.visit.place.lane self.now.visit.place.lanes ssrc ≡ true
            → LeftBy self.now.visit.place self.now.parts.now before
            → result ≡ video_counts ssrc (routed ssrc before) }
    {
        match self.parts.video.stream(ssrc) {
            Some(stream) => stream.counts(),
            None => None,
        }
    }

    /// Appends a stream's sender report to a member, if it has begun.
    fn tell(
        &self,
        alloc: A,
        out: &mut Vec<Egress<A>, A>,
        to: &Member,
        ssrc: u32,
        counts: Option<Counts>,
    ) -> Result<(), AllocError>
        requires { is_name self.now.visit.settings.now.cname ≡ true }
        ensures { OnOk result
            (map sent_of out.new.items
            ≡ map sent_of out.old.items
            ++ tells (asker_of self.now.visit) (report_visit self.now) self.now.moment to.now ssrc counts) }
    {
        let Some(counts) = counts else {
            return Ok(());
        };
        let settings = self.visit.settings;
        let bytes = sender_report(alloc, &counts, self.moment, &settings.cname)?;
        out.push(Egress::Control {
            version: self.visit.stamp.version,
            item: self.visit.stamp.item,
            to: to.address,
            ssrc,
            bytes,
        })?;
        Ok(())
    }

    /// Appends the sender report of a member's mix, if it is the lane's and has begun.
    fn tell_mix(&self, alloc: A, out: &mut Vec<Egress<A>, A>, to: &Member) -> Result<(), AllocError>
        requires { is_name self.now.visit.settings.now.cname ≡ true }
        ensures { (before : List Visit) → LeftBy self.now.visit.place self.now.parts.now before
            → OnOk result
            (map sent_of out.new.items ≡ map sent_of out.old.items ++ mix_report self.now before to.now) }
    {
        let ssrc = to.out_audio;
        if !self.visit.place.is_mine(ssrc) {
            return Ok(());
        }
        self.tell(alloc, out, to, ssrc, self.parts.audio.counts(ssrc))
    }

    /// Appends the sender report of a slot's stream, if it is the lane's and has begun.
    fn tell_slot(
        &self,
        alloc: A,
        out: &mut Vec<Egress<A>, A>,
        to: &Member,
        slot: &Slot,
    ) -> Result<(), AllocError>
        requires { is_name self.now.visit.settings.now.cname ≡ true }
        ensures { (before : List Visit) → LeftBy self.now.visit.place self.now.parts.now before
            → OnOk result
            (map sent_of out.new.items ≡ map sent_of out.old.items ++ slot_report self.now before to.now slot.now) }
    {
        let ssrc = slot.out_ssrc;
        if !self.visit.place.is_mine(ssrc) {
            return Ok(());
        }
        self.tell(alloc, out, to, ssrc, self.video_counts(ssrc))
    }

    /// Appends the sender reports of slots' streams.
    fn tell_slots(
        &self,
        alloc: A,
        out: &mut Vec<Egress<A>, A>,
        to: &Member,
        slots: &[Slot],
    ) -> Result<(), AllocError>
        requires { is_name self.now.visit.settings.now.cname ≡ true }
        ensures { (before : List Visit) → LeftBy self.now.visit.place self.now.parts.now before
            → OnOk result
            (map sent_of out.new.items ≡ map sent_of out.old.items ++ slot_reports self.now before to.now slots.now) }
    {
        for slot in slots {
            self.tell_slot(alloc, out, to, slot)?;
        }
        Ok(())
    }

    /// Appends the sender reports to a member: of its mix, then of its slots' streams by index.
    fn tell_member(
        &self,
        alloc: A,
        out: &mut Vec<Egress<A>, A>,
        to: &Member,
    ) -> Result<(), AllocError>
        requires { is_name self.now.visit.settings.now.cname ≡ true }
        ensures { (before : List Visit) → LeftBy self.now.visit.place self.now.parts.now before
            → OnOk result
            (map sent_of out.new.items ≡ map sent_of out.old.items ++ member_reports self.now before to.now) }
    {
        self.tell_mix(alloc, out, to)?;
        let slots = slots_to(self.visit.rows, to.member);
        self.tell_slots(alloc, out, to, slots)
    }

    /// The sender reports of the lane's streams that have begun: to each member, by place, that of its mix and then
    /// those of its slots' streams by index (RFC 3550 section 6.4.1).
    pub fn all(&self, alloc: A) -> Result<Vec<Egress<A>, A>, AllocError>
        requires { is_name self.now.visit.settings.now.cname ≡ true }
        ensures { (before : List Visit) → LeftBy self.now.visit.place self.now.parts.now before
            → IfOk result (λ sent.
            map sent_of sent.items ≡ flat_map (member_reports self.now before) self.now.visit.rows.now.members) }
    {
        let mut out = Vec::new(alloc);
        let rows = self.visit.rows;
        for member in rows.members() {
            self.tell_member(alloc, &mut out, member)?;
        }
        Ok(out)
    }
}

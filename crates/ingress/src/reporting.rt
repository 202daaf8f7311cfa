//! Makes receiver reports.

ghost use Rattle.std.specs.Prelude.{◌≡◌, ◌++◌, true, List, map, filter_map, IfOk, OnOk, IfSome};
ghost use Rattle.std.specs.List.{AllByRecursion};
ghost use Rattle.rtcp_codec.specs.Report.{FitsLost};
ghost use Rattle.desk_rows.specs.Desk.{good};
ghost use Rattle.desk_rows.specs.Getters.{source_in};
ghost use Rattle.topology.specs.Choice.{sources_of};
ghost use Rattle.ingress.specs.Ingested.{datagram_of};
ghost use Rattle.ingress.specs.Sources.{Known as KnownOf};
ghost use Rattle.ingress.specs.Reported.{block_from, blocks_of, report_to, told_to_members, renewed_on, all_renewed};
ghost use Rattle.ingress.specs.inner.Holding.{Holds};

use crate::ingress::Ingress;
use crate::known::{Known, key_of};
use crate::settings::Settings;
use desk_rows::{Kind, Member, Row, Rows, Source};
use rtcp_codec::ReportBlock;
use rtp_codec::Address;
use sender_feedback::receiver_report;
use std::alloc::{AllocError, Allocator};
use topology::member_at;

/// The sources in these rows, in their order.
fn sources_in<A: Allocator>(alloc: A, these: &[Row]) -> Result<Vec<Source, A>, AllocError>
    ensures { IfOk result (λ v. v.items ≡ filter_map source_in these.now) }
{
    these
        .iter()
        .filter_map(|row| row.as_source())
        .collect(alloc)
}

/// The sources of the desk, by SSRC.
// Each member passes over this whole list, two million comparisons on a full desk, at most once a second. A table by
// member would have to be kept up at each edit of a source.
pub(crate) fn sources_of<A: Allocator + Copy>(
    alloc: A,
    rows: &Rows<A>,
) -> Result<Vec<Source, A>, AllocError>
    ensures sources { IfOk result (λ v. v.items ≡ sources_of rows.now) }
    ensures good { good rows.now ≡ true }
{
    sources_in(alloc, rows.others_of(Kind::Source))
}

impl<A: Allocator + Copy> Known<A> {
    /// The report block of a source, if it is this member's, known at the member's address, and past probation.
    fn block_from(&self, member: &Member, source: &Source, moment: u64) -> Option<ReportBlock>
        ensures block { (known : List KnownOf) → Holds self.now known
            → result ≡ block_from moment known member.now source.now }
        ensures fits { IfSome result (λ b. FitsLost b.lost) }
    {
        if source.member != member.member {
            return None;
        }
        match self.at(&key_of(&member.address, source.ssrc)) {
            None => None,
            Some(kept) => kept.block(source.ssrc, moment),
        }
    }

    /// The blocks of the member's sources among these, in their order.
    fn blocks_of(
        &self,
        alloc: A,
        member: &Member,
        sources: &[Source],
        moment: u64,
    ) -> Result<Vec<ReportBlock, A>, AllocError>
        ensures blocks { (known : List KnownOf) → Holds self.now known
            → IfOk result (λ v. v.items ≡ blocks_of sources.now moment known member.now) }
        ensures fits { IfOk result (λ v. AllByRecursion (λ b. FitsLost b.lost) v.items) }
    {
        let mut blocks = Vec::new(alloc);
        for source in sources {
            if let Some(block) = self.block_from(member, source, moment) {
                blocks.push(block)?;
            }
        }
        Ok(blocks)
    }

    /// Begins new intervals for the sources that are known at their members' addresses and past probation.
    pub(crate) fn renew_all(&mut self, rows: &Rows<A>, sources: &[Source])
        ensures { (known : List KnownOf) → Holds self.old known
            → Holds self.new (all_renewed rows.now known sources.now) }
    {
        for source in sources {
            self.renew_on(rows, source);
        }
    }

    /// Begins a new interval for a source, if it is known at its member's address and past probation.
    fn renew_on(&mut self, rows: &Rows<A>, source: &Source)
        ensures { (known : List KnownOf) → Holds self.old known
            → Holds self.new (renewed_on rows.now known source.now) }
    {
        match member_at(rows, source.member) {
            None => {}
            Some(member) => self.renew(&member.address, source.ssrc),
        }
    }
}

impl<A: Allocator + Copy> Ingress<A> {
    /// Appends the report on a member's own sources, if there is a block.
    fn put_report(
        &self,
        alloc: A,
        up: &mut Vec<(Address, Vec<u8, A>), A>,
        member: &Member,
        sources: &[Source],
        moment: u64,
    ) -> Result<(), AllocError>
        ensures { (known : List KnownOf) → Holds self.now.entries known
            → OnOk result (map datagram_of up.new.items
            ≡ map datagram_of up.old.items
            ++ report_to self.now.asker member.now.address (blocks_of sources.now moment known member.now)) }
    {
        let blocks = self.known.blocks_of(alloc, member, sources, moment)?;
        if blocks.is_empty() {
            return Ok(());
        }
        let Settings { bridge_ssrc, cname } = &self.settings;
        let octets = receiver_report(alloc, *bridge_ssrc, &blocks, cname)?;
        up.push((member.address, octets))?;
        Ok(())
    }

    /// The reports to the members on their own sources.
    pub(crate) fn told_to(
        &self,
        alloc: A,
        members: &[Member],
        sources: &[Source],
        moment: u64,
    ) -> Result<Vec<(Address, Vec<u8, A>), A>, AllocError>
        ensures { (known : List KnownOf) → Holds self.now.entries known
            → IfOk result
            (λ up. map datagram_of up.items ≡ told_to_members self.now.asker sources.now moment known members.now) }
    {
        let mut up = Vec::new(alloc);
        for member in members {
            self.put_report(alloc, &mut up, member, sources, moment)?;
        }
        Ok(up)
    }
}

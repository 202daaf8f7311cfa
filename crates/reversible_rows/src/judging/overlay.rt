//! The desk that an edit would lead to, without making it, and whether what comes into it is sound.

ghost use Rattle.std.specs.Prelude.{◌≡◌, ◌≤◌, not, count_by, nat_eq, nat_le};
ghost use Rattle.std.specs.List.{list_any, list_all};
ghost use Rattle.desk_rows.specs.declared.row.Row.TheVariants.{Member as MemberRow};
ghost use Rattle.desk_rows.specs.Few.{listed};
ghost use Rattle.desk_rows.specs.Limits.{gain_limit, room_audio_limit};
ghost use Rattle.desk_rows.specs.Kinds.{is_of};
ghost use Rattle.desk_rows.specs.Row.{has_key};
ghost use Rattle.desk_rows.specs.Desk.{rows_of, is_bridges, is_within_limits, is_named_there, is_made_once};
ghost use Rattle.desk_rows.specs.Desk.{is_audio_in, has_few_audio, obeys};
ghost use Rattle.desk_rows.specs.Edit.{ins};
ghost use Rattle.desk_rows.specs.Exchange.{exchanged};
ghost use Rattle.desk_rows.specs.Keyed.{IsKeyed};
ghost use Rattle.reversible_rows.specs.inner.Tests.{passes};
ghost use Rattle.desk_rows.specs.inner.judging.Judged.{is_sound_beside, all_come};

use crate::judging::changes::{count_coming, count_going};
use crate::judging::counting::{Test, count_members, count_rows};
use crate::judging::exchange::RowExchange;
use desk_rows::{
    Claim, Few, Key, Kind, Look, MAX_GAINS, MAX_MEMBERS, MAX_ROOM_AUDIO, MAX_ROOMS, MAX_SLOTS,
    MAX_SOURCES, Member, Row, all_suit, are_together, count_audio,
};
use std::alloc::Allocator;

/// A desk and an edit of it. No row comes under the key of another.
#[derive(Drop)]
pub(crate) struct Overlay<'a, A: Allocator + Copy> {
    pub(crate) of: RowExchange<'a, A>,
    ghost keyed: { IsKeyed (exchanged of.rows.now of.edit.now) },
}

impl<A: Allocator + Copy> Look for Overlay<'_, A> {
    ghost desk = { λ x. exchanged x.of.rows.now x.of.edit.now };

    fn look(&self, key: Key) -> Option<Row> {
        if let Some(row) = self.of.coming(key) {
            return Some(row);
        }
        if self.of.takes(key) {
            return None;
        }
        self.of.rows.find(&key)
    }
}

impl<A: Allocator + Copy> Overlay<'_, A> {
    /// Whether the kind keeps its limit. Its rows and those that come are no more than the limit and those that go.
    #[tactic(auto, using(crate::proofs::OverlayLemmas::most_is, desk_rows::proofs::ExchangeLemmas::rows_few))]
    fn is_within(&self, kind: Kind, limit: usize) -> bool
        requires { limit ≤ gain_limit }
        ensures { result
            ≡ nat_le (count_by (is_of kind) (rows_of (exchanged self.now.of.rows.now self.now.of.edit.now))) limit }
    {
        let test = Test::IsOf(kind);
        self.of.rows.count(kind) + count_coming(self.of.edit, &test)
            <= limit + count_going(self.of.edit, &test)
    }

    pub(crate) fn is_within_limits(&self) -> bool
        ensures { result ≡ is_within_limits (exchanged self.now.of.rows.now self.now.of.edit.now) }
    {
        self.is_within(Kind::Room, MAX_ROOMS)
            && (self.is_within(Kind::Member, MAX_MEMBERS)
                && (self.is_within(Kind::Source, MAX_SOURCES)
                    && (self.is_within(Kind::Slot, MAX_SLOTS)
                        && self.is_within(Kind::Gain, MAX_GAINS))))
    }

    #[tactic(auto, using(desk_rows::proofs::Finding::is_found))]
    fn has(&self, key: Key) -> bool
        ensures { result ≡ list_any (has_key key) (rows_of (exchanged self.now.of.rows.now self.now.of.edit.now)) }
    {
        self.look(key).is_some()
    }

    fn is_named_there(&self, row: &Row) -> bool
        ensures { result ≡ is_named_there (exchanged self.now.of.rows.now self.now.of.edit.now) row.now }
    {
        match row.names() {
            Few::Nothing => true,
            Few::One(key) => self.has(key),
            Few::Two(key, other) => self.has(key) && self.has(other),
        }
    }

    #[tactic(auto, using(desk_rows::proofs::JudgingLemmas::bridge_same))]
    fn is_bridges(&self, claim: &Claim) -> bool
        ensures { result ≡ is_bridges (exchanged self.now.of.rows.now self.now.of.edit.now) claim.now }
    {
        match claim {
            Claim::Ssrc(ssrc) => *ssrc == self.of.rows.bridge_ssrc(),
            Claim::Key(_) | Claim::Address(_) | Claim::Place { .. } => false,
        }
    }

    /// Whether exactly one row makes the claim afterwards.
    fn has_one(&self, claim: Claim) -> bool
        ensures { result
            ≡ nat_eq (count_by (passes (Test.Makes claim))
            (rows_of (exchanged self.now.of.rows.now self.now.of.edit.now))) 1 }
    {
        let test = Test::Makes(claim);
        let before = count_members(self.of.rows.members(), &test)
            + count_rows(self.of.rows.others(), &test);
        before + count_coming(self.of.edit, &test) == 1 + count_going(self.of.edit, &test)
    }

    fn is_made_once(&self, claim: Claim) -> bool
        ensures { result ≡ is_made_once (exchanged self.now.of.rows.now self.now.of.edit.now) claim }
    {
        self.has_one(claim) && !self.is_bridges(&claim)
    }

    fn are_made_once(&self, claims: Few<Claim>) -> bool
        ensures { result
            ≡ list_all (is_made_once (exchanged self.now.of.rows.now self.now.of.edit.now)) (listed claims) }
    {
        match claims {
            Few::Nothing => true,
            Few::One(claim) => self.is_made_once(claim),
            Few::Two(claim, other) => self.is_made_once(claim) && self.is_made_once(other),
        }
    }

    /// Whether the room has more audio sources than the limit afterwards.
    #[tactic(auto, using(crate::proofs::OverlayLemmas::over_is))]
    fn is_room_full(&self, room: u32) -> bool
        ensures { result
            ≡ not (nat_le
            (count_by (is_audio_in (exchanged self.now.of.rows.now self.now.of.edit.now) room)
            (exchanged self.now.of.rows.now self.now.of.edit.now).others) room_audio_limit) }
    {
        let coming = count_audio(self, self.of.edit.put_others(), room)
            + count_audio(self, self.of.edit.new(), room);
        let going = count_audio(self, self.of.edit.taken_others(), room)
            + count_audio(self, self.of.edit.old(), room);
        count_audio(self, self.of.rows.others(), room) + coming > MAX_ROOM_AUDIO + going
    }

    fn has_few_audio(&self, row: &Row) -> bool
        ensures { result ≡ has_few_audio (exchanged self.now.of.rows.now self.now.of.edit.now) row.now }
    {
        match row {
            Row::Room(room) => !self.is_room_full(room.room),
            Row::Member(_) | Row::Source(_) | Row::Slot(_) | Row::Sub(_) => true,
            Row::Mute(_) | Row::Gain(_) | Row::Pin(_) | Row::Floor(_) => true,
        }
    }

    pub(crate) fn obeys(&self, row: &Row) -> bool
        ensures { result ≡ obeys (exchanged self.now.of.rows.now self.now.of.edit.now) row.now }
    {
        let by_itself = row.is_in_range() && self.has_few_audio(row);
        by_itself && (all_suit(self, row) && are_together(self, row))
    }

    #[tactic(auto, unfolding(desk_rows::specs::inner::judging::Judged::is_sound_beside))]
    fn is_sound(&self, row: &Row) -> bool
        ensures { result ≡ is_sound_beside (exchanged self.now.of.rows.now self.now.of.edit.now) row.now }
    {
        self.is_named_there(row) && (self.are_made_once(row.claims()) && self.obeys(row))
    }

    fn all_members_come(&self) -> bool
        ensures { result
            ≡ list_all
            (λ p. is_sound_beside (exchanged self.now.of.rows.now self.now.of.edit.now)
            (MemberRow p.row)) self.now.of.edit.now.put.members }
    {
        self.of
            .edit
            .put_members()
            .iter()
            .all(|one| self.is_sound(&Row::Member(one.row)))
    }

    fn are_sound(&self, rows: &[Row]) -> bool
        ensures { result ≡ list_all (is_sound_beside (exchanged self.now.of.rows.now self.now.of.edit.now)) rows.now }
    {
        rows.iter().all(|row| self.is_sound(row))
    }

    #[tactic(auto, using(desk_rows::proofs::Counts::all_of_both))]
    fn all_others_come(&self) -> bool
        ensures { result
            ≡ list_all (is_sound_beside (exchanged self.now.of.rows.now self.now.of.edit.now))
            (ins self.now.of.edit.now) }
    {
        self.are_sound(self.of.edit.new()) && self.are_sound(self.of.edit.put_others())
    }

    /// Whether each row that comes is sound.
    #[tactic(auto, using(desk_rows::proofs::Counts::two_alls))]
    pub(crate) fn all_come(&self) -> bool
        ensures { result
            ≡ all_come (is_sound_beside (exchanged self.now.of.rows.now self.now.of.edit.now)) self.now.of.edit.now }
    {
        self.all_members_come() && self.all_others_come()
    }
}

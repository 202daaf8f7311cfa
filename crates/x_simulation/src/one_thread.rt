//! The model: a bridge of one thread, which takes the same datagrams, moments and lines.

ghost use Rattle.std.specs.Prelude.{◌≡◌, true};
ghost use Rattle.ingress.specs.Names.{is_name};

use crate::act::Plan;
use crate::datagram::Datagram;
use crate::difference::Difference;
use crate::lane_model::LaneModel;
use crate::left::{FrontLists, with_datagram, with_moment};
use crate::plain_desk::PlainDesk;
use bridge_core::{Core, Ingress, Item, Settings, WaitAnswer};
use bytes::Bytes;
use desk_rows::{Kind, Media, Row};
use media_front::pli_octets;
use picture_requests::{PictureRequests, VideoSource};
use rate_limiter::RateLimiter;
use std::alloc::{AllocError, Global};
use std::mem;
use topology::member_at;
use udp_wire::{ReportTimer, Ticks};

/// The bridge's SSRC.
pub const SSRC: u32 = 77;
/// How many seats there are.
pub const SEATS: u32 = 2;
/// When bridges begin, in nanoseconds since 1970.
pub const START: u64 = 1_700_000_000_000_000_000;
/// The most ticks that are made up for.
const MOST_TICKS: u32 = 50;

/// How the bridge signs.
pub fn settings() -> Settings
    ensures { is_name result.cname ≡ true }
{
    Settings {
        bridge_ssrc: SSRC,
        cname: Bytes::from_static(b"simulation"),
    }
}

/// When reports are due.
pub fn report_timer(plan: Plan) -> ReportTimer {
    ReportTimer {
        every: plan.reports,
        last: START,
    }
}

/// Lanes that are given their first item.
fn begun_lanes(alloc: Global, count: u32) -> Result<Vec<LaneModel>, Difference> {
    let mut lanes = Vec::new(alloc);
    for lane in 0..count {
        let mut own = LaneModel::new(alloc, lane);
        own.give(Item::Renew)?;
        lanes.push(own)?;
    }
    Ok(lanes)
}

/// What takes datagrams, and nothing has come yet.
fn begun_front(alloc: Global) -> Result<(Ingress, RateLimiter), Difference> {
    let limiter = RateLimiter::new(alloc)?;
    let ingress = Ingress::new(alloc, settings())?;
    Ok((ingress, limiter))
}

/// A bridge of one thread.
#[derive(Drop)]
pub struct OneThread {
    pub alloc: Global,
    pub desk: PlainDesk,
    pub lanes: Vec<LaneModel>,
    /// How many seats are free.
    pub seats: u64,
    /// How many connections were refused a seat.
    pub busy: u64,
    /// Whether an operator has stopped the bridge.
    pub is_stopped: bool,
    pub ingress: Ingress,
    pub limiter: RateLimiter,
    pub pictures: PictureRequests,
    /// The version of the desk that `pictures` has seen.
    version: u64,
    /// How many octets pass a PLI on.
    pub cost: u64,
    ticks: Ticks,
    pub ticked: u64,
    reports: ReportTimer,
    /// What the front is to try since the script looked last.
    pub tried: Vec<Datagram>,
    /// What its front leaves behind.
    pub left: FrontLists,
}

impl OneThread {
    /// A bridge without rooms.
    pub fn new(alloc: Global, plan: Plan) -> Result<Self, Difference> {
        let cost = pli_octets(alloc, &settings())?;
        let Ok(core) = Core::new(alloc, plan.lanes, settings()) else {
            return Err(Difference::Begin);
        };
        let lanes = begun_lanes(alloc, plan.lanes)?;
        let (ingress, limiter) = begun_front(alloc)?;
        Ok(Self {
            alloc,
            desk: PlainDesk { core, accepted: 0 },
            lanes,
            seats: u64::from(SEATS),
            busy: 0,
            is_stopped: false,
            ingress,
            limiter,
            pictures: PictureRequests::new(alloc),
            version: 0,
            cost,
            ticks: Ticks {
                start: START,
                had: 0,
            },
            ticked: START,
            reports: report_timer(plan),
            tried: Vec::new(alloc),
            left: FrontLists::new(),
        })
    }

    /// Lets a lane handle items up to the first one that gives datagrams, if there is one. Returns how many that
    /// gives.
    pub fn advance(&mut self, lane: usize) -> Result<u64, Difference> {
        let alloc = self.alloc;
        match self.lanes.get_mut(lane) {
            Some(own) => own.advance(alloc, &mut self.desk.core),
            None => Ok(0),
        }
    }

    /// How many datagrams a lane has given but for the last ones, which are so many, and those of them that it is to
    /// try since the last call.
    pub fn sent(&mut self, lane: usize, left: u64) -> Result<(u64, Vec<Datagram>), Difference> {
        let alloc = self.alloc;
        match self.lanes.get_mut(lane) {
            Some(own) => {
                let tried = own.take_tried(alloc, left as usize)?;
                Ok((own.datagrams.saturating_sub(left), tried))
            }
            None => Err(Difference::Fault(lane)),
        }
    }

    /// How often operators have stopped the bridge.
    pub fn stops(&self) -> u64 {
        u64::from(self.is_stopped)
    }

    /// What the front is to try since the last call.
    pub fn take_tried(&mut self) -> Vec<Datagram> {
        let none = Vec::new(self.alloc);
        let tried = mem::replace(&mut self.tried, none);
        for datagram in &tried {
            self.left.tried = with_datagram(self.left.tried, datagram);
        }
        tried
    }

    /// Gives every lane an item.
    pub fn give(&mut self, item: &Item) -> Result<(), AllocError> {
        let alloc = self.alloc;
        for lane in &mut self.lanes {
            lane.give(item.copy(alloc)?)?;
        }
        Ok(())
    }

    /// The moment at this place of those that the watch told, which is noted.
    fn look(&mut self, told: &[u64], at: usize) -> Result<u64, Difference> {
        let Some(moment) = told.get(at) else {
            return Err(Difference::Round);
        };
        self.left.told = with_moment(self.left.told, *moment);
        Ok(*moment)
    }

    /// Takes in what was read in a round, and does what is due, at the moments that the watch told in this order: one
    /// before the front slept, one for each datagram, one for what is due, and one before lanes are woken.
    pub fn round(&mut self, came: &[Datagram], told: &[u64]) -> Result<(), Difference> {
        if told.len() != came.len().saturating_add(3) {
            return Err(Difference::Round);
        }
        self.look(told, 0)?;
        let mut at: usize = 1;
        for datagram in came {
            let moment = self.look(told, at)?;
            at = at.saturating_add(1);
            self.left.read = with_datagram(self.left.read, datagram);
            self.datagram(datagram, moment)?;
        }
        let now = self.look(told, at)?;
        self.take_due(now)?;
        self.look(told, at.saturating_add(1))?;
        for lane in &mut self.lanes {
            lane.wake();
        }
        Ok(())
    }

    /// Passes what was read in a round behind the end of the desk: nothing takes it in. The watch told a moment before
    /// the front slept, one for the ticks, and one before lanes are woken.
    pub fn pass(&mut self, came: &[Datagram], told: &[u64]) -> Result<(), Difference> {
        for datagram in came {
            self.left.read = with_datagram(self.left.read, datagram);
        }
        if told.len() != 3 {
            return Err(Difference::Round);
        }
        for at in 0..3usize {
            self.look(told, at)?;
        }
        Ok(())
    }

    /// Gives the ticks that are due. Returns whether any was.
    pub fn tick(&mut self, now: u64) -> Result<bool, AllocError> {
        self.ticked = now;
        let is_due = self.ticks.is_due(now);
        for _ in 0..MOST_TICKS {
            let Some(moment) = self.ticks.due(now) else {
                break;
            };
            self.give(&Item::Tick { moment })?;
        }
        Ok(is_due)
    }

    /// Does what is due at a moment.
    fn take_due(&mut self, now: u64) -> Result<(), AllocError> {
        if self.tick(now)? {
            self.wait_all(now)?;
        }
        let version = self.desk.core.version();
        if version != self.version {
            self.pictures.see(self.alloc, self.desk.core.rows(), now)?;
            self.version = version;
        }
        for source in self.pictures.due(self.alloc, now)? {
            self.ask_picture(&source, now)?;
        }
        if self.reports.due(now) {
            self.report(now)?;
        }
        Ok(())
    }

    /// Makes the reports.
    fn report(&mut self, now: u64) -> Result<(), AllocError> {
        let rows = self.desk.core.rows();
        for (to, octets) in self.ingress.reports(self.alloc, rows, now)? {
            self.tried.push(Datagram::new(to, octets))?;
        }
        self.give(&Item::Report { moment: now })
    }

    /// Lets time pass for each video source of the desk.
    fn wait_all(&mut self, now: u64) -> Result<(), AllocError> {
        for source in self.videos()? {
            let rows = self.desk.core.rows();
            let from = source.address();
            let answer = self
                .ingress
                .wait(self.alloc, rows, &from, source.ssrc, now)?;
            let WaitAnswer { up, items } = answer;
            self.handle(&from, now, up, items)?;
        }
        Ok(())
    }

    /// The video sources of the desk, by SSRC.
    fn videos(&self) -> Result<Vec<VideoSource>, AllocError> {
        let rows = self.desk.core.rows();
        let mut videos = Vec::new(self.alloc);
        for row in rows.others_of(Kind::Source) {
            let Row::Source(source) = row else {
                continue;
            };
            if let Some(member) = member_at(rows, source.member)
                && source.media.is_same(Media::Video)
            {
                videos.push(VideoSource::at(source.ssrc, &member.address))?;
            }
        }
        Ok(videos)
    }
}

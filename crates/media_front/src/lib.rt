//! The front of a bridge whose lanes run on threads: it turns datagrams and moments into items, and gives every lane
//! each item. Lanes share it. The lanes send by sinks of their own.
//!
//! Begin with [`LaneFeed::start`], which starts a lane for each reader of the published desk, and with
//! [`MediaFront::new`]. In each round, [`MediaFront::tell`] takes the latest notice, [`MediaFront::datagram`] a
//! datagram, [`MediaFront::tick`] and [`MediaFront::report`] the moment. Then [`MediaFront::signal`] wakes the lanes
//! for what presses. [`MediaFront::until_tick`] says how long the next round may wait. The crate has no socket and no
//! clock.
//!
//! Contracts see a feed as its lanes: for each one its port of `media_workers`, the notice that it is owed, how many
//! parcels it accepted since its signal was raised, whether one presses, how many it accepted in all, and how many were
//! dropped. They don't say when a parcel is dropped: [`places_left`] says how many places of a ring each kind of item
//! leaves free for others.
//!
//! ```rust
//! // readers, notice and rows: of a shared desk of the brand H; sinks: a `Sink` for each lane; wire: a `Wire`
//! let ingress = Ingress::new(alloc, settings.try_clone()?)?;
//! let limiter = RateLimiter::new(alloc)?;
//! let cost = pli_octets(alloc, &settings)?;
//! let Ok(feed) = LaneFeed::<PublisherOf<H>, _, _>::start(rt, alloc, readers, &settings, sinks) else {
//!     return println!(rt; "no lanes");
//! };
//! let mut media = MediaFront::new(ingress, feed, limiter, cost, ReportTimer::begin(5_000, start)); // reports every 5
//! s media.renew(); // once, before anything else is given
//! media.tell(notice);
//! let received = media.datagram(alloc, rows, &from, moment, octets, &mut wire)?; // from, at this moment
//! if let Some(ssrc) = ended_by(&received) {
//!     let sent = media.ask_picture(alloc, &from, ssrc, &mut wire)?; // its probation ended
//! }
//! if media.tick(moment) {
//!     media.wait_all(alloc, rows, moment, &mut wire)?; // once for each whole 20 ms
//! }
//! let sent = media.ask_picture(alloc, &from, 101, &mut wire)?; // where a slot was given source 101
//! media.signal(rt);
//! let longest = media.until_tick(moment); // nanoseconds
//! let fault = fault_of(&media.close(rt)); // None, unless a lane had a fault
//! ```
//!
//! `three_lanes_have_ended` of worked_front calls `fault_of` so, with its answers proved. x_cases_front runs the other
//! calls on sockets.
#![tactic(auto)]

mod accepting;
mod asking;
mod ends;
mod feed;
mod front;
mod giving;
mod granting;
mod handling;
mod lane_status;
mod laws;
mod limiting;
mod naming;
mod offering;
mod origins;
mod paying;
mod picturing;
mod planning;
mod pressing;
mod pricing;
mod starting;
mod timer_item;
mod trying;
mod waiting;
mod watching;

pub use self::accepting::ended_by;
pub use self::ends::fault_of;
pub use self::feed::LaneFeed;
pub use self::front::MediaFront;
pub use self::laws::{
    control_up_is_bounded, items_given_are_bounded, last_places_suffice, numbers_given_are_bounded,
    owed_notices_are_carried, passed_plis_have_their_cost,
};
pub use self::naming::PublisherOf;
pub use self::offering::places_left;
pub use self::origins::origin_in;
pub use self::paying::refill_for;
pub use self::pricing::pli_octets;

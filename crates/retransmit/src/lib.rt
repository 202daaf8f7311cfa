//! A retransmission buffer: the last 512 packets of an outgoing video stream, for receivers that ask again.
//!
//! Begin with [`Window::new`]. A contract sees a [`Window`] as the list of its packets, oldest first.
//!
//! ```rust
//! let receiver = Owner { member: 1, address: Address { ip: [127, 0, 0, 1], port: 7 } };
//! let mut window = Window::new(alloc)?;
//! window.push(Entry {
//!     number: 65_535,
//!     owner: receiver,
//!     version: 1,
//!     item: 1,
//!     source: 5,
//!     address: Address { ip: [127, 0, 0, 1], port: 8 },
//!     epoch: 1,
//!     ext: 100,
//!     bytes: PacketBytes::whole(Bytes::new()),
//! });
//! let again = window.find(65_535, &receiver); // the packet; any other owner gets None
//! ```
//!
//! `the_one_before_the_wrap_is_found` and `another_member_is_not_answered` of worked_media are such calls, with their
//! answers proved.
#![tactic(auto)]

mod entry;
mod laws;
mod owner;
mod packet_bytes;
mod window;

pub use entry::Entry;
pub use laws::{found_is_the_only_one, owners_are_told_apart, so_far};
pub use owner::Owner;
pub use packet_bytes::PacketBytes;
pub use window::Window;

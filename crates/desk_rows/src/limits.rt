//! The limits of a good desk. They are those of `specs/Limits.antt`.

/// The most rooms.
pub const MAX_ROOMS: usize = 64;

/// The most members in all rooms.
pub const MAX_MEMBERS: usize = 1_024;

/// The most sources.
pub const MAX_SOURCES: usize = 2_048;

/// The most slots.
pub const MAX_SLOTS: usize = 4_096;

/// The most audio sources of one room.
pub const MAX_ROOM_AUDIO: usize = 64;

/// The greatest index of a slot.
pub const MAX_INDEX: u32 = 15;

/// The most gains.
pub const MAX_GAINS: usize = 65_536;

/// The greatest gain in 256ths: four times as loud.
pub const MAX_GAIN: u32 = 1_024;

/// The most rows beside the members: gains, rooms with a pin and a floor, sources with a mute, slots with a
/// subscription.
pub const MAX_OTHERS: usize = MAX_GAINS + 3 * MAX_ROOMS + 2 * MAX_SOURCES + 2 * MAX_SLOTS;

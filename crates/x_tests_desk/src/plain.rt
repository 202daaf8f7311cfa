//! A plain copy of the desk, kept by the tests: which rooms there are. Version n is made by a list that puts room
//! n modulo 64 or takes it, and every third time another room after it, or the same one again.

use desk_rows::{Edit, Key, Kind, Part, Replaced, Room, Row, Rows};
use std::alloc::{AllocError, Global};
use undo_log::Edits;

/// How many rooms come and go.
const ROOMS: u32 = 64;

/// The rooms, and the version that they are of.
#[derive(Drop)]
pub struct Plain {
    version: u64,
    rooms: Vec<u32>,
}

/// The rooms that the list of this version puts or takes.
fn changed(version: u64) -> (u32, Option<u32>) {
    let room = (version % 64) as u32;
    if version % 3 == 0 {
        (room, Some((room * 5) % ROOMS))
    } else {
        (room, None)
    }
}

impl Plain {
    pub fn new(alloc: Global) -> Plain {
        Plain {
            version: 0,
            rooms: Vec::new(alloc),
        }
    }

    /// Puts the room, or takes it where it is there. Says whether it was there.
    fn change(&mut self, room: u32) -> Result<bool, AllocError> {
        match self.rooms.iter().position(|r| *r == room) {
            Some(place) => {
                self.rooms.swap_remove(place);
                Ok(true)
            }
            None => {
                self.rooms.push(room)?;
                Ok(false)
            }
        }
    }

    /// Goes on to this version.
    pub fn go_on(&mut self, version: u64) -> Result<(), AllocError> {
        for next in self.version..version {
            let (room, other) = changed(next.wrapping_add(1));
            self.change(room)?;
            if let Some(other) = other {
                self.change(other)?;
            }
        }
        self.version = version;
        Ok(())
    }

    /// The list that makes the next version.
    pub fn next(&mut self, alloc: Global) -> Result<Edits<Edit>, AllocError> {
        let version = self.version.wrapping_add(1);
        let (room, other) = changed(version);
        let mut edits = Vec::new(alloc);
        edits.push(edit(alloc, room, self.change(room)?)?)?;
        if let Some(other) = other {
            edits.push(edit(alloc, other, self.change(other)?)?)?;
        }
        self.version = version;
        Ok(Edits::new(edits))
    }

    /// Whether the desk has these rooms and no other row.
    pub fn is_of(&self, rows: &Rows) -> bool {
        rows.members().is_empty()
            && rows.count(Kind::Source) == 0
            && rows.count(Kind::Room) == self.rooms.len()
            && self
                .rooms
                .iter()
                .all(|room| rows.find(&Key::Room(*room)).is_some())
    }
}

/// The edit that takes a room or puts it.
fn edit(alloc: Global, room: u32, is_taken: bool) -> Result<Edit, AllocError> {
    let mut rows = Vec::new(alloc);
    rows.push(Row::Room(Room { room, rate: 8_000 }))?;
    let part = Part::new(Vec::new(alloc), rows);
    let none = Part::none(alloc);
    let (taken, put) = if is_taken { (part, none) } else { (none, part) };
    Ok(Edit {
        taken,
        put,
        replaced: Replaced::none(alloc),
    })
}

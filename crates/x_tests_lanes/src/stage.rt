//! A desk with one operator, on which each test plays.

ghost use Rattle.std.specs.Prelude.{◌≡◌, All, IfSome};
ghost use Rattle.desk_rows.specs.Desk.{blank as no_rows};
ghost use Rattle.published_desk.specs.Published.{new_reader};

use crate::told::{OfBrand, Told};
use call_history::CallStamp;
use desk_edit::{Call, Command, Form};
use desk_rows::{Kind, Rows};
use operator_desk::{Answer, DeskBrand, DeskNames, Log, Seat, SharedDesk};
use published_desk::LaneReader;
use std::alloc::Global;
use std::sync::Wait;

/// All kinds of rows.
const KINDS: [Kind; 9] = [
    Kind::Room,
    Kind::Member,
    Kind::Source,
    Kind::Slot,
    Kind::Sub,
    Kind::Mute,
    Kind::Gain,
    Kind::Pin,
    Kind::Floor,
];

/// Whether the rows are those that the commands put.
fn are_only(rows: &Rows, put: &[Command]) -> bool {
    let mut count: usize = 0;
    for kind in KINDS {
        count = count.wrapping_add(rows.count(kind));
    }
    for command in put {
        match command.form() {
            Form::Put(row) if rows.holds(&row) => {}
            _ => return false,
        }
    }
    count == put.len()
}

/// A desk with one operator. It is not `Drop`: end it by [`OneDesk::end`].
pub struct OneDesk<'a, H: DeskBrand> {
    desk: SharedDesk<'a, H>,
    seat: Seat<'a, H>,
}

impl<'a, H: DeskBrand> OneDesk<'a, H> {
    /// A desk without rows over a log in which nothing is written, and readers of what it publishes.
    pub fn open<R: Wait>(
        rt: &R,
        alloc: Global,
        log: &'a Log,
        names: DeskNames,
        readers: usize,
    ) -> Option<(OneDesk<'a, H>, Vec<LaneReader>)>
        requires log { log.now ≡ H.cells }
        requires ledger { (names.ledger.name ≡ H.name) × (names.ledger.parts ≡ H.parts) }
        requires publisher { names.publisher ≡ H.publisher }
        requires start { no_rows 1 ≡ H.start }
        requires seats { (1 ≡ H.seats) × (H.seats ≡ H.parts) }
        ensures { IfSome result (λ r. All (λ reader. reader ≡ new_reader H.publisher H.start) r.1.items) }
    {
        match SharedDesk::<H>::new(rt, alloc, log, names, 1, 1, readers) {
            Ok((desk, mut seats, readers)) => match seats.pop() {
                Some(seat) => Some((OneDesk { desk, seat }, readers)),
                None => {
                    desk.end(rt);
                    None
                }
            },
            Err(_) => None,
        }
    }

    /// Carries out a command, and tells of it. `None` where it is refused.
    pub fn does<R: Wait>(
        &mut self,
        rt: &R,
        alloc: Global,
        command: Command,
    ) -> Option<Told<OfBrand<H>>> {
        match self.desk.call(
            rt,
            alloc,
            &mut self.seat,
            Call::Apply(command),
            CallStamp::unnamed(alloc, 0),
        ) {
            Ok(Answer::Accepted { no: _, notice }) => Some(Told::new(notice)),
            Ok(Answer::Refused { .. }) | Err(_) => None,
        }
    }

    /// Carries out all commands. False where one is refused.
    pub fn does_all<R: Wait>(&mut self, rt: &R, alloc: Global, commands: &[Command]) -> bool {
        for command in commands {
            if self.does(rt, alloc, *command).is_none() {
                return false;
            }
        }
        true
    }

    /// The notice of what is published now.
    pub fn notice<R: Wait>(&self, rt: &R) -> Told<OfBrand<H>> {
        Told::new(self.desk.notice(rt))
    }

    /// Whether it has this version, and the rows that these commands put and no other.
    pub fn has_only<R: Wait>(&self, rt: &R, alloc: Global, version: u64, put: &[Command]) -> bool {
        match self.desk.rows(rt, alloc) {
            Ok((found, rows)) => found == version && are_only(&rows, put),
            Err(_) => false,
        }
    }

    /// Ends it. Readers find no rows from then on.
    pub fn end<R: Wait>(self, rt: &R) {
        let OneDesk { desk, seat: _ } = self;
        desk.end(rt);
    }
}

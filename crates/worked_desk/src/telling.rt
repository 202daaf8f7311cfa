//! Readers that are told of calls.

ghost use Rattle.std.specs.Prelude.{◌≡◌, ◌≤◌, length, IfSome};
ghost use Rattle.desk_rows.specs.Desk.{count_of};
ghost use Rattle.desk_edit.specs.Calls.{desk_now};
ghost use Rattle.published_desk.specs.Published.{after_lists};
ghost use Rattle.operator_desk.specs.LegalLogs.{after_log};

use call_history::CallStamp;
use desk_edit::Call;
use desk_rows::Kind;
use operator_desk::{Answer, DeskBrand, Seat, SharedDesk};
use published_desk::{LaneReader, Notice};
use std::alloc::Global;
use std::sync::Wait;

/// What a reader found that was told of an accepted call.
#[derive(Clone, Copy)]
pub struct Found {
    /// The number of the call.
    pub no: u64,
    /// The version that it entered.
    pub version: u64,
    /// How many rows of the kind the version has.
    pub count: usize,
}

/// What a reader found at an entry.
#[derive(Clone, Copy)]
struct Entry {
    version: u64,
    /// How many rows of the kind.
    count: usize,
}

/// Makes a call, and tells a reader of it. The version that the reader enters is that of the call or a later one. At
/// that of the call it finds the desk of the log that the seat has seen.
pub fn told_of<'a, H: DeskBrand, R: Wait>(
    rt: &R,
    alloc: Global,
    desk: &SharedDesk<'a, H>,
    seat: &mut Seat<'a, H>,
    reader: LaneReader,
    call: Call,
    kind: Kind,
) -> (Option<Found>, LaneReader)
    requires reader { (reader.publisher ≡ H.publisher) × (reader.start ≡ H.start) }
    ensures same { (result.1.publisher ≡ H.publisher) × (result.1.start ≡ H.start) }
    ensures later { IfSome result.0 (λ f. f.no ≤ f.version) }
    ensures rows { IfSome result.0 (λ f.
        f.version ≡ f.no → f.count ≡ count_of kind (desk_now (after_log H.start seat.new.seen))) }
{
    let Ok(answer) = desk.call(rt, alloc, seat, call, CallStamp::unnamed(alloc, 0)) else {
        return (None, reader);
    };
    match answer {
        Answer::Accepted { no, notice } => match read(reader, notice, kind) {
            (Some(entry), reader) => {
                let found = Found {
                    no,
                    version: entry.version,
                    count: entry.count,
                };
                (Some(found), reader)
            }
            (None, reader) => (None, reader),
        },
        Answer::Refused { .. } => (None, reader),
    }
}

/// Tells a reader, and lets it enter. It finds the version of the notice or a later one.
fn read(reader: LaneReader, notice: Notice, kind: Kind) -> (Option<Entry>, LaneReader)
    requires publisher { notice.publisher ≡ reader.publisher }
    ensures same { (result.1.publisher ≡ reader.publisher) × (result.1.start ≡ reader.start) }
    ensures later { IfSome result.0 (λ e. length notice.lists ≤ e.version) }
    ensures rows { IfSome result.0 (λ e.
        e.version ≡ length notice.lists → e.count ≡ count_of kind (after_lists reader.start notice.lists)) }
{
    let mut reader = reader;
    reader.learn(notice);
    match reader.enter() {
        Ok(entered) => {
            let entry = Entry {
                version: entered.version(),
                count: entered.rows().count(kind),
            };
            (Some(entry), entered.leave())
        }
        Err(reader) => (None, reader),
    }
}

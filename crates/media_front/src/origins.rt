//! Where the packets of video sources come from.

ghost use Rattle.std.specs.Prelude.{◌≡◌, true, option_map};
ghost use Rattle.desk_rows.specs.Desk.{good};
ghost use Rattle.media_front.specs.Waits.{video_origin};
ghost use Rattle.media_front.specs.inner.Origins.{origin_of, origin_in};

use desk_rows::{Media, Row, Rows, Source};
use rtp_codec::Address;
use topology::member_at;

/// The address and the SSRC that the packets of a source have, if it is video: its member's, and its own.
fn video_origin(rows: &Rows, source: &Source) -> Option<(Address, u32)>
    ensures { option_map origin_of result ≡ video_origin rows.now source.now }
{
    if !source.media.is_same(Media::Video) {
        return None;
    }
    match member_at(rows, source.member) {
        None => None,
        Some(member) => Some((member.address, source.ssrc)),
    }
}

/// The address and the SSRC that the packets of the source in a row have, if it is video and its member is there.
pub fn origin_in(rows: &Rows, row: &Row) -> Option<(Address, u32)>
    ensures { option_map origin_of result ≡ origin_in rows.now row.now }
{
    let source = row.as_source()?;
    video_origin(rows, &source)
}

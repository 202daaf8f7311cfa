//! Appending the lines of a script.

ghost use Rattle.std.specs.Prelude.{◌≡◌, ◌+◌, ◌<◌, [], ◌∷◌, ◌++◌, length, OnOk, OnErr};
ghost use Rattle.std.specs.Prelude.{vec_len, vec_capacity};
ghost use Rattle.script_text.specs.Requests.{rx_line, wait_line, tick_line, report_line};

use desk_text::{Value, Word, print_line};
use rtp_codec::Address;
use std::alloc::{AllocError, Allocator};

/// Appends the line of a datagram that came at a moment from an address. On out of memory, the only error, nothing
/// changes.
pub fn append_rx_line<A: Allocator>(
    moment: u64,
    from: Address,
    octets: &[u8],
    out: &mut Vec<u8, A>,
) -> Result<(), AllocError>
    ensures ok { OnOk result (out.new.items ≡ out.old.items ++ rx_line moment from octets.now ++ 10 ∷ []) }
    ensures err { OnErr result (out.new.items ≡ out.old.items) }
    ensures full { OnErr result (vec_capacity out.old
        < vec_len out.old + length (rx_line moment from octets.now ++ 10 ∷ [])) }
{
    let moment = Word::Value(Value::U64(moment));
    let from = Word::Value(Value::Address(from));
    print_line(b"rx", &[moment, from, Word::Hex(octets)], out)
}

/// Appends the line of a wait for the source of this SSRC at an address, until a moment. On out of memory, the only
/// error, nothing changes.
pub fn append_wait_line<A: Allocator>(
    moment: u64,
    from: Address,
    ssrc: u32,
    out: &mut Vec<u8, A>,
) -> Result<(), AllocError>
    ensures ok { OnOk result (out.new.items ≡ out.old.items ++ wait_line moment from ssrc ++ 10 ∷ []) }
    ensures err { OnErr result (out.new.items ≡ out.old.items) }
    ensures full { OnErr result (vec_capacity out.old
        < vec_len out.old + length (wait_line moment from ssrc ++ 10 ∷ [])) }
{
    let moment = Word::Value(Value::U64(moment));
    let from = Word::Value(Value::Address(from));
    print_line(b"wait", &[moment, from, Word::Value(Value::U32(ssrc))], out)
}

/// Appends the line of a tick. On out of memory, the only error, nothing changes.
pub fn append_tick_line<A: Allocator>(moment: u64, out: &mut Vec<u8, A>) -> Result<(), AllocError>
    ensures ok { OnOk result (out.new.items ≡ out.old.items ++ tick_line moment ++ 10 ∷ []) }
    ensures err { OnErr result (out.new.items ≡ out.old.items) }
    ensures full { OnErr result (vec_capacity out.old < vec_len out.old + length (tick_line moment ++ 10 ∷ [])) }
{
    print_line(b"tick", &[Word::Value(Value::U64(moment))], out)
}

/// Appends the line of reports. On out of memory, the only error, nothing changes.
pub fn append_report_line<A: Allocator>(moment: u64, out: &mut Vec<u8, A>) -> Result<(), AllocError>
    ensures ok { OnOk result (out.new.items ≡ out.old.items ++ report_line moment ++ 10 ∷ []) }
    ensures err { OnErr result (out.new.items ≡ out.old.items) }
    ensures full { OnErr result (vec_capacity out.old < vec_len out.old + length (report_line moment ++ 10 ∷ [])) }
{
    print_line(b"report", &[Word::Value(Value::U64(moment))], out)
}

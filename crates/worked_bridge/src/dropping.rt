//! Datagrams that are dropped.

ghost use Rattle.std.specs.Prelude.{◌≡◌, true, IfOk};
ghost use Rattle.ingress.specs.Ingested.{ingested_of, only};
ghost use Rattle.ingress.specs.Ingresses.{Knows};
ghost use Rattle.ingress.specs.Names.{is_name};
ghost use Rattle.ingress.specs.Sources.{Sources, no_sources};

use bridge_core::{Core, Settings};
use desk_rows::Rows;
use ingress::{Ingest, Ingress, Outcome, voices_are_there};
use rtp_codec::Address;
use std::alloc::{AllocError, Global};

/// An empty datagram is neither RTP nor RTCP. A new ingress drops it.
pub fn an_empty_datagram_is_dropped(
    alloc: Global,
    settings: Settings,
    rows: &Rows,
    from: &Address,
    moment: u64,
) -> Result<Ingest, AllocError>
    requires { is_name settings.cname ≡ true }
    ensures { IfOk result (λ ingest. ingested_of ingest ≡ only Outcome.Neither) }
{
    voices_are_there();
    let mut ingress = Ingress::new(alloc, settings)?;
    ingress.datagram(alloc, rows, from, moment, b"")
}

/// So does a core, whose ingress knows the same sources afterwards.
pub fn a_core_drops_an_empty_datagram(
    alloc: Global,
    core: &mut Core,
    from: &Address,
    moment: u64,
) -> Result<Ingest, AllocError>
    ensures { IfOk result (λ ingest. (s : Sources) → Knows core.old.ingress s
        → (ingested_of ingest ≡ only Outcome.Neither) × Knows core.new.ingress s) }
{
    voices_are_there();
    core.datagram(alloc, from, moment, b"")
}

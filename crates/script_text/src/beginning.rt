//! How the bridge of a script begins.

ghost use Rattle.std.specs.Prelude.{◌≡◌, true, [], IfOk, OnOk};
ghost use Rattle.ingress.specs.Names.{is_name};
ghost use Rattle.script_text.specs.Decodings.{Decoding};
ghost use Rattle.script_text.specs.Bridge.{begun_bridge};
ghost use Rattle.script_text.specs.inner.Cursor.{asker_in, begin_of};
ghost use Rattle.script_text.specs.inner.Steps.{HasLane, Stands, AnswersRequest};

use crate::answer::answer_item;
use crate::bridge_line::BridgeLine;
use bridge_core::{Core, CoreFault, Item, Settings};
use std::alloc::{AllocError, Allocator};

/// A bridge of these settings, with one lane.
pub(crate) fn begun<A: Allocator + Copy>(
    alloc: A,
    settings: Settings<A>,
) -> Result<Core<A>, AllocError>
    requires { is_name settings.cname ≡ true }
    ensures stands { IfOk result (λ core. (decoding : Decoding)
        → Stands core (begun_bridge decoding (asker_in settings))) }
    ensures lane { IfOk result (λ core. HasLane core) }
{
    match Core::new(alloc, 1, settings) {
        Err(CoreFault::OutOfMemory) => Err(AllocError),
        Err(_) => unreachable!(),
        Ok(core) => Ok(core),
    }
}

/// Begins the bridge as the first line says it.
pub(crate) fn answer_begin<A: Allocator + Copy>(
    alloc: A,
    core: &mut Core<A>,
    named: BridgeLine<A>,
    out: &mut Vec<u8, A>,
) -> Result<(), AllocError>
    requires lane { HasLane core.old }
    requires empty { out.old.items ≡ [] }
    ensures answer { OnOk result (AnswersRequest core.old (begin_of named) core.new out.new.items) }
    ensures lane { HasLane core.new }
{
    let BridgeLine { settings, renews } = named;
    *core = begun(alloc, settings)?;
    if renews {
        answer_item(alloc, core, &Item::Renew, out)
    } else {
        Ok(())
    }
}

//! How a bridge begins.

ghost use Rattle.std.specs.Prelude.{◌≡◌, [], length, Err};

use bridge_core::{Core, CoreFault, Settings};
use std::alloc::Global;

/// A bridge has a lane. This is told before a canonical name that is not there.
pub fn no_lane(alloc: Global, settings: Settings) -> Result<Core, CoreFault>
    requires { settings.cname ≡ [] }
    ensures { result ≡ Err CoreFault.BadLanes }
{
    Core::new(alloc, 0, settings)
}

/// A bridge has sixteen lanes at most.
pub fn seventeen_lanes(alloc: Global, settings: Settings) -> Result<Core, CoreFault>
    ensures { result ≡ Err CoreFault.BadLanes }
{
    Core::new(alloc, 17, settings)
}

/// A bridge has a canonical name.
pub fn no_name(alloc: Global, settings: Settings) -> Result<Core, CoreFault>
    requires { settings.cname ≡ [] }
    ensures { result ≡ Err CoreFault.BadSettings }
{
    Core::new(alloc, 16, settings)
}

/// A canonical name has 255 octets at most.
pub fn a_name_of_256_octets(alloc: Global, settings: Settings) -> Result<Core, CoreFault>
    requires { length settings.cname ≡ 256 }
    ensures { result ≡ Err CoreFault.BadSettings }
{
    Core::new(alloc, 1, settings)
}

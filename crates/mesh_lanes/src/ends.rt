//! A new lane.
ghost use Rattle.std.specs.Prelude.{◌≡◌, [], IfOk};

use crate::inlet::Inlet;
use crate::outlet::Outlet;
use dash_base::OutOfMemory;
use rtrb::RingBuffer;
use std::alloc::Global;
use std::collections::VecDeque;

/// The number of parcels that the ring of a lane has room for.
const ROOM: usize = 64;

/// The two ends of a new lane, on which nothing was sent.
pub fn lane(alloc: Global) -> Result<(Outlet, Inlet), OutOfMemory>
    ensures lane { IfOk result (λ ends. ends.0.lane ≡ ends.1.lane) }
    ensures outlet { IfOk result (λ ends. (ends.0.sent ≡ []) × (ends.0.spool ≡ []) × (ends.0.free ≡ 64)) }
    ensures inlet { IfOk result (λ ends. (ends.1.received ≡ []) × (ends.1.known ≡ [])) }
{
    let (producer, consumer) = RingBuffer::new(alloc, ROOM)?;
    let outlet = Outlet {
        ring: producer,
        spool: VecDeque::new(alloc),
    };
    Ok((outlet, Inlet { ring: consumer }))
}

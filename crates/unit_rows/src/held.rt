//! What a hart of the cluster is to a line: its holder, or its owner and only holder.
ghost use Rattle.std.specs.Prelude.{◌≡◌, ◌<◌};
ghost use Rattle.snoop_bus.specs.Holding.{has_hart};
ghost use Rattle.snoop_bus.specs.View.{is_holder, owns_alone};

use dash_base::LineId;
use snoop_bus::Bus;

/// Whether a hart is among holders.
pub fn has_hart(holders: u32, hart: u32) -> bool
    requires { hart < 4 }
    ensures { result ≡ has_hart holders hart }
{
    (holders >> hart) % 2 == 1
}

/// Whether a hart holds a line.
pub fn holds(bus: &Bus, hart: u32, line: LineId) -> bool
    requires { hart < 4 }
    ensures { result ≡ is_holder bus.now hart line.0 }
{
    bus.holds(hart, line)
}

/// Whether a hart is in state M on a line: its owner, and its only holder.
pub fn owns_alone(bus: &Bus, hart: u32, line: LineId) -> bool
    requires { hart < 4 }
    ensures { result ≡ owns_alone bus.now hart line.0 }
{
    bus.owns_alone(hart, line)
}

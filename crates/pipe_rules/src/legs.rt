// Tests of the legs of a cell.
ghost use Rattle.std.specs.Prelude.{◌≡◌};
ghost use Rattle.grid_box.specs.Legs.{along};
ghost use Rattle.grid_box.specs.PipeRules.{is_only, is_port_leg};

use grid_box::Leg;
use las_base::{Axis, Port};

/// Whether the one leg is the end of the port's pipe.
pub(crate) fn is_port_leg_alone(port: Port, legs: &[Leg]) -> bool
    ensures { result ≡ is_only (is_port_leg port) legs.now }
{
    match legs {
        [leg] => leg.is_end_at(port),
        _ => false,
    }
}

/// Whether there is one leg, and it is along K.
pub(crate) fn is_k_leg_alone(legs: &[Leg]) -> bool
    ensures { result ≡ is_only (along Axis.K) legs.now }
{
    match legs {
        [leg] => leg.axis == Axis::K,
        _ => false,
    }
}

//! Diagrams: cubes joined by pipes in a box of cells. Callers see a diagram as a drawing, that is a size,
//! a list of pipes by axis and low cell, and a list of Y cells. The definitions that every later crate
//! cites stand here in `specs/`: legs, the eight rules of pipes and colours, the first breach, and
//! correlation surfaces with their rules. They speak of plain lists, and know nothing of how a diagram
//! is kept.
#![tactic(auto)]

ghost use Rattle.std.specs.Prelude.{◌≡◌};
ghost use Rattle.grid_box.specs.Legs.{has_leg_along, kind_on, end_of_way};
ghost use Rattle.grid_box.specs.PipeRules.{is_port_leg};

mod diagram;
pub mod examples;
pub mod laws;
mod scan;
mod sheets;

pub use diagram::Diagram;
use las_base::{Axis, Cell, End, Kind, Port, Way};
pub use scan::first_breach;
pub use sheets::{Sheets, sheet_number};

/// The end of a pipe that stands at a cell.
#[derive(Clone, Copy, PartialEq, Eq, Debug)]
pub struct Leg {
    pub axis: Axis,
    /// Which end of the pipe stands at the cell.
    pub which: End,
    /// The kind, at that end, of the faces normal to the axis after the pipe's own.
    pub kind_next: Kind,
}

impl Default for Leg {
    fn default() -> Leg {
        Leg {
            axis: Axis::I,
            which: End::Low,
            kind_next: Kind::X,
        }
    }
}

impl Leg {
    /// Whether it is the end of the port's pipe at the port's place.
    pub fn is_end_at(self, port: Port) -> bool
        ensures { result ≡ is_port_leg port self }
    {
        self.axis == port.axis && self.which == end_of(port.way)
    }
}

// Which end of a pipe stands at a cell from which the pipe goes this way.
fn end_of(way: Way) -> End
    ensures { result ≡ end_of_way way }
{
    match way {
        Way::Plus => End::Low,
        Way::Minus => End::High,
    }
}

/// Whether some leg is along an axis.
pub fn has_leg_along(legs: &[Leg], axis: Axis) -> bool
    ensures { result ≡ has_leg_along legs.now axis }
{
    legs.iter().any(|leg| leg.axis == axis)
}

/// The kind of a leg's faces normal to an axis. It means nothing on the leg's own axis.
pub fn face(leg: Leg, axis: Axis) -> Kind
    ensures { result ≡ kind_on leg axis }
{
    if axis == leg.axis.next() {
        leg.kind_next
    } else {
        leg.kind_next.other()
    }
}

/// A rule that is broken, by its number, and the cell that it names.
#[derive(Clone, Copy, PartialEq, Eq, Debug)]
pub struct Broken {
    pub rule: u8,
    pub cell: Cell,
}

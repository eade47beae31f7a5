// The kinds that legs show.
ghost use Rattle.std.specs.Prelude.{◌≡◌, ◌||◌};
ghost use Rattle.std.specs.List.{list_all};
ghost use Rattle.las_base.specs.Axes.{same_kind};
ghost use Rattle.las_base.specs.Cells.{same_cell};
ghost use Rattle.grid_box.specs.Legs.{along, kind_on, kinds_on};
ghost use Rattle.grid_box.specs.PipeRules.{◌==>◌, all_kind, all_one_kind, is_port_leg};

use grid_box::{Leg, face};
use las_base::{Axis, Cell, Kind, Port};

// Whether a leg is along the axis, or shows this kind on it.
fn allows(leg: Leg, axis: Axis, kind: Kind) -> bool
    ensures { result ≡ (along axis leg || same_kind kind (kind_on leg axis)) }
{
    leg.axis == axis || kind == face(leg, axis)
}

// Whether the legs that are not along the axis all show this kind on it.
fn are_of_kind(legs: &[Leg], axis: Axis, kind: Kind) -> bool
    ensures { result ≡ list_all (λ l. along axis l || same_kind kind (kind_on l axis)) legs.now }
{
    legs.iter().all(|leg| allows(*leg, axis, kind))
}

/// Whether the legs that are not along the axis all show one kind on it.
#[tactic(auto, using(crate::proofs::KindLemmas::one_kind))]
pub(crate) fn are_of_one_kind(legs: &[Leg], axis: Axis) -> bool
    ensures { result ≡ all_one_kind (kinds_on axis legs.now) }
{
    are_of_kind(legs, axis, Kind::X) || are_of_kind(legs, axis, Kind::Z)
}

// Whether a leg is not the end of the port's pipe, or shows kind Z on the port's z axis.
fn is_lawful_at(port: Port, leg: Leg) -> bool
    ensures { result ≡ (is_port_leg port leg ==> same_kind (kind_on leg port.z_axis) Kind.Z) }
{
    !leg.is_end_at(port) || face(leg, port.z_axis) == Kind::Z
}

// Whether the port's leg, where it is among these, shows kind Z on the port's z axis.
fn shows_z(port: Port, legs: &[Leg]) -> bool
    ensures { result ≡ list_all (λ l. is_port_leg port l ==> same_kind (kind_on l port.z_axis) Kind.Z) legs.now }
{
    legs.iter().all(|leg| is_lawful_at(port, *leg))
}

// Whether a port is at another cell, or its leg among these shows kind Z on the port's z axis.
fn port_shows_z_at(port: Port, cell: Cell, legs: &[Leg]) -> bool
    ensures { result ≡ (same_cell port.place cell ==> list_all (λ l. is_port_leg port l ==> same_kind (kind_on l port.z_axis) Kind.Z) legs.now) }
{
    port.place != cell || shows_z(port, legs)
}

/// Whether each port is at another cell, or its leg among these shows kind Z on the port's z axis.
pub(crate) fn ports_show_z_at(ports: &[Port], cell: Cell, legs: &[Leg]) -> bool
    ensures { result ≡ list_all (λ p. same_cell p.place cell ==> list_all (λ l. is_port_leg p l ==> same_kind (kind_on l p.z_axis) Kind.Z) legs.now) ports.now }
{
    ports.iter().all(|port| port_shows_z_at(*port, cell, legs))
}

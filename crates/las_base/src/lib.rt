//! The geometry that every other crate speaks: axes, the two kinds of faces, Paulis, cells and boxes
//! of cells, ports, and (in `specs/`) the record of a job, which is what is asked of a diagram.
//! Callers see plain values with public fields. No call takes memory.
#![tactic(auto)]

ghost use Rattle.std.specs.Prelude.{◌≡◌, ◌≢◌, ◌<◌, ◌≤◌, IsTrue, Some, slice_get};
ghost use Rattle.las_base.specs.Axes.{next_axis, third_axis, other_kind, swapped, has_part, pauli};
ghost use Rattle.las_base.specs.Cells.{coordinate, side, volume, holds, index, cells, above, below, low_cell, stepped, widened, FitsOnGrid, IsOnGrid};
ghost use Rattle.las_base.specs.Jobs.{within_limits, port_fits};
ghost use Rattle.las_base.specs.Texts.{size_text};

pub mod laws;

use std::fmt;

/// The longest side of a box, in cells.
pub const MOST_SIDE: u32 = 32;

/// The most cells of a box.
pub const MOST_VOLUME: u32 = 512;

/// The most ports of a job.
pub const MOST_PORTS: usize = 32;

/// The most flows of a job.
pub const MOST_FLOWS: usize = 32;

/// The most boxes in which one job is asked.
pub const MOST_BOXES: usize = 64;

/// A direction of the grid. I and J are space, K is time. The cyclic order is I, J, K and round again.
#[derive(Clone, Copy, PartialEq, Eq, PartialOrd, Ord, Hash, Debug)]
pub enum Axis {
    I,
    J,
    K,
}

/// Which way along an axis.
#[derive(Clone, Copy, PartialEq, Eq, Debug)]
pub enum Way {
    Plus,
    Minus,
}

/// The kind of a pair of opposite faces of a pipe: the boundary of the surface code patch there.
#[derive(Clone, Copy, PartialEq, Eq, Debug)]
pub enum Kind {
    X,
    Z,
}

/// A Pauli operator up to its sign.
#[derive(Clone, Copy, PartialEq, Eq, Debug)]
pub enum Pauli {
    One,
    X,
    Y,
    Z,
}

/// An end of a pipe: at its low cell, or at its high cell.
#[derive(Clone, Copy, PartialEq, Eq, Debug)]
pub enum End {
    Low,
    High,
}

impl Axis {
    /// The next axis in the cyclic order.
    pub fn next(self) -> Axis
        ensures { result ≡ next_axis self }
    {
        match self {
            Axis::I => Axis::J,
            Axis::J => Axis::K,
            Axis::K => Axis::I,
        }
    }

    /// The axis that is neither of the two, or the next one where they are one.
    pub fn third(self, other: Axis) -> Axis
        ensures { result ≡ third_axis self other }
    {
        if self.next() == other {
            other.next()
        } else {
            self.next()
        }
    }
}

impl Kind {
    /// X for Z, and Z for X.
    pub fn other(self) -> Kind
        ensures { result ≡ other_kind self }
    {
        match self {
            Kind::X => Kind::Z,
            Kind::Z => Kind::X,
        }
    }
}

impl Pauli {
    /// The Pauli with X and Z exchanged, as a Hadamard exchanges them.
    pub fn swap(self) -> Pauli
        ensures { result ≡ swapped self }
    {
        match self {
            Pauli::One => Pauli::One,
            Pauli::X => Pauli::Z,
            Pauli::Y => Pauli::Y,
            Pauli::Z => Pauli::X,
        }
    }

    /// The Pauli with these parts: One where there is none, and Y where there are both.
    pub fn of_parts(x: bool, z: bool) -> Pauli
        ensures { result ≡ pauli x z }
    {
        match (x, z) {
            (false, false) => Pauli::One,
            (true, false) => Pauli::X,
            (false, true) => Pauli::Z,
            (true, true) => Pauli::Y,
        }
    }

    /// Whether it has a part of a kind. Y has both.
    pub fn has_part(self, kind: Kind) -> bool
        ensures { result ≡ has_part kind self }
    {
        matches!(
            (kind, self),
            (_, Pauli::Y) | (Kind::X, Pauli::X) | (Kind::Z, Pauli::Z)
        )
    }
}

/// A place of the grid. Cells are ordered by i, then j, then k.
#[derive(Clone, Copy, PartialEq, Eq, PartialOrd, Ord, Hash, Debug)]
pub struct Cell {
    pub i: u32,
    pub j: u32,
    pub k: u32,
}

/// The sides of a box, in cells. The box has its least cell at 0, 0, 0.
#[derive(Clone, Copy, PartialEq, Eq, Hash, Debug)]
pub struct Size {
    pub i: u32,
    pub j: u32,
    pub k: u32,
}

impl Size {
    /// The side along an axis.
    pub fn side(self, axis: Axis) -> u32
        ensures { result ≡ side self axis }
    {
        match axis {
            Axis::I => self.i,
            Axis::J => self.j,
            Axis::K => self.k,
        }
    }

    /// How many cells the box has.
    pub fn volume(self) -> u32
        requires { FitsOnGrid self }
        ensures { result ≡ volume self }
    {
        self.i * self.j * self.k
    }

    /// Whether a job or a diagram may have this size: each side is 1 to `MOST_SIDE`, and the volume is
    /// `MOST_VOLUME` at most.
    pub fn is_within_limits(self) -> bool
        ensures { result ≡ within_limits self }
    {
        (1..=MOST_SIDE).contains(&self.i)
            && (1..=MOST_SIDE).contains(&self.j)
            && (1..=MOST_SIDE).contains(&self.k)
            && self.volume() <= MOST_VOLUME
    }

    /// The box with one cell more on each far side. It has every cell at which a pipe of this box ends.
    pub fn widened(self) -> Size
        requires { FitsOnGrid self }
        ensures { result ≡ widened self }
    {
        Size {
            i: self.i + 1,
            j: self.j + 1,
            k: self.k + 1,
        }
    }

    /// Whether the cell is in the box.
    pub fn holds(self, cell: Cell) -> bool
        ensures { result ≡ holds self cell }
    {
        cell.i < self.i && cell.j < self.j && cell.k < self.k
    }

    /// Where a cell of the box stands in the order of cells, counted from 0.
    pub fn index(self, cell: Cell) -> usize
        requires small { FitsOnGrid self }
        requires held { IsTrue (holds self cell) }
        ensures value { result ≡ index self cell }
        ensures below { result < volume self }
    {
        (cell.i as usize * self.j as usize + cell.j as usize) * self.k as usize + cell.k as usize
    }

    /// The cell that stands at this index: the inverse of `index`.
    pub fn cell(self, number: usize) -> Cell
        requires { number < volume self }
        ensures listed { slice_get (cells self) number ≡ Some result }
        ensures held { IsTrue (holds self result) }
        ensures inverse { index self result ≡ number }
    {
        let (j_side, k_side) = (self.j as usize, self.k as usize);
        Cell {
            i: (number / k_side / j_side) as u32,
            j: (number / k_side % j_side) as u32,
            k: (number % k_side) as u32,
        }
    }
}

/// The sides with `x` between, as in `2x3x4`.
impl fmt::Display for Size {
    ghost output = { λ s. Some (size_text s) };

    fn fmt<W: fmt::Write>(&self, f: &mut fmt::Formatter<W>) -> fmt::Result {
        write!(f, "{}x{}x{}", self.i, self.j, self.k)
    }
}

impl Cell {
    /// The coordinate along an axis.
    pub fn coordinate(self, axis: Axis) -> u32
        ensures { result ≡ coordinate self axis }
    {
        match axis {
            Axis::I => self.i,
            Axis::J => self.j,
            Axis::K => self.k,
        }
    }

    /// The cell one step along an axis. None exactly where the way is Minus and the coordinate is 0.
    pub fn step(self, axis: Axis, way: Way) -> Option<Cell>
        requires { IsOnGrid self }
        ensures { result ≡ stepped self axis way }
    {
        match way {
            Way::Plus => Some(self.above(axis)),
            Way::Minus => self.below(axis),
        }
    }

    fn above(self, axis: Axis) -> Cell
        requires { IsOnGrid self }
        ensures { result ≡ above axis self }
    {
        match axis {
            Axis::I => Cell {
                i: self.i + 1,
                ..self
            },
            Axis::J => Cell {
                j: self.j + 1,
                ..self
            },
            Axis::K => Cell {
                k: self.k + 1,
                ..self
            },
        }
    }

    fn below(self, axis: Axis) -> Option<Cell>
        ensures { result ≡ below axis self }
    {
        match axis {
            Axis::I => Some(Cell {
                i: self.i.checked_sub(1)?,
                ..self
            }),
            Axis::J => Some(Cell {
                j: self.j.checked_sub(1)?,
                ..self
            }),
            Axis::K => Some(Cell {
                k: self.k.checked_sub(1)?,
                ..self
            }),
        }
    }
}

/// A place at which a pipe is left open. The port's pipe stands at `place`, along `axis`, on the side that
/// `way` names. `z_axis` is the axis on which the pipe's faces are of kind Z there; it is not `axis`.
#[derive(Clone, Copy, PartialEq, Eq, Debug)]
pub struct Port {
    pub place: Cell,
    pub axis: Axis,
    pub way: Way,
    pub z_axis: Axis,
}

impl Port {
    /// The low cell of the port's pipe. None where there is no cell so low.
    pub fn low_cell(self) -> Option<Cell>
        ensures { result ≡ low_cell self.place self.axis self.way }
    {
        match self.way {
            Way::Plus => Some(self.place),
            Way::Minus => self.place.below(self.axis),
        }
    }

    /// Whether the low cell of the port's pipe is in a box of this size. The place itself is then in the
    /// box, or one step beyond a far face.
    pub fn fits(self, size: Size) -> bool
        ensures { result ≡ port_fits size self }
    {
        match self.low_cell() {
            Some(cell) => size.holds(cell),
            None => false,
        }
    }
}

#[cfg(test)]
mod tests {
    use super::*;

    const BOX: Size = Size { i: 2, j: 3, k: 4 };

    fn at(i: u32, j: u32, k: u32) -> Cell
        ensures { (result.i ≡ i) × (result.j ≡ j) × (result.k ≡ k) }
    {
        Cell { i, j, k }
    }

    #[test]
    fn words_of_the_geometry(rt: HostRuntime) {
        assert_eq!(rt; Axis::K.next(), Axis::I);
        assert_eq!(rt; Axis::K.third(Axis::I), Axis::J);
        assert_eq!(rt; Kind::X.other(), Kind::Z);
        assert_eq!(rt; Axis::K.third(Axis::K), Axis::I);
        assert_eq!(rt; Pauli::Y.swap(), Pauli::Y);
        for pauli in [Pauli::One, Pauli::X, Pauli::Y, Pauli::Z] {
            let (x, z) = (pauli.has_part(Kind::X), pauli.has_part(Kind::Z));
            assert_eq!(rt; Pauli::of_parts(x, z), pauli);
        }
        assert_eq!(rt; BOX.side(Axis::J), 3);
        assert_eq!(rt; BOX.volume(), 24);
        assert_eq!(rt; BOX.widened(), Size { i: 3, j: 4, k: 5 });
        assert!(rt; BOX.is_within_limits());
        assert!(rt; !Size { i: 9, j: 8, k: 8 }.is_within_limits());
        assert_eq!(rt; at(5, 6, 7).coordinate(Axis::K), 7);
    }

    #[test]
    fn cells_stand_by_i_then_j_then_k(rt: HostRuntime) {
        for (number, cell) in [
            (0, at(0, 0, 0)),
            (3, at(0, 0, 3)),
            (4, at(0, 1, 0)),
            (23, at(1, 2, 3)),
        ] {
            assert!(rt; BOX.holds(cell));
            assert_eq!(rt; BOX.index(cell), number);
            assert_eq!(rt; BOX.cell(number), cell);
        }
        assert!(rt; !BOX.holds(at(0, 0, 4)));
    }

    #[test]
    fn ports_fit_at_the_far_faces(rt: HostRuntime) {
        for (place, axis, way, fits) in [
            (at(0, 0, 0), Axis::I, Way::Plus, true),
            (at(0, 0, 0), Axis::I, Way::Minus, false),
            (at(2, 2, 3), Axis::I, Way::Minus, true),
            (at(1, 3, 3), Axis::J, Way::Minus, true),
            (at(1, 2, 4), Axis::K, Way::Minus, true),
            (at(1, 2, 4), Axis::K, Way::Plus, false),
            (at(3, 0, 0), Axis::I, Way::Minus, false),
            (at(2, 3, 0), Axis::I, Way::Minus, false),
        ] {
            let port = Port {
                place,
                axis,
                way,
                z_axis: axis.next(),
            };
            assert_eq!(rt; port.fits(BOX), fits);
        }
        assert_eq!(rt; at(0, 1, 1).step(Axis::I, Way::Minus), None);
        assert_eq!(rt; at(0, 1, 1).step(Axis::J, Way::Minus), Some(at(0, 0, 1)));
        assert_eq!(rt; at(0, 1, 1).step(Axis::K, Way::Plus), Some(at(0, 1, 2)));
    }
}

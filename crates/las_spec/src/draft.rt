// A specification as it is written, before it is judged.
use las_base::{Axis, Cell, Pauli, Size, Way};

/// A port as it is written: none for a direction or a z axis that there is not.
#[derive(Clone, Copy, PartialEq, Eq, Debug)]
pub struct WrittenPort {
    pub place: Cell,
    pub direction: Option<(Way, Axis)>,
    pub z_axis: Option<Axis>,
}

/// A specification as it is written: none for a letter that there is not.
#[derive(Drop)]
pub struct Draft {
    pub size: Size,
    pub ports: Vec<WrittenPort>,
    pub words: Vec<Vec<Option<Pauli>>>,
    pub forbidden: Vec<Cell>,
    pub boxes: Vec<Size>,
}

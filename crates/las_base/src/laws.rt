// What cells and sizes say of one another.
ghost use Rattle.las_base.specs.Cells.{AllIndexed, AllRise, ListedIsHeld};
ghost use Rattle.las_base.specs.Texts.{SidesAreText};

/// A cell of a box stands at its index.
pub fn cells_by_index()
    ensures { AllIndexed }
{}

/// The cells of a box stand in order.
pub fn cells_rise()
    ensures { AllRise }
{}

/// The cells that are listed are those that the box holds.
pub fn listed_is_held()
    ensures { ListedIsHeld }
{}

/// A size's text, and what stands behind it.
pub fn sides_are_text()
    ensures { SidesAreText }
{}

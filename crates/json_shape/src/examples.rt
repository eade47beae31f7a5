// Worked grids.
ghost use Rattle.json_shape.specs.Examples.{BoxHasFourEntries, RaggedHasEntries, FloatHasNoEntries};

pub fn box_has_four_entries()
    ensures { BoxHasFourEntries }
{}

pub fn ragged_grid_has_entries()
    ensures { RaggedHasEntries }
{}

pub fn float_has_no_entries()
    ensures { FloatHasNoEntries }
{}

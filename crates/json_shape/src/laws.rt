// What lengths and entries of a grid say of one another, and what is printed for plain values.
ghost use Rattle.json_shape.specs.GridLaws.{GridsAreFull, EntriesAreInPlace, BoxesAreFull, BoxesAreInPlace, StacksAreFull, StacksAreInPlace};
ghost use Rattle.json_shape.specs.Plain.{PlainHasNoFloat, PrintedIsReadBack};

/// A grid has as many entries as the product of its lengths.
pub fn grids_are_full()
    ensures { GridsAreFull }
{}

/// The entries of a grid stand in order, the last index counting fastest.
pub fn entries_are_in_place()
    ensures { EntriesAreInPlace }
{}

/// A grid three arrays deep has a · b · c entries.
pub fn boxes_are_full()
    ensures { BoxesAreFull }
{}

/// In a grid three arrays deep the entry at i, j, k stands at (i · b + j) · c + k.
pub fn boxes_are_in_place()
    ensures { BoxesAreInPlace }
{}

/// A grid four arrays deep has n · a · b · c entries.
pub fn stacks_are_full()
    ensures { StacksAreFull }
{}

/// In a grid four arrays deep the entry at m, i, j, k stands at ((m · a + i) · b + j) · c + k.
pub fn stacks_are_in_place()
    ensures { StacksAreInPlace }
{}

/// A plain value has no float: no number with a fraction, of any size.
pub fn plain_has_no_float()
    ensures { PlainHasNoFloat }
{}

/// The compact text of a plain value, with its line feed, is read back as that value.
pub fn printed_is_read_back()
    ensures { PrintedIsReadBack }
{}

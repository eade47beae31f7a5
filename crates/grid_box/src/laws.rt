// Laws about the definitions, each proved as the contract of a function that does nothing.
ghost use Rattle.grid_box.specs.LookUps.{LookUpsTell};
ghost use Rattle.grid_box.specs.Scans.{PipeEndsByScan};
ghost use Rattle.grid_box.specs.PipeRules.{StaysByAxes};
ghost use Rattle.grid_box.specs.Breaches.{NoBreachIsValid};
ghost use Rattle.grid_box.specs.Reach.{EndsAreNamed};
ghost use Rattle.grid_box.specs.Surfaces.{SheetsTell};

/// Drawings of one size with the same look-ups are one: a drawing's order and its look-ups determine it.
pub fn look_ups_tell()
    ensures { LookUpsTell }
{}

/// The legs of a cell by positions are the ends that a scan of the pipes finds.
pub fn pipe_ends_by_scan()
    ensures { PipeEndsByScan }
{}

/// There is no breach exactly where the diagram is valid.
pub fn no_breach_is_valid()
    ensures { NoBreachIsValid }
{}

/// The rule that pipes stay in the box can be tested axis by axis.
pub fn stays_by_axes()
    ensures { StaysByAxes }
{}

/// Sheets in order are one where the same sheets are listed for each flow.
pub fn sheets_tell()
    ensures { SheetsTell }
{}

/// Both ends of each pipe, each port's place, each forbidden cell and each Y cell are cells that a rule can name.
pub fn ends_are_named()
    ensures { EndsAreNamed }
{}

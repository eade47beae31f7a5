// Worked diagrams whose first breach, or whose sheets, the definitions give by computation.
ghost use Rattle.grid_box.specs.Examples.{WireIsValid, WireHasBothFlows, WireNeedsASheet, ThreeAxesMeet, ColoursDiffer, PortShowsX, ForbiddenCellIsUsed, ColumnIsValid, OneLegIsADeadEnd, YCubeEndsALeg, CombIsValid, CombHasFlowZz};

pub fn wire_is_valid()
    ensures { WireIsValid }
{}

pub fn wire_has_both_flows()
    ensures { WireHasBothFlows }
{}

pub fn wire_needs_a_sheet()
    ensures { WireNeedsASheet }
{}

pub fn three_axes_meet_at_0_0_1()
    ensures { ThreeAxesMeet }
{}

pub fn colours_differ_at_0_0_1()
    ensures { ColoursDiffer }
{}

pub fn port_shows_x_at_0_0_0()
    ensures { PortShowsX }
{}

pub fn forbidden_cell_is_used_at_0_0_1()
    ensures { ForbiddenCellIsUsed }
{}

pub fn column_is_valid()
    ensures { ColumnIsValid }
{}

pub fn one_leg_is_a_dead_end_at_0_0_0()
    ensures { OneLegIsADeadEnd }
{}

pub fn y_cube_ends_a_leg()
    ensures { YCubeEndsALeg }
{}

pub fn comb_is_valid()
    ensures { CombIsValid }
{}

pub fn comb_has_flow_zz()
    ensures { CombHasFlowZz }
{}

// Worked clauses and values, each named for what it shows.
ghost use Rattle.cnf_table.specs.Examples.{WireHas33Clauses, WireBeginsWithItsBox, WireSatisfies, WireValues, YPortHas43Clauses, CrossedWireContradicts, ColumnSatisfies, BrokenColumnsFail, SizesAreKnown};

#[tactic(auto, unfolding(crate::specs::Values::values, crate::specs::Clauses::clause_table))]
pub fn wire_has_33_clauses()
    ensures { WireHas33Clauses }
{}

#[tactic(auto, unfolding(crate::specs::Values::values, crate::specs::Clauses::clause_table))]
pub fn wire_begins_with_its_box()
    ensures { WireBeginsWithItsBox }
{}

#[tactic(auto, unfolding(crate::specs::Values::values, crate::specs::Clauses::clause_table))]
pub fn wire_satisfies()
    ensures { WireSatisfies }
{}

#[tactic(auto, unfolding(crate::specs::Values::values, crate::specs::Clauses::clause_table))]
pub fn wire_values_are_3_12_and_19()
    ensures { WireValues }
{}

#[tactic(auto, unfolding(crate::specs::Values::values, crate::specs::Clauses::clause_table))]
pub fn y_port_has_43_clauses()
    ensures { YPortHas43Clauses }
{}

#[tactic(auto, unfolding(crate::specs::Values::values, crate::specs::Clauses::clause_table))]
pub fn crossed_wire_contradicts()
    ensures { CrossedWireContradicts }
{}

#[tactic(auto, unfolding(crate::specs::Values::values, crate::specs::Clauses::clause_table))]
pub fn column_satisfies()
    ensures { ColumnSatisfies }
{}

#[tactic(auto, unfolding(crate::specs::Values::values, crate::specs::Clauses::clause_table))]
pub fn broken_columns_fail()
    ensures { BrokenColumnsFail }
{}

#[tactic(auto, unfolding(crate::specs::Clauses::clause_table))]
pub fn sizes_are_known()
    ensures { SizesAreKnown }
{}

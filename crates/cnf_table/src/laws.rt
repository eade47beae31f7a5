// Laws about the clause table, each proved as the contract of a function that does nothing.
ghost use Rattle.cnf_table.specs.Parity.{ParityLaw};
ghost use Rattle.cnf_table.specs.Exact.{ShownIsExact, TableIsExact};

/// The clauses on parity leave the even values.
pub fn parity_law()
    ensures { ParityLaw }
{}

/// Values that show a diagram with its sheets make every clause true exactly where the diagram is valid
/// and the sheets serve each flow.
pub fn shown_is_exact()
    ensures { ShownIsExact }
{}

/// The values of a diagram with its sheets make every clause true exactly where the diagram is valid and
/// the sheets serve each flow.
pub fn table_is_exact()
    ensures { TableIsExact }
{}

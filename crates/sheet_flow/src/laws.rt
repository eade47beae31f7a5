// Laws about sheets and labels, each proved as the contract of a function that does nothing.
ghost use Rattle.sheet_flow.specs.FromSheets.{SheetsGiveLabels, LabelsGiveSheets, SheetsAreFlows};
ghost use Rattle.sheet_flow.specs.Joints.{JointLaw, StraightLaw};

/// At one cell, the rule of sheets on an axis with no leg is the rule of a spider of the kind shown there.
pub fn joint_law()
    ensures { JointLaw }
{}

/// Two legs along one axis join on both others, or on neither.
pub fn straight_law()
    ensures { StraightLaw }
{}

/// Sheets that serve give labels that obey the rules.
pub fn sheets_give_labels()
    ensures { SheetsGiveLabels }
{}

/// Labels that obey the rules give sheets that serve.
pub fn labels_give_sheets()
    ensures { LabelsGiveSheets }
{}

/// There are sheets that serve a flow exactly where the graph has it, for every job, valid diagram and word.
pub fn sheets_are_flows()
    ensures { SheetsAreFlows }
{}

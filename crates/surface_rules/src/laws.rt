// What it means that no rule of sheets is broken.
ghost use Rattle.surface_rules.specs.Serving.{NoBreachServes};

/// There is no breach of a rule of sheets exactly where the sheets serve the flow.
pub fn no_breach_serves()
    ensures { NoBreachServes }
{}

//! What is known of an arena whose literals were lent to be written.
ghost use Rattle.clause_arena.specs.Lending.{LitsChanged};

/// Other literals in a live clause, as many as it has, change that clause's literals and nothing else.
pub fn lits_changed()
    ensures { LitsChanged }
{}

// What is known of logs and of unit steps, for the crates above to cite.
ghost use Rattle.cnf_base.specs.Units.{ClosedHidesNothing};
ghost use Rattle.cnf_base.specs.Logs.{AcceptedIsExact, LogsRefute};
ghost use Rattle.cnf_base.specs.Lessons.{LessonsJoin, ChainsGrow, CodesAreFew, CodesTell, TwinIsAbsorbed};

/// A log is accepted exactly where each of its steps passes in its turn, the last one adds the empty clause,
/// and no other does.
pub fn accepted_is_exact()
    ensures { AcceptedIsExact }
{}

/// No values satisfy a formula with an accepted log.
pub fn logs_refute()
    ensures { LogsRefute }
{}

/// Unit steps from literals of a closed list reach nothing outside it.
pub fn closed_hides_nothing()
    ensures { ClosedHidesNothing }
{}

/// A chain of unit steps from fewer literals goes as far from more, or to a false clause.
pub fn chains_grow()
    ensures { ChainsGrow }
{}

/// A clause beside one that it repeats, but for literals that a chain makes false, is absorbed.
pub fn twin_is_absorbed()
    ensures { TwinIsAbsorbed }
{}

/// A clause as a number, over n variables, is below 3 to the power n.
pub fn codes_are_few()
    ensures { CodesAreFew }
{}

/// Clauses of one number stand alike at each of the variables.
pub fn codes_tell()
    ensures { CodesTell }
{}

/// What each step of a log of lessons obeys holds along the whole exactly where it holds along both parts.
pub fn lessons_join()
    ensures { LessonsJoin }
{}

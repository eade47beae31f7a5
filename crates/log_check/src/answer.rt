// What a checker answers.
use std::alloc::AllocError;

/// What a log comes to.
#[derive(Clone, Copy, PartialEq, Eq, Debug)]
pub enum Check {
    /// Every step passes, the last adds the empty clause, and the log ends there: no values satisfy the formula.
    Accepted,
    /// The first line that fails, from 1, and the number of the first reason: 1 not of the form, 2 an id that
    /// is not above all before it, 3 a variable that the formula lacks, or one that stands twice, 4 a hint or a
    /// removed id that is not live, 5 a hint with two or more literals that are not false, 6 a hint before the
    /// last whose clause is false, 7 no hint, or a last one whose clause is not false, 8 a line behind the empty
    /// clause, 9 no empty clause.
    Rejected { line: u64, why: u8 },
}

/// Why a log was not judged.
#[derive(Clone, Copy, PartialEq, Eq, Debug)]
pub enum CheckRefused {
    TooLong,
    ShelfFault,
    Memory,
}

impl From<AllocError> for CheckRefused {
    ghost use Rattle.std.specs.Prelude.{◌≡◌};
    ghost use Rattle.log_check.specs.declared.answer.CheckRefused.TheVariants.{Memory};

    ghost from_gives = { λ _ e. e ≡ Memory };

    fn from(_: AllocError) -> Self {
        CheckRefused::Memory
    }
}

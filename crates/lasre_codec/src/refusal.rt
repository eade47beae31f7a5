// Why a document of a diagram is refused, and the text that says so.
use crate::Member;
use json_shape::Entry;
use las_spec::SpecRefused;
use std::alloc::{AllocError, AllocFailed};
use std::fmt;

/// The refusals in their order.
#[derive(Clone, Copy, PartialEq, Eq, Debug)]
pub enum LasreRefused {
    NotJson,
    NotObject,
    /// A member is needed, and absent.
    Missing(Member),
    /// A member is no number, no array of ports, no grid, and so on.
    Shape(Member),
    /// A refusal of the job: of a specification, without its boxes.
    OfJob(SpecRefused),
    /// A grid has an array of a wrong length.
    Length(Member),
    /// A value that counts is neither 0 nor 1: its place counts cells in their order, and flow after flow.
    Bit(Member, usize),
    Memory,
}

impl From<AllocError> for LasreRefused {
    ghost use Rattle.std.specs.Prelude.{◌≡◌};
    ghost use Rattle.lasre_codec.specs.declared.refusal.LasreRefused.TheVariants.{Memory};

    ghost from_gives = { λ _ e. e ≡ Memory };

    fn from(_: AllocError) -> Self {
        LasreRefused::Memory
    }
}

impl From<AllocFailed<Vec<Entry>>> for LasreRefused {
    ghost use Rattle.std.specs.Prelude.{◌≡◌};
    ghost use Rattle.lasre_codec.specs.declared.refusal.LasreRefused.TheVariants.{Memory};

    ghost from_gives = { λ _ e. e ≡ Memory };

    fn from(_: AllocFailed<Vec<Entry>>) -> Self {
        LasreRefused::Memory
    }
}

impl fmt::Display for LasreRefused {
    ghost use Rattle.std.specs.Prelude.{Some};
    ghost use Rattle.lasre_codec.specs.Texts.{refusal_text};

    ghost output = { λ r. Some (refusal_text r) };

    fn fmt<W: fmt::Write>(&self, f: &mut fmt::Formatter<W>) -> fmt::Result {
        match *self {
            LasreRefused::NotJson => write!(f, "not json"),
            LasreRefused::NotObject => write!(f, "not an object"),
            LasreRefused::Missing(member) => write!(f, "missing {member}"),
            LasreRefused::Shape(member) => write!(f, "shape {member}"),
            LasreRefused::OfJob(refusal) => write!(f, "{refusal}"),
            LasreRefused::Length(member) => write!(f, "length {member}"),
            LasreRefused::Bit(member, place) => write!(f, "bit {member} {place}"),
            LasreRefused::Memory => write!(f, "memory"),
        }
    }
}

impl std::error::Error for LasreRefused {}

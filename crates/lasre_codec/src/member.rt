// The members of a document of a diagram.
ghost use Rattle.std.specs.Prelude.{◌≡◌};
ghost use Rattle.lasre_codec.specs.Members.{member_name, member_number, member_of, is_stack, axis_told, pipes_along, colours_of, sheets_along};

use las_base::{Axis, End};
use las_spec::Field;
use std::fmt;

/// A member of a document of a diagram, in the order in which they are written, which is that of their names.
#[derive(Clone, Copy, PartialEq, Eq, Debug)]
pub enum Member {
    ColorI,
    ColorJ,
    ColorKM,
    ColorKP,
    CorrIJ,
    CorrIK,
    CorrJI,
    CorrJK,
    CorrKI,
    CorrKJ,
    ExistI,
    ExistJ,
    ExistK,
    NodeY,
    MaxI,
    MaxJ,
    MaxK,
    Optional,
    Ports,
    Stabilizers,
}

/// All members, in the order of their names.
pub(crate) const MEMBERS: [Member; 20] = [
    Member::ColorI,
    Member::ColorJ,
    Member::ColorKM,
    Member::ColorKP,
    Member::CorrIJ,
    Member::CorrIK,
    Member::CorrJI,
    Member::CorrJK,
    Member::CorrKI,
    Member::CorrKJ,
    Member::ExistI,
    Member::ExistJ,
    Member::ExistK,
    Member::NodeY,
    Member::MaxI,
    Member::MaxJ,
    Member::MaxK,
    Member::Optional,
    Member::Ports,
    Member::Stabilizers,
];

/// The grids, in the order of their names.
pub(crate) const GRIDS: [Member; 14] = [
    Member::ColorI,
    Member::ColorJ,
    Member::ColorKM,
    Member::ColorKP,
    Member::CorrIJ,
    Member::CorrIK,
    Member::CorrJI,
    Member::CorrJK,
    Member::CorrKI,
    Member::CorrKJ,
    Member::ExistI,
    Member::ExistJ,
    Member::ExistK,
    Member::NodeY,
];

/// The grids, in the order in which their entries are tested.
pub(crate) const TESTED: [Member; 14] = [
    Member::NodeY,
    Member::ExistI,
    Member::ExistJ,
    Member::ExistK,
    Member::ColorI,
    Member::ColorJ,
    Member::ColorKM,
    Member::ColorKP,
    Member::CorrIJ,
    Member::CorrIK,
    Member::CorrJI,
    Member::CorrJK,
    Member::CorrKI,
    Member::CorrKJ,
];

impl Member {
    /// The member's name in a document.
    pub fn name(self) -> &'static str
        ensures { result.now ≡ member_name self }
    {
        match self {
            Member::ColorI => "ColorI",
            Member::ColorJ => "ColorJ",
            Member::ColorKM => "ColorKM",
            Member::ColorKP => "ColorKP",
            Member::CorrIJ => "CorrIJ",
            Member::CorrIK => "CorrIK",
            Member::CorrJI => "CorrJI",
            Member::CorrJK => "CorrJK",
            Member::CorrKI => "CorrKI",
            Member::CorrKJ => "CorrKJ",
            Member::ExistI => "ExistI",
            Member::ExistJ => "ExistJ",
            Member::ExistK => "ExistK",
            Member::NodeY => "NodeY",
            Member::MaxI => "max_i",
            Member::MaxJ => "max_j",
            Member::MaxK => "max_k",
            Member::Optional => "optional",
            Member::Ports => "ports",
            Member::Stabilizers => "stabilizers",
        }
    }

    /// Where it stands in the order of names, from 0 on.
    pub(crate) fn number(self) -> usize
        ensures { result ≡ member_number self }
    {
        self as usize
    }

    /// The member of a document that holds a member of a job: forbidden cells stand in the options.
    pub(crate) fn of(field: Field) -> Member
        ensures { result ≡ member_of field }
    {
        match field {
            Field::MaxI => Member::MaxI,
            Field::MaxJ => Member::MaxJ,
            Field::MaxK => Member::MaxK,
            Field::Ports => Member::Ports,
            Field::Stabilizers => Member::Stabilizers,
            Field::Optional | Field::ForbiddenCubes | Field::Boxes => Member::Optional,
        }
    }

    /// Whether it has one grid for each flow.
    pub(crate) fn is_stack(self) -> bool
        ensures { result ≡ is_stack self }
    {
        matches!(
            self,
            Member::CorrIJ
                | Member::CorrIK
                | Member::CorrJI
                | Member::CorrJK
                | Member::CorrKI
                | Member::CorrKJ
        )
    }

    /// The axis of the pipes whose colours or sheets it tells.
    pub(crate) fn axis_told(self) -> Option<Axis>
        ensures { result ≡ axis_told self }
    {
        match self {
            Member::ColorI | Member::CorrIJ | Member::CorrIK => Some(Axis::I),
            Member::ColorJ | Member::CorrJI | Member::CorrJK => Some(Axis::J),
            Member::ColorKM | Member::ColorKP | Member::CorrKI | Member::CorrKJ => Some(Axis::K),
            _ => None,
        }
    }

    /// The grid of the pipes along an axis.
    pub(crate) fn pipes_along(axis: Axis) -> Member
        ensures { result ≡ pipes_along axis }
    {
        match axis {
            Axis::I => Member::ExistI,
            Axis::J => Member::ExistJ,
            Axis::K => Member::ExistK,
        }
    }

    /// The grid of the colours of the pipes along an axis, at one end.
    pub(crate) fn colours_of(axis: Axis, end: End) -> Member
        ensures { result ≡ colours_of axis end }
    {
        match (axis, end) {
            (Axis::I, _) => Member::ColorI,
            (Axis::J, _) => Member::ColorJ,
            (Axis::K, End::Low) => Member::ColorKM,
            (Axis::K, End::High) => Member::ColorKP,
        }
    }

    /// The grid of the sheets of the pipes along an axis that span another.
    pub(crate) fn sheets_along(axis: Axis, span: Axis) -> Member
        ensures { result ≡ sheets_along axis span }
    {
        match (axis, span) {
            (Axis::I, Axis::J) => Member::CorrIJ,
            (Axis::I, _) => Member::CorrIK,
            (Axis::J, Axis::I) => Member::CorrJI,
            (Axis::J, _) => Member::CorrJK,
            (Axis::K, Axis::I) => Member::CorrKI,
            (Axis::K, _) => Member::CorrKJ,
        }
    }
}

impl fmt::Display for Member {
    ghost use Rattle.std.specs.Prelude.{Some};
    ghost use Rattle.lasre_codec.specs.Members.{member_name};

    ghost output = { λ m. Some (member_name m) };

    fn fmt<W: fmt::Write>(&self, f: &mut fmt::Formatter<W>) -> fmt::Result {
        f.write_str(self.name())
    }
}

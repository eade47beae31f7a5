// Why a specification is refused, and the text that says so.
ghost use Rattle.std.specs.Prelude.{◌≡◌, IfOk, string_bytes};
ghost use Rattle.las_spec.specs.Texts.{field_name, refusal_text};

use std::alloc::{AllocError, Global};
use std::fmt;

/// A member of a specification document.
#[derive(Clone, Copy, PartialEq, Eq, Debug)]
pub enum Field {
    MaxI,
    MaxJ,
    MaxK,
    Ports,
    Stabilizers,
    Optional,
    ForbiddenCubes,
    Boxes,
}

/// The refusals in their order. Numbers of ports, flows, letters, cells and boxes count from 0, as they are
/// written.
#[derive(Clone, Copy, PartialEq, Eq, Debug)]
pub enum SpecRefused {
    NotJson,
    NotObject,
    Missing(Field),
    Shape(Field),
    SizeOut,
    PortCount,
    PortWay(usize),
    PortBasis(usize),
    PortPlace(usize),
    /// The later port repeats the place of the earlier: `PortTwice(earlier, later)`.
    PortTwice(usize, usize),
    FlowCount,
    FlowLength(usize),
    FlowLetter(usize, usize),
    ForbiddenPlace(usize),
    BoxCount,
    BoxSize(usize),
    BoxPort(usize, usize),
    Memory,
}

impl From<AllocError> for SpecRefused {
    ghost use Rattle.std.specs.Prelude.{◌≡◌};
    ghost use Rattle.las_spec.specs.declared.refusal.SpecRefused.TheVariants.{Memory};

    ghost from_gives = { λ _ e. e ≡ Memory };

    fn from(_: AllocError) -> Self {
        SpecRefused::Memory
    }
}

impl Field {
    /// The member's name in a document.
    pub fn name(self) -> &'static str
        ensures { result.now ≡ field_name self }
    {
        match self {
            Field::MaxI => "max_i",
            Field::MaxJ => "max_j",
            Field::MaxK => "max_k",
            Field::Ports => "ports",
            Field::Stabilizers => "stabilizers",
            Field::Optional => "optional",
            Field::ForbiddenCubes => "forbidden_cubes",
            Field::Boxes => "boxes",
        }
    }
}

impl fmt::Display for Field {
    ghost use Rattle.std.specs.Prelude.{Some};
    ghost use Rattle.las_spec.specs.Texts.{field_name};

    ghost output = { λ f. Some (field_name f) };

    fn fmt<W: fmt::Write>(&self, f: &mut fmt::Formatter<W>) -> fmt::Result {
        f.write_str(self.name())
    }
}

impl fmt::Display for SpecRefused {
    ghost use Rattle.std.specs.Prelude.{Some};
    ghost use Rattle.las_spec.specs.Texts.{refusal_text};

    ghost output = { λ r. Some (refusal_text r) };

    fn fmt<W: fmt::Write>(&self, f: &mut fmt::Formatter<W>) -> fmt::Result {
        match *self {
            SpecRefused::NotJson => f.write_str("not json"),
            SpecRefused::NotObject => f.write_str("not an object"),
            SpecRefused::Missing(field) => write!(f, "missing {field}"),
            SpecRefused::Shape(field) => write!(f, "shape {field}"),
            SpecRefused::SizeOut => f.write_str("size"),
            SpecRefused::PortCount => f.write_str("port count"),
            SpecRefused::PortWay(port) => write!(f, "port {port} direction"),
            SpecRefused::PortBasis(port) => write!(f, "port {port} basis"),
            SpecRefused::PortPlace(port) => write!(f, "port {port} place"),
            SpecRefused::PortTwice(earlier, later) => write!(f, "port {later} repeats {earlier}"),
            SpecRefused::FlowCount => f.write_str("flow count"),
            SpecRefused::FlowLength(flow) => write!(f, "flow {flow} length"),
            SpecRefused::FlowLetter(flow, letter) => write!(f, "flow {flow} letter {letter}"),
            SpecRefused::ForbiddenPlace(cell) => write!(f, "forbidden {cell} place"),
            SpecRefused::BoxCount => f.write_str("box count"),
            SpecRefused::BoxSize(number) => write!(f, "box {number} size"),
            SpecRefused::BoxPort(number, port) => write!(f, "box {number} port {port}"),
            SpecRefused::Memory => f.write_str("memory"),
        }
    }
}

impl std::error::Error for SpecRefused {}

/// The text of a refusal, in ASCII and with no line feed.
pub fn refusal_text(alloc: Global, refusal: SpecRefused) -> Result<String, AllocError>
    ensures { IfOk result (λ s. string_bytes s ≡ refusal_text refusal) }
{
    format!(in alloc; "{refusal}")
}

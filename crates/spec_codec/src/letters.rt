// What the letters of a document say: axes, directions, flows.
ghost use Rattle.std.specs.Prelude.{◌≡◌, IfOk};
ghost use Rattle.spec_codec.specs.Documents.{axis_letter, way_sign, axis_text, direction_text, pauli_letter, word_of};

use las_base::{Axis, Pauli, Way};
use std::alloc::{AllocError, Global};

fn axis_letter(letter: u8) -> Option<Axis>
    ensures { result ≡ axis_letter letter }
{
    match letter {
        b'I' => Some(Axis::I),
        b'J' => Some(Axis::J),
        b'K' => Some(Axis::K),
        _ => None,
    }
}

fn way_sign(sign: u8) -> Option<Way>
    ensures { result ≡ way_sign sign }
{
    match sign {
        b'+' => Some(Way::Plus),
        b'-' => Some(Way::Minus),
        _ => None,
    }
}

/// An axis by its letter.
pub fn axis_text(text: &str) -> Option<Axis>
    ensures { result ≡ axis_text text.now }
{
    match text.as_bytes() {
        [letter] => axis_letter(*letter),
        _ => None,
    }
}

/// A direction by its sign and its letter.
pub fn direction_text(text: &str) -> Option<(Way, Axis)>
    ensures { result ≡ direction_text text.now }
{
    match text.as_bytes() {
        [sign, letter] => Some((way_sign(*sign)?, axis_letter(*letter)?)),
        _ => None,
    }
}

fn pauli_letter(letter: char) -> Option<Pauli>
    ensures { result ≡ pauli_letter letter }
{
    match letter {
        'X' => Some(Pauli::X),
        'Y' => Some(Pauli::Y),
        'Z' => Some(Pauli::Z),
        '.' => Some(Pauli::One),
        _ => None,
    }
}

/// A letter for each character of a flow's text.
pub(crate) fn read_word(alloc: Global, text: &str) -> Result<Vec<Option<Pauli>>, AllocError>
    ensures { IfOk result (λ v. v.items ≡ word_of text.now) }
{
    text.chars().map(pauli_letter).collect(alloc)
}

// The normal form of a specification. Its parts are built as values, and serde_json writes the whole.
ghost use Rattle.std.specs.Prelude.{◌≡◌, ◌<◌, map, IfOk, Ok};
ghost use Rattle.serde_json.specs.View.{view};
ghost use Rattle.las_spec.specs.Briefs.{IsBrief};
ghost use Rattle.spec_codec.specs.Readings.{spec_of};
ghost use Rattle.las_spec.specs.Texts.{letter_of};
ghost use Rattle.spec_codec.specs.Texts.{array_of, whole_value, cell_value, size_value, axis_word, direction_word, port_value, word_value, options_value, spec_value, spec_text_of};

use las_base::{Axis, Cell, Pauli, Port, Size, Way};
use las_spec::{FlowWord, Spec};
use serde_json::{Value, json};
use std::alloc::{AllocError, Global};

fn cell_value(alloc: Global, cell: Cell) -> Result<Value, AllocError>
    ensures { IfOk result (λ v. view v ≡ cell_value cell) }
{
    json!(in alloc; [cell.i, cell.j, cell.k])
}

fn size_value(alloc: Global, size: Size) -> Result<Value, AllocError>
    ensures { IfOk result (λ v. view v ≡ size_value size) }
{
    json!(in alloc; [size.i, size.j, size.k])
}

fn axis_word(axis: Axis) -> &'static str
    ensures { result.now ≡ axis_word axis }
{
    match axis {
        Axis::I => "I",
        Axis::J => "J",
        Axis::K => "K",
    }
}

fn direction_word(way: Way, axis: Axis) -> &'static str
    ensures { result.now ≡ direction_word way axis }
{
    match way {
        Way::Plus => match axis {
            Axis::I => "+I",
            Axis::J => "+J",
            Axis::K => "+K",
        },
        Way::Minus => match axis {
            Axis::I => "-I",
            Axis::J => "-J",
            Axis::K => "-K",
        },
    }
}

fn port_value(alloc: Global, port: Port) -> Result<Value, AllocError>
    ensures { IfOk result (λ v. view v ≡ port_value port) }
{
    let place = cell_value(alloc, port.place)?;
    json!(in alloc; {
        "direction": direction_word(port.way, port.axis),
        "location": place,
        "z_basis_direction": axis_word(port.z_axis)
    })
}

fn letter_of(letter: Pauli) -> char
    ensures value { result ≡ letter_of letter }
    ensures ascii { result < 128 }
{
    match letter {
        Pauli::One => '.',
        Pauli::X => 'X',
        Pauli::Y => 'Y',
        Pauli::Z => 'Z',
    }
}

fn word_value(alloc: Global, word: &FlowWord) -> Result<Value, AllocError>
    ensures { IfOk result (λ v. view v ≡ word_value word.now) }
{
    let mut text = String::new(alloc);
    for letter in word.letters() {
        text.push(letter_of(*letter))?;
    }
    Ok(Value::String(text))
}

fn cell_values(alloc: Global, cells: &[Cell]) -> Result<Value, AllocError>
    ensures { IfOk result (λ v. view v ≡ array_of (map cell_value cells.now)) }
{
    let mut values = Vec::new(alloc);
    for cell in cells {
        values.push(cell_value(alloc, *cell)?)?;
    }
    Ok(Value::Array(values))
}

/// The ports of a document, as an array of objects.
pub fn port_values(alloc: Global, ports: &[Port]) -> Result<Value, AllocError>
    ensures { IfOk result (λ v. view v ≡ array_of (map port_value ports.now)) }
{
    let mut values = Vec::new(alloc);
    for port in ports {
        values.push(port_value(alloc, *port)?)?;
    }
    Ok(Value::Array(values))
}

/// The flows of a document, as an array of texts.
pub fn word_values(alloc: Global, words: &[FlowWord]) -> Result<Value, AllocError>
    ensures { IfOk result (λ v. view v ≡ array_of (map word_value words.now)) }
{
    let mut values = Vec::new(alloc);
    for word in words {
        values.push(word_value(alloc, word)?)?;
    }
    Ok(Value::Array(values))
}

/// The options of a document: the forbidden cells alone.
pub fn options_value(alloc: Global, forbidden: &[Cell]) -> Result<Value, AllocError>
    ensures { IfOk result (λ v. view v ≡ options_value forbidden.now) }
{
    let cells = cell_values(alloc, forbidden)?;
    json!(in alloc; {"forbidden_cubes": cells})
}

fn box_values(alloc: Global, spec: &Spec) -> Result<Value, AllocError>
    ensures { IfOk result (λ v. view v ≡ array_of (map size_value spec.now.boxes)) }
{
    let mut values = Vec::new(alloc);
    for number in 0..spec.box_count() {
        values.push(size_value(alloc, spec.box_at(number))?)?;
    }
    Ok(Value::Array(values))
}

#[tactic(auto, unfolding(crate::specs::Texts::spec_value))]
fn spec_value(alloc: Global, spec: &Spec) -> Result<Value, AllocError>
    ensures value { IfOk result (λ v. view v ≡ spec_value spec.now) }
    ensures kept { IsBrief spec.now }
{
    let size = spec.size();
    let boxes = box_values(alloc, spec)?;
    let options = options_value(alloc, spec.forbidden())?;
    let ports = port_values(alloc, spec.ports())?;
    let flows = word_values(alloc, spec.flows())?;
    json!(in alloc; {
        "boxes": boxes,
        "max_i": size.i,
        "max_j": size.j,
        "max_k": size.k,
        "optional": options,
        "ports": ports,
        "stabilizers": flows
    })
}

/// The normal form of a specification: one line of JSON, with its line feed. It is read back as the same
/// specification.
pub fn spec_text(alloc: Global, spec: &Spec) -> Result<Vec<u8>, AllocError>
    ensures text { IfOk result (λ v. v.items ≡ spec_text_of spec.now) }
    ensures read_back { IfOk result (λ v. spec_of v.items ≡ Ok spec.now) }
{
    let mut text = spec_value(alloc, spec)?.to_vec(alloc)?;
    text.push(b'\n')?;
    Ok(text)
}

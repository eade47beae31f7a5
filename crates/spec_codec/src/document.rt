// Reading a document's value into a draft. Each member is one reader, which gives none where the member
// has not its shape.
ghost use Rattle.std.specs.Prelude.{◌≡◌, ◌≢◌, codes, map, Some, None, true, is_none, IfOk, IfErr, option_map, option_and_then};
ghost use Rattle.std.specs.List.{find};
ghost use Rattle.std.specs.Option.{option_map_or};
ghost use Rattle.serde_json.specs.View.{view};
ghost use Rattle.serde_json.specs.Find.{get};
ghost use Rattle.json_shape.specs.Arrays.{array_items, each, is_object, objects};
ghost use Rattle.json_shape.specs.Numbers.{triple};
ghost use Rattle.las_spec.specs.declared.refusal.Field.TheVariants.{MaxI, MaxJ, MaxK, Optional};
ghost use Rattle.las_spec.specs.declared.refusal.SpecRefused.TheVariants.{Memory, Shape};
ghost use Rattle.las_spec.specs.Written.{written_as};
ghost use Rattle.las_spec.specs.Texts.{field_name};
ghost use Rattle.spec_codec.specs.Documents.{word_in, cell_of, size_of, port_in, ports_in, words_in, triples, cubes_in, forbidden_in, boxes_in, has_shape, missing_in, size_in, misshapen_in, written_in};
ghost use Rattle.spec_codec.specs.Readings.{job_misshapen_in, job_written_in};

use crate::letters::{axis_text, direction_text, read_word};
use json_shape::{array_items, objects, triple, whole_member};
use las_base::{Cell, Pauli, Size};
use las_spec::{Draft, Field, SpecRefused, WrittenPort};
use serde_json::Value;
use std::alloc::{AllocError, Global};

const NEEDED: [Field; 5] = [
    Field::MaxI,
    Field::MaxJ,
    Field::MaxK,
    Field::Ports,
    Field::Stabilizers,
];

fn read_port(value: &Value) -> Option<WrittenPort>
    ensures { result ≡ port_in (view value.now) }
{
    let (i, j, k) = triple(value.get("location")?)?;
    let direction = value.get("direction")?.as_str()?;
    let z_axis = value.get("z_basis_direction")?.as_str()?;
    Some(WrittenPort {
        place: Cell { i, j, k },
        direction: direction_text(direction),
        z_axis: axis_text(z_axis),
    })
}

// The ports that these objects write, where each writes one.
fn ports_of(alloc: Global, values: &[Value]) -> Result<Option<Vec<WrittenPort>>, AllocError>
    ensures { IfOk result (λ o. option_map (λ v. v.items) o ≡ each port_in (map view values.now)) }
{
    let mut ports = Vec::new(alloc);
    for value in values {
        match read_port(value) {
            Some(port) => ports.push(port)?,
            None => return Ok(None),
        }
    }
    Ok(Some(ports))
}

// The objects of the member `ports`.
fn port_list(value: &Value) -> Option<&[Value]>
    ensures { option_map (λ vs. map view vs.now) result ≡ option_and_then objects (get (codes "ports") (view value.now)) }
{
    objects(value.get(Field::Ports.name())?)
}

fn read_ports(alloc: Global, value: &Value) -> Result<Option<Vec<WrittenPort>>, AllocError>
    ensures { IfOk result (λ o. option_map (λ v. v.items) o ≡ ports_in (view value.now)) }
{
    match port_list(value) {
        Some(values) => ports_of(alloc, values),
        None => Ok(None),
    }
}

// The words of these texts, where each is a text.
fn words_of(alloc: Global, values: &[Value]) -> Result<Option<Vec<Vec<Option<Pauli>>>>, AllocError>
    ensures { IfOk result (λ o. option_map (λ v. map (λ w. w.items) v.items) o ≡ each word_in (map view values.now)) }
{
    let mut words = Vec::new(alloc);
    for value in values {
        match value.as_str() {
            Some(text) => words.push(read_word(alloc, text)?)?,
            None => return Ok(None),
        }
    }
    Ok(Some(words))
}

// The items of the member `stabilizers`.
fn word_list(value: &Value) -> Option<&[Value]>
    ensures { option_map (λ vs. map view vs.now) result ≡ option_and_then array_items (get (codes "stabilizers") (view value.now)) }
{
    array_items(value.get(Field::Stabilizers.name())?)
}

fn read_words(alloc: Global, value: &Value) -> Result<Option<Vec<Vec<Option<Pauli>>>>, AllocError>
    ensures { IfOk result (λ o. option_map (λ v. map (λ w. w.items) v.items) o ≡ words_in (view value.now)) }
{
    match word_list(value) {
        Some(values) => words_of(alloc, values),
        None => Ok(None),
    }
}

// The triples of these arrays, where each is one.
fn triples_of(alloc: Global, values: &[Value]) -> Result<Option<Vec<(u32, u32, u32)>>, AllocError>
    ensures { IfOk result (λ o. option_map (λ v. v.items) o ≡ each triple (map view values.now)) }
{
    let mut triples = Vec::new(alloc);
    for value in values {
        match triple(value) {
            Some(numbers) => triples.push(numbers)?,
            None => return Ok(None),
        }
    }
    Ok(Some(triples))
}

fn triples(alloc: Global, value: &Value) -> Result<Option<Vec<(u32, u32, u32)>>, AllocError>
    ensures { IfOk result (λ o. option_map (λ v. v.items) o ≡ triples (view value.now)) }
{
    match array_items(value) {
        Some(values) => triples_of(alloc, values),
        None => Ok(None),
    }
}

fn cell_of(numbers: (u32, u32, u32)) -> Cell
    ensures { result ≡ cell_of numbers }
{
    let (i, j, k) = numbers;
    Cell { i, j, k }
}

fn size_of(numbers: (u32, u32, u32)) -> Size
    ensures { result ≡ size_of numbers }
{
    let (i, j, k) = numbers;
    Size { i, j, k }
}

// The forbidden cells of the options.
fn read_cubes(alloc: Global, options: &Value) -> Result<Option<Vec<Cell>>, AllocError>
    ensures { IfOk result (λ o. option_map (λ v. v.items) o ≡ cubes_in (view options.now)) }
{
    match options.get(Field::ForbiddenCubes.name()) {
        Some(cubes) => match triples(alloc, cubes)? {
            Some(triples) => Ok(Some(triples.into_iter().map(cell_of).collect(alloc)?)),
            None => Ok(None),
        },
        None => Ok(Some(Vec::new(alloc))),
    }
}

fn read_forbidden(alloc: Global, value: &Value) -> Result<Option<Vec<Cell>>, AllocError>
    ensures { IfOk result (λ o. option_map (λ v. v.items) o ≡ forbidden_in (view value.now)) }
{
    match value.get(Field::Optional.name()) {
        Some(options) => read_cubes(alloc, options),
        None => Ok(Some(Vec::new(alloc))),
    }
}

// The boxes, for a specification of this size.
fn read_boxes(alloc: Global, own: Size, value: &Value) -> Result<Option<Vec<Size>>, AllocError>
    ensures { IfOk result (λ o. option_map (λ v. v.items) o ≡ boxes_in own (view value.now)) }
{
    match value.get(Field::Boxes.name()) {
        Some(boxes) => match triples(alloc, boxes)? {
            Some(triples) => Ok(Some(triples.into_iter().map(size_of).collect(alloc)?)),
            None => Ok(None),
        },
        None => Ok(Some(vec![in alloc; own]?)),
    }
}

// Whether the options are an object, where they are there.
fn has_options(value: &Value) -> bool
    ensures { result ≡ has_shape (view value.now) Optional }
{
    match value.get(Field::Optional.name()) {
        Some(options) => options.is_object(),
        None => true,
    }
}

fn first_absent(value: &Value, members: &[Field]) -> Option<Field>
    ensures { result ≡ find (λ f. is_none (get (field_name f) (view value.now))) members.now }
{
    members
        .iter()
        .copied()
        .find(|member| value.get(member.name()).is_none())
}

/// The first needed member that is absent.
pub(crate) fn missing(value: &Value) -> Option<Field>
    ensures { result ≡ missing_in (view value.now) }
{
    first_absent(value, &NEEDED)
}

// The size that the value writes, or the first of its sides that has not its shape.
fn read_size(value: &Value) -> Result<Size, SpecRefused>
    ensures size { IfOk result (λ size. size_in (view value.now) ≡ Some size) }
    ensures shapes { IfOk result (λ _. (has_shape (view value.now) MaxI ≡ true) × (has_shape (view value.now) MaxJ ≡ true) × (has_shape (view value.now) MaxK ≡ true)) }
    ensures misshapen { IfErr result (λ e. option_map Shape (misshapen_in (view value.now)) ≡ Some e) }
    ensures job_misshapen { IfErr result (λ e. option_map Shape (job_misshapen_in (view value.now)) ≡ Some e) }
{
    let Some(i) = whole_member(value, Field::MaxI.name()) else {
        return Err(SpecRefused::Shape(Field::MaxI));
    };
    let Some(j) = whole_member(value, Field::MaxJ.name()) else {
        return Err(SpecRefused::Shape(Field::MaxJ));
    };
    let Some(k) = whole_member(value, Field::MaxK.name()) else {
        return Err(SpecRefused::Shape(Field::MaxK));
    };
    Ok(Size { i, j, k })
}

/// What the value writes, or the first member that has not its shape.
#[tactic(auto, unfolding(crate::specs::Documents::written_in))]
pub(crate) fn read_written(alloc: Global, value: &Value) -> Result<Draft, SpecRefused>
    ensures ok { IfOk result (λ draft. (misshapen_in (view value.now) ≡ None) × (written_in (view value.now) ≡ Some (written_as draft))) }
    ensures err { IfErr result (λ e. e ≢ Memory → option_map Shape (misshapen_in (view value.now)) ≡ Some e) }
{
    let size = match read_size(value) {
        Ok(size) => size,
        Err(refusal) => return Err(refusal),
    };
    let Some(ports) = read_ports(alloc, value)? else {
        return Err(SpecRefused::Shape(Field::Ports));
    };
    let Some(words) = read_words(alloc, value)? else {
        return Err(SpecRefused::Shape(Field::Stabilizers));
    };
    if !has_options(value) {
        return Err(SpecRefused::Shape(Field::Optional));
    }
    let Some(forbidden) = read_forbidden(alloc, value)? else {
        return Err(SpecRefused::Shape(Field::ForbiddenCubes));
    };
    let Some(boxes) = read_boxes(alloc, size, value)? else {
        return Err(SpecRefused::Shape(Field::Boxes));
    };
    Ok(Draft {
        size,
        ports,
        words,
        forbidden,
        boxes,
    })
}

/// What the value writes of a job, or the first of a job's members that has not its shape. There are no boxes.
#[tactic(auto, unfolding(crate::specs::Readings::job_written_in))]
pub(crate) fn read_job_written(alloc: Global, value: &Value) -> Result<Draft, SpecRefused>
    ensures ok { IfOk result (λ draft. (job_misshapen_in (view value.now) ≡ None) × (job_written_in (view value.now) ≡ Some (written_as draft))) }
    ensures err { IfErr result (λ e. e ≢ Memory → option_map Shape (job_misshapen_in (view value.now)) ≡ Some e) }
{
    let size = match read_size(value) {
        Ok(size) => size,
        Err(refusal) => return Err(refusal),
    };
    if !has_options(value) {
        return Err(SpecRefused::Shape(Field::Optional));
    }
    let Some(forbidden) = read_forbidden(alloc, value)? else {
        return Err(SpecRefused::Shape(Field::ForbiddenCubes));
    };
    let Some(ports) = read_ports(alloc, value)? else {
        return Err(SpecRefused::Shape(Field::Ports));
    };
    let Some(words) = read_words(alloc, value)? else {
        return Err(SpecRefused::Shape(Field::Stabilizers));
    };
    Ok(Draft {
        size,
        ports,
        words,
        forbidden,
        boxes: Vec::new(alloc),
    })
}

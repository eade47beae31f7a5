// The text of a diagram with its job and its sheets. serde_json writes it, member by member and bit by bit.
ghost use Rattle.std.specs.Prelude.{◌≡◌, length, IfOk, OnOk, Ok};
ghost use Rattle.serde_json.specs.Events.{SendsValue};
ghost use Rattle.lasre_codec.specs.Documents.{lasre_as, lasre_of, without_absent};
ghost use Rattle.lasre_codec.specs.Texts.{row_value, plane_value, grid_value, stack_value, exists_at, is_z_low, is_z_high, has_corr, bit_of, bits_value, member_value, lasre_value, lasre_text_of};

use crate::Member;
use crate::member::MEMBERS;
use grid_box::{Diagram, Sheets};
use las_base::{Axis, Cell, Kind};
use las_spec::Job;
use serde::{Described, Serialize, Serializer};
use serde_json::{Value, to_vec};
use spec_codec::{options_value, port_values, word_values};
use std::alloc::{AllocError, Global};
use std::marker::Model;

// What is written, and what gives memory for its small parts.
#[derive(Drop)]
struct Parts<'a> {
    alloc: Global,
    job: &'a Job,
    diagram: &'a Diagram,
    sheets: &'a Sheets,
}

impl<'a> Model for Parts<'a> {
    ghost use Rattle.lasre_codec.specs.Documents.{Lasre, lasre_as};

    ghost Value = { Lasre };

    ghost view = { λ p. lasre_as p.job.now p.diagram.now p.sheets.now };
}

fn exists_at(parts: &Parts, axis: Axis, cell: Cell) -> bool
    ensures { result ≡ exists_at parts.now axis cell }
{
    parts.diagram.pipe(axis, cell).is_some()
}

fn is_z_low(parts: &Parts, axis: Axis, cell: Cell) -> bool
    ensures { result ≡ is_z_low parts.now axis cell }
{
    matches!(parts.diagram.pipe(axis, cell), Some((Kind::Z, _)))
}

fn is_z_high(parts: &Parts, axis: Axis, cell: Cell) -> bool
    ensures { result ≡ is_z_high parts.now axis cell }
{
    matches!(parts.diagram.pipe(axis, cell), Some((_, Kind::Z)))
}

fn has_corr(parts: &Parts, axis: Axis, span: Axis, flow: usize, cell: Cell) -> bool
    ensures { result ≡ has_corr parts.now axis span flow cell }
{
    exists_at(parts, axis, cell) && parts.sheets.has(flow, axis, cell, span)
}

fn bit_of(parts: &Parts, member: Member, flow: usize, cell: Cell) -> bool
    ensures { result ≡ bit_of parts.now member flow cell }
{
    match member {
        Member::ColorI => is_z_low(parts, Axis::I, cell),
        Member::ColorJ => is_z_low(parts, Axis::J, cell),
        Member::ColorKM => is_z_low(parts, Axis::K, cell),
        Member::ColorKP => is_z_high(parts, Axis::K, cell),
        Member::CorrIJ => has_corr(parts, Axis::I, Axis::J, flow, cell),
        Member::CorrIK => has_corr(parts, Axis::I, Axis::K, flow, cell),
        Member::CorrJI => has_corr(parts, Axis::J, Axis::I, flow, cell),
        Member::CorrJK => has_corr(parts, Axis::J, Axis::K, flow, cell),
        Member::CorrKI => has_corr(parts, Axis::K, Axis::I, flow, cell),
        Member::CorrKJ => has_corr(parts, Axis::K, Axis::J, flow, cell),
        Member::ExistI => exists_at(parts, Axis::I, cell),
        Member::ExistJ => exists_at(parts, Axis::J, cell),
        Member::ExistK => exists_at(parts, Axis::K, cell),
        _ => parts.diagram.is_y(cell),
    }
}

// Each of these sends one value of the document: its events are those of the value that it stands for.

fn send_row<S: Serializer>(
    parts: &Parts,
    member: Member,
    flow: usize,
    i: u32,
    j: u32,
    out: &mut S,
) -> Result<(), S::Error>
    ensures { OnOk result (SendsValue (row_value parts.now.task.size (bit_of parts.now member flow) i j) (S.written out.old) (S.written out.new)) }
{
    let size = parts.job.size();
    out.begin_seq(Some(size.k as usize))?;
    for k in 0..size.k {
        out.u64(u64::from(bit_of(parts, member, flow, Cell { i, j, k })))?;
    }
    out.end_seq()
}

fn send_plane<S: Serializer>(
    parts: &Parts,
    member: Member,
    flow: usize,
    i: u32,
    out: &mut S,
) -> Result<(), S::Error>
    ensures { OnOk result (SendsValue (plane_value parts.now.task.size (bit_of parts.now member flow) i) (S.written out.old) (S.written out.new)) }
{
    let size = parts.job.size();
    out.begin_seq(Some(size.j as usize))?;
    for j in 0..size.j {
        send_row(parts, member, flow, i, j, out)?;
    }
    out.end_seq()
}

fn send_grid<S: Serializer>(
    parts: &Parts,
    member: Member,
    flow: usize,
    out: &mut S,
) -> Result<(), S::Error>
    ensures { OnOk result (SendsValue (grid_value parts.now.task.size (bit_of parts.now member flow)) (S.written out.old) (S.written out.new)) }
{
    let size = parts.job.size();
    out.begin_seq(Some(size.i as usize))?;
    for i in 0..size.i {
        send_plane(parts, member, flow, i, out)?;
    }
    out.end_seq()
}

fn send_stack<S: Serializer>(parts: &Parts, member: Member, out: &mut S) -> Result<(), S::Error>
    ensures { OnOk result (SendsValue (stack_value parts.now member) (S.written out.old) (S.written out.new)) }
{
    let count = parts.job.flows().len();
    out.begin_seq(Some(count))?;
    for flow in 0..count {
        send_grid(parts, member, flow, out)?;
    }
    out.end_seq()
}

fn send_bits<S: Serializer>(parts: &Parts, member: Member, out: &mut S) -> Result<(), S::Error>
    ensures { OnOk result (SendsValue (bits_value parts.now member) (S.written out.old) (S.written out.new)) }
{
    if member.is_stack() {
        send_stack(parts, member, out)
    } else {
        send_grid(parts, member, 0, out)
    }
}

// Want of memory as the serializer's own error.
fn built<S: Serializer>(value: Result<Value, AllocError>, out: &S) -> Result<Value, S::Error>
    ensures { IfOk result (λ v. value ≡ Ok v) }
{
    match value {
        Ok(value) => Ok(value),
        Err(AllocError) => Err(out.custom("memory")),
    }
}

// The job's own members are small: each is built before it is sent.
fn send_member<S: Serializer>(parts: &Parts, member: Member, out: &mut S) -> Result<(), S::Error>
    ensures { OnOk result (SendsValue (member_value parts.now member) (S.written out.old) (S.written out.new)) }
{
    match member {
        Member::MaxI => parts.job.size().i.serialize(out),
        Member::MaxJ => parts.job.size().j.serialize(out),
        Member::MaxK => parts.job.size().k.serialize(out),
        Member::Optional => built(
            options_value(parts.alloc, parts.job.forbidden()),
            out,
        )?.serialize(out),
        Member::Ports => built(port_values(parts.alloc, parts.job.ports()), out)?.serialize(out),
        Member::Stabilizers => built(word_values(parts.alloc, parts.job.flows()), out)?.serialize(
            out,
        ),
        _ => send_bits(parts, member, out),
    }
}

impl<'a> Described for Parts<'a> {
    ghost writes = { λ p. SendsValue (lasre_value p) };
}

impl<'a> Serialize for Parts<'a> {
    fn serialize<S: Serializer>(&self, out: &mut S) -> Result<(), S::Error> {
        out.begin_map(Some(MEMBERS.len()))?;
        for member in MEMBERS {
            out.key(member.name())?;
            send_member(self, member, out)?;
        }
        out.end_map()
    }
}

/// The text of a job, a diagram for it and the sheets of its flows: one line of JSON, with its line feed.
/// Sheets of pipes that do not exist are written as 0. It is read back as the same job, diagram and sheets,
/// without those.
pub fn lasre_text(
    alloc: Global,
    job: &Job,
    diagram: &Diagram,
    sheets: &Sheets,
) -> Result<Vec<u8>, AllocError>
    requires drawing_size { diagram.now.size ≡ job.now.size }
    requires surfaces_size { sheets.now.size ≡ job.now.size }
    requires flows { length sheets.now.flows ≡ length job.now.flows }
    ensures text { IfOk result (λ v. v.items ≡ lasre_text_of (lasre_as job.now diagram.now sheets.now)) }
    ensures read_back { IfOk result (λ v. lasre_of v.items ≡ Ok (without_absent (lasre_as job.now diagram.now sheets.now))) }
{
    // Each of the three tells by its size what it keeps.
    let _ = (job.size(), diagram.size(), sheets.size());
    let parts = Parts {
        alloc,
        job,
        diagram,
        sheets,
    };
    match to_vec(alloc, &parts) {
        Ok(mut text) => {
            text.push(b'\n')?;
            Ok(text)
        }
        Err(_) => Err(AllocError),
    }
}

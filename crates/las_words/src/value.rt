// The value of a command, read as the command wants it.
ghost use Rattle.std.specs.Prelude.{◌≡◌, ◌<◌, ◌≤◌, ◌↔◌, ◌^◌, IsTrue, IfOk, IfSome, option_map, slice_index, Some, None};
ghost use Rattle.las_base.specs.Cells.{most_side};
ghost use Rattle.las_words.specs.Verbs.{ReadsNumber, ReadsBox, ReadsSize, Reads};
ghost use Rattle.las_words.specs.declared.verb.Verb.TheVariants as verb;

use crate::verb::Verb;
use crate::{Command, Name};
use las_base::{MOST_SIDE, Size};
use las_io::is_lawful_name;
use std::alloc::{AllocError, Global};

// The greatest budget of a sweep.
const MOST_BUDGET: u64 = 10_000_000;

// Whether the text begins with a digit that is not 0.
fn begins_a_number(text: &str) -> bool
    ensures { IsTrue result ↔ (48 < slice_index text.now 0) × (slice_index text.now 0 < 58) }
{
    match text.as_bytes() {
        [first, ..] => matches!(*first, b'1'..=b'9'),
        [] => false,
    }
}

// A number between these, in decimal digits with no sign and no leading zero.
fn number(text: &str, low: u64, high: u64) -> Option<u64>
    requires { 1 ≤ low }
    ensures { ReadsNumber low high text.now result }
{
    if !begins_a_number(text) {
        return None;
    }
    match text.parse::<u64>() {
        Ok(number) => {
            if low <= number && number <= high {
                Some(number)
            } else {
                None
            }
        }
        Err(_) => None,
    }
}

// The box with these sides, where there is one.
fn box_of(i: Option<u64>, j: Option<u64>, k: Option<u64>) -> Option<Size>
    requires i { IfSome i (λ n. n ≤ most_side) }
    requires j { IfSome j (λ n. n ≤ most_side) }
    requires k { IfSome k (λ n. n ≤ most_side) }
    ensures { ReadsBox i j k result }
{
    let size = Size {
        i: i? as u32,
        j: j? as u32,
        k: k? as u32,
    };
    if size.is_within_limits() {
        Some(size)
    } else {
        None
    }
}

// The sides of a box, joined by `x`.
fn size(text: &str) -> Option<Size>
    ensures { ReadsSize text.now result }
{
    match text.split_once('x') {
        Some((i, rest)) => match rest.split_once('x') {
            Some((j, k)) => box_of(
                number(i, 1, MOST_SIDE as u64),
                number(j, 1, MOST_SIDE as u64),
                number(k, 1, MOST_SIDE as u64),
            ),
            None => None,
        },
        None => None,
    }
}

fn file(alloc: Global, text: &str) -> Result<Option<Command>, AllocError>
    ensures { IfOk result (Reads verb.Audit (Some text.now)) }
{
    if is_lawful_name(text) {
        let name = Name::new(String::from_str(alloc, text)?);
        Ok(Some(Command::Audit { name }))
    } else {
        Ok(None)
    }
}

fn budget(text: &str) -> Option<Command>
    ensures { Reads verb.Sweep (Some text.now) result }
{
    match number(text, 1, MOST_BUDGET) {
        Some(budget) => Some(Command::Sweep { budget }),
        None => None,
    }
}

fn qubits(text: &str) -> Option<Command>
    ensures { Reads verb.Bench (Some text.now) result }
{
    match number(text, 2, 24) {
        Some(n) => Some(Command::Bench { n: n as u32 }),
        None => None,
    }
}

fn log_of_box(text: &str) -> Option<Command>
    ensures { Reads verb.Verify (Some text.now) result }
{
    match size(text) {
        Some(size) => Some(Command::Verify { size }),
        None => None,
    }
}

fn alone(name: Verb) -> Option<Command>
    ensures { Reads name None result }
{
    match name {
        Verb::Check => Some(Command::Check),
        Verb::Spec => Some(Command::Spec),
        Verb::Zx => Some(Command::Zx),
        Verb::Sweep | Verb::Audit | Verb::Verify | Verb::Bench => None,
    }
}

fn with_value(alloc: Global, name: Verb, text: &str) -> Result<Option<Command>, AllocError>
    ensures { IfOk result (Reads name (Some text.now)) }
{
    match name {
        Verb::Sweep => Ok(budget(text)),
        Verb::Audit => file(alloc, text),
        Verb::Verify => Ok(log_of_box(text)),
        Verb::Bench => Ok(qubits(text)),
        Verb::Check | Verb::Spec | Verb::Zx => Ok(None),
    }
}

/// The command of a name and a value. None where there is no such command.
pub(crate) fn command_of(
    alloc: Global,
    name: Verb,
    value: Option<&str>,
) -> Result<Option<Command>, AllocError>
    ensures { IfOk result (Reads name (option_map (λ s. s.now) value.entry)) }
{
    match value {
        Some(text) => with_value(alloc, name, text),
        None => Ok(alone(name)),
    }
}

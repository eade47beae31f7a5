// Grids: arrays in arrays, with whole numbers inside.
ghost use Rattle.std.specs.Prelude.{◌≡◌, Some, None, IfOk, OnOk, IsErrOf, option_map};
ghost use Rattle.serde_json.specs.View.{view};
ghost use Rattle.json_shape.specs.Grids.{entry, entries, AppendsEntries, has_lengths};

use crate::array::array_items;
use serde_json::Value;
use std::alloc::{AllocError, AllocFailed, Global};

/// What a whole number says of a thing: that it is not there, that it is, or neither.
#[derive(Clone, Copy, PartialEq, Eq, Debug)]
pub enum Entry {
    Zero,
    One,
    Other,
}

/// The entry of a whole number of 64 bits, with its sign or without.
pub fn read_entry(value: &Value) -> Option<Entry>
    ensures { result ≡ entry (view value.now) }
{
    match value.as_number()?.as_i128()? {
        0 => Some(Entry::Zero),
        1 => Some(Entry::One),
        _ => Some(Entry::Other),
    }
}

// Why no entries were put.
#[derive(Clone, Copy, PartialEq, Eq, Debug)]
enum Unread {
    Shape,
    Memory,
}

impl From<AllocFailed<Entry>> for Unread {
    ghost use Rattle.json_shape.specs.declared.grid.Unread.TheVariants.{Memory};

    ghost from_gives = { λ _ e. e ≡ Memory };

    fn from(_: AllocFailed<Entry>) -> Self {
        Unread::Memory
    }
}

// Puts one entry at the end.
fn push_entry(value: &Value, out: &mut Vec<Entry>) -> Result<(), Unread>
    ensures ok { OnOk result (AppendsEntries 0 (view value.now) out.old.items out.new.items) }
    ensures shape { IsErrOf result Unread.Shape → entries 0 (view value.now) ≡ None }
{
    match read_entry(value) {
        Some(entry) => {
            out.push(entry)?;
            Ok(())
        }
        None => Err(Unread::Shape),
    }
}

// Puts the entries of a grid, nested so many arrays deep, at the end.
fn push_entries(value: &Value, depth: usize, out: &mut Vec<Entry>) -> Result<(), Unread>
    ensures ok { OnOk result (AppendsEntries depth (view value.now) out.old.items out.new.items) }
    ensures shape { IsErrOf result Unread.Shape → entries depth (view value.now) ≡ None }
{
    if depth == 0 {
        return push_entry(value, out);
    }
    match array_items(value) {
        Some(items) => {
            for item in items {
                push_entries(item, depth - 1, out)?;
            }
            Ok(())
        }
        None => Err(Unread::Shape),
    }
}

/// The entries of a grid that is nested so many arrays deep, in order, whatever the arrays'
/// lengths: `None` where something on the way is no array or something inside no whole number,
/// and an error only for want of memory.
pub fn read_grid(
    alloc: Global,
    value: &Value,
    depth: usize,
) -> Result<Option<Vec<Entry>>, AllocError>
    ensures { IfOk result (λ o. option_map (λ v. v.items) o ≡ entries depth (view value.now)) }
{
    let mut grid = Vec::new(alloc);
    match push_entries(value, depth, &mut grid) {
        Ok(()) => Ok(Some(grid)),
        Err(Unread::Shape) => Ok(None),
        Err(Unread::Memory) => Err(AllocError),
    }
}

/// Whether the value is arrays in arrays, nested as deep as the slice is long and of these lengths
/// from the outermost on. What stands in the innermost is not looked at.
pub fn has_lengths(value: &Value, lengths: &[u32]) -> bool
    ensures { result ≡ has_lengths lengths.now (view value.now) }
{
    let [length, inner @ ..] = lengths else {
        return true;
    };
    match array_items(value) {
        Some(items) => {
            if items.len() != *length as usize {
                return false;
            }
            for item in items {
                if !has_lengths(item, inner) {
                    return false;
                }
            }
            true
        }
        None => false,
    }
}

// The entries of a document's grids.
ghost use Rattle.std.specs.Prelude.{◌≡◌, ◌≢◌, None, IfOk, IfErr, option_map};
ghost use Rattle.serde_json.specs.View.{view};
ghost use Rattle.lasre_codec.specs.Entries.{entries_in, entries_of, nesting_of, is_bit_at, is_one_at};
ghost use Rattle.lasre_codec.specs.Documents.{misshapen_in};
ghost use Rattle.lasre_codec.specs.Kept.{entries_kept, AreKept};
ghost use Rattle.lasre_codec.specs.declared.refusal.LasreRefused.TheVariants.{Memory, Shape};

use crate::member::{GRIDS, Member};
use crate::refusal::LasreRefused;
use json_shape::{Entry, read_grid};
use serde_json::Value;
use std::alloc::{AllocError, Global};

fn nesting_of(member: Member) -> usize
    ensures { result ≡ nesting_of member }
{
    if member.is_stack() { 4 } else { 3 }
}

// The entries of one grid, where it has its shape.
fn read_member(
    alloc: Global,
    value: &Value,
    member: Member,
) -> Result<Option<Vec<Entry>>, AllocError>
    ensures { IfOk result (λ o. option_map (λ v. v.items) o ≡ entries_in (view value.now) member) }
{
    match value.get(member.name()) {
        Some(grid) => read_grid(alloc, grid, nesting_of(member)),
        None => Ok(None),
    }
}

/// The entries of all grids in the order of their names, or the first that has not its shape.
pub(crate) fn read_grids(alloc: Global, value: &Value) -> Result<Vec<Vec<Entry>>, LasreRefused>
    ensures ok { IfOk result (λ grids. (misshapen_in (view value.now) ≡ None) × AreKept (view value.now) grids.items) }
    ensures err { IfErr result (λ e. e ≢ Memory → option_map Shape (misshapen_in (view value.now)) ≡ Some e) }
{
    let mut grids = Vec::new(alloc);
    for member in GRIDS {
        match read_member(alloc, value, member)? {
            Some(entries) => grids.push(entries)?,
            None => return Err(LasreRefused::Shape(member)),
        }
    }
    Ok(grids)
}

/// The entries of a grid. Other members have none.
pub(crate) fn entries_of(grids: &[Vec<Entry>], member: Member) -> &[Entry]
    ensures { result.now ≡ entries_kept grids.now member }
{
    match grids.get(member.number()) {
        Some(entries) => entries,
        None => &[],
    }
}

/// Whether the entry at a place is 1.
pub(crate) fn is_one_at(entries: &[Entry], place: usize) -> bool
    ensures { result ≡ is_one_at entries.now place }
{
    matches!(entries.get(place), Some(Entry::One))
}

/// Whether the entry at a place is 0 or 1.
pub(crate) fn is_bit_at(entries: &[Entry], place: usize) -> bool
    ensures { result ≡ is_bit_at entries.now place }
{
    matches!(entries.get(place), Some(Entry::Zero | Entry::One))
}

// Whether entries are 0 or 1 wherever they count.
ghost use Rattle.std.specs.Prelude.{◌≡◌, ◌<◌};
ghost use Rattle.lasre_codec.specs.Entries.{counts_at, is_bad_at, bad_place, first_bad};
ghost use Rattle.lasre_codec.specs.Kept.{entries_kept};
ghost use Rattle.lasre_codec.specs.Members.{tested};

use crate::entries::{entries_of, is_bit_at, is_one_at};
use crate::member::{Member, TESTED};
use crate::refusal::LasreRefused;
use json_shape::Entry;

// Whether the value at a place of a grid counts, in a box of so many cells.
fn counts_at(grids: &[Vec<Entry>], cells: usize, member: Member, place: usize) -> bool
    requires { 0 < cells }
    ensures { result ≡ counts_at (entries_kept grids.now) cells member place }
{
    match member.axis_told() {
        Some(axis) => is_one_at(entries_of(grids, Member::pipes_along(axis)), place % cells),
        None => true,
    }
}

// Whether the value at a place of a grid counts, and is neither 0 nor 1.
fn is_bad_at(grids: &[Vec<Entry>], cells: usize, member: Member, place: usize) -> bool
    requires { 0 < cells }
    ensures { result ≡ is_bad_at (entries_kept grids.now) cells member place }
{
    counts_at(grids, cells, member, place) && !is_bit_at(entries_of(grids, member), place)
}

// The first such place of a grid.
fn bad_place(grids: &[Vec<Entry>], cells: usize, member: Member) -> Option<usize>
    requires { 0 < cells }
    ensures { result ≡ bad_place (entries_kept grids.now) cells member }
{
    for place in 0..entries_of(grids, member).len() {
        if is_bad_at(grids, cells, member, place) {
            return Some(place);
        }
    }
    None
}

/// The first value that counts and is neither 0 nor 1, by grids in the order in which they are tested, and then
/// by place.
pub(crate) fn first_bad(grids: &[Vec<Entry>], cells: usize) -> Option<LasreRefused>
    requires { 0 < cells }
    ensures { result ≡ first_bad (entries_kept grids.now) cells tested }
{
    for member in TESTED {
        if let Some(place) = bad_place(grids, cells, member) {
            return Some(LasreRefused::Bit(member, place));
        }
    }
    None
}

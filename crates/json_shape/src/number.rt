// Whole numbers, and three of them in an array.
ghost use Rattle.std.specs.Prelude.{◌≡◌};
ghost use Rattle.serde_json.specs.View.{view};
ghost use Rattle.json_shape.specs.Numbers.{whole_up_to, whole_u32, whole_member, triple};

use crate::array::array_items;
use serde_json::Value;

/// A whole number from 0 to `most`, which counts too.
pub fn whole_up_to(value: &Value, most: u64) -> Option<u64>
    ensures { result ≡ whole_up_to most (view value.now) }
{
    let n = value.as_u64()?;
    if n <= most { Some(n) } else { None }
}

/// A whole number from 0 to 4,294,967,295.
pub fn whole_u32(value: &Value) -> Option<u32>
    ensures { result ≡ whole_u32 (view value.now) }
{
    u32::try_from(value.as_u64()?).ok()
}

/// The member of this name, where it is a whole number from 0 to 4,294,967,295. Of equal names in
/// a text the last counts.
pub fn whole_member(value: &Value, name: &str) -> Option<u32>
    ensures { result ≡ whole_member name.now (view value.now) }
{
    whole_u32(value.get(name)?)
}

/// An array of exactly three whole numbers from 0 to 4,294,967,295.
pub fn triple(value: &Value) -> Option<(u32, u32, u32)>
    ensures { result ≡ triple (view value.now) }
{
    match array_items(value)? {
        [x, y, z] => Some((whole_u32(x)?, whole_u32(y)?, whole_u32(z)?)),
        _ => None,
    }
}

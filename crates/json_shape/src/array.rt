// Arrays, and arrays of objects.
ghost use Rattle.std.specs.Prelude.{◌≡◌, ◌↔◌, IsTrue, true, All, map, option_map};
ghost use Rattle.serde_json.specs.View.{view};
ghost use Rattle.json_shape.specs.Arrays.{array_items, is_object, objects};

use serde_json::Value;

/// The items of an array, in order.
pub fn array_items(value: &Value) -> Option<&[Value]>
    ensures { option_map (λ vs. map view vs.now) result ≡ array_items (view value.now) }
{
    Some(value.as_array()?.as_slice())
}

/// The items of an array of objects, in order.
pub fn objects(value: &Value) -> Option<&[Value]>
    ensures { option_map (λ vs. map view vs.now) result ≡ objects (view value.now) }
{
    let items = array_items(value)?;
    if are_objects(items) {
        Some(items)
    } else {
        None
    }
}

fn are_objects(items: &[Value]) -> bool
    ensures { IsTrue result ↔ All (λ v. is_object (view v) ≡ true) items.now }
{
    items.iter().all(|item| item.is_object())
}

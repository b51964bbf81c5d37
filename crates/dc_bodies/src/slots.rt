//! An element of a list, lifted out and put back.

ghost use Rattle.std.specs.Prelude.{◌≡◌, ◌<◌, ◌≤◌, List, Some, length, slice_get, slice_set, vec_capacity};
ghost use Rattle.dc_bodies.specs.Slots.{lifted};

/// Lifts element `i` out; until it is put down the last one stands in its place.
pub fn lift<T>(list: &mut Vec<T>, i: usize) -> T
    requires { i < length list.old.items }
    ensures element { slice_get list.old.items i ≡ Some result }
    ensures list { list.new.items ≡ lifted list.old.items i }
    ensures room { length list.new.items < vec_capacity list.new }
{
    list.swap_remove(i)
}

/// Puts an element down where one was lifted out.
pub fn put_down<T>(list: &mut Vec<T>, i: usize, element: T)
    requires within { i ≤ length list.old.items }
    requires room { length list.old.items < vec_capacity list.old }
    ensures { (whole : List T) → list.old.items ≡ lifted whole i → i < length whole → list.new.items ≡ slice_set whole i element }
{
    let last = list.len();
    list.push_reserved(element);
    list.swap(i, last);
}

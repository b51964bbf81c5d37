//! Objects into slots and out of them.
ghost use Rattle.std.specs.Prelude.{◌≡◌, ℕ, ◌<◌, ◌≤◌, [], length, map, Some, IfOk, IfErr, vec_capacity};
ghost use Rattle.std.specs.Mem.Slots.{slots_items, slots_len, IsFull};
ghost use mathlib.Core.Option.{some};
ghost use lib.ListN.{get_elem?};
ghost use Rattle.dc_stage.specs.Slots.{AllSome};

use atomic_table::Closed;
use std::alloc::Global;

/// Each object in a `Some`, and the emptied Vec with its room. With no memory the objects come back.
pub fn into_slots<T: Drop>(
    alloc: Global,
    mut objects: Vec<T>,
) -> Result<(Vec<Option<T>>, Vec<T>), Vec<T>>
    ensures ok { IfOk result (λ r. (r.0.items ≡ map Some objects.items) × (r.1.items ≡ []) × (length objects.items ≤ vec_capacity r.1)) }
    ensures err { IfErr result (λ v. v.items ≡ objects.items) }
{
    let Ok(mut slots) = Vec::with_capacity(alloc, objects.len()) else {
        return Err(objects);
    };
    while let Some(object) = objects.pop() {
        slots.push_reserved(Some(object));
    }
    slots.reverse();
    Ok((slots, objects))
}

/// The objects out of slots that are all filled.
pub fn out_of_slots<T: Drop>(mut slots: Vec<Option<T>>, mut objects: Vec<T>) -> Vec<T>
    requires filled { AllSome slots.items }
    requires room { (objects.items ≡ []) × (length slots.items ≤ vec_capacity objects) }
    ensures { map Some result.items ≡ slots.items }
{
    while let Some(slot) = slots.pop() {
        let Some(object) = slot else { unreachable!() };
        objects.push_reserved(object);
    }
    objects.reverse();
    objects
}

/// The objects out of a closed table whose slots are all filled, in their order.
pub fn out_of_table<T: Drop>(mut closed: Closed<Option<T>, Global>, mut objects: Vec<T>) -> Vec<T>
    requires full { IsFull closed.words × IsFull closed.slots }
    requires filled { (i : ℕ) → i < slots_len closed.slots → (x : T) × (get_elem? (slots_items closed.slots) i ≡ some (Some x)) }
    requires room { (objects.items ≡ []) × (slots_len closed.slots ≤ vec_capacity objects) }
    ensures count { length result.items ≡ slots_len closed.slots }
    ensures each { (i : ℕ) (x : T) → get_elem? result.items i ≡ some x → get_elem? (slots_items closed.slots) i ≡ some (Some x) }
{
    for i in 0..closed.slot_count() {
        let Some(object) = closed.take(i) else {
            unreachable!()
        };
        objects.push_reserved(object);
    }
    closed.free();
    objects
}

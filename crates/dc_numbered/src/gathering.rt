//! All objects into one list.
ghost use Rattle.std.specs.Prelude.{◌≡◌, ◌+◌, ◌≤◌, [], ◌++◌, map, reverse, length, vec_len, vec_capacity};
ghost use Rattle.dc_base.specs.Changes.{Object as Seen};
ghost use Rattle.dc_base.specs.Objects.{objects as in_order};
ghost use Rattle.dc_objects.specs.States.{state_of};
ghost use Rattle.dc_scene.specs.Objects.{object_seen};
ghost use Rattle.dc_numbered.specs.Rooms.{HasRoom, room_of};

use crate::kinds::Kinds;
use dc_kernel::Driver;
use dc_objects::Objects;
use dc_scene::Object;

/// Puts the objects of a kind behind the list, the last first. The emptied list of the kind keeps its room.
fn put<T: Drop, O: Drop, F: Fn(T) -> O>(kind: &mut Vec<T>, list: &mut Vec<O>, wrap: F)
    requires callable { F.IsAlwaysCallable wrap }
    requires room { vec_len list.old + vec_len kind.old ≤ vec_capacity list.old }
    ensures list { (see : O → Seen) (shown : T → Seen) → ((x : T) (o : O) → F.post wrap x o → see o ≡ shown x) →
        map see list.new.items ≡ map see list.old.items ++ reverse (map shown kind.old.items) }
    ensures count { vec_len list.new ≡ vec_len list.old + vec_len kind.old }
    ensures room { vec_capacity list.new ≡ vec_capacity list.old }
    ensures emptied { kind.new.items ≡ [] }
    ensures kept { vec_capacity kind.new ≡ vec_capacity kind.old }
{
    while let Some(object) = kind.pop() {
        list.push_reserved(wrap(object));
    }
}

/// All objects in the order of their numbers: cores, blocks, channels, lines, mailboxes, consoles and the script. They go into an empty list that has room
/// for them. The emptied lists of the kinds come beside, with the room that they had. No memory is taken.
pub fn by_number<D: Driver>(
    objects: Objects<D>,
    mut list: Vec<Object<D>>,
) -> (Vec<Object<D>>, Kinds<D>)
    requires empty { list.items ≡ [] }
    requires room { length (in_order (state_of objects)) ≤ vec_capacity list }
    ensures list { map object_seen result.0.items ≡ in_order (state_of objects) }
    ensures kept { vec_capacity result.0 ≡ vec_capacity list }
    ensures kinds { result.1 ≡ room_of objects }
    ensures room { HasRoom (state_of objects) result.1 }
{
    let Objects {
        mut cores,
        mut blocks,
        mut channels,
        mut lines,
        mut mailboxes,
        mut consoles,
        script,
    } = objects;
    // The last comes first, and all are turned round in the end.
    list.push_reserved(Object::Script(script));
    put(&mut consoles, &mut list, |console| Object::Console(console));
    put(
        &mut mailboxes,
        &mut list,
        |mailbox| Object::Mailbox(mailbox),
    );
    put(&mut lines, &mut list, |line| Object::Line(line));
    put(&mut channels, &mut list, |channel| Object::Channel(channel));
    put(&mut blocks, &mut list, |block| Object::Block(block));
    put(&mut cores, &mut list, |core| Object::Core(core));
    list.reverse();
    let kinds = Kinds {
        cores,
        blocks,
        channels,
        lines,
        mailboxes,
        consoles,
    };
    (list, kinds)
}

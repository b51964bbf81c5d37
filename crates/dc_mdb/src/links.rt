//! Where each slot hangs.

ghost use Rattle.std.specs.Prelude.{◌≡◌, ◌<◌, ◌≤◌, map, not, filter, length, slice_index_or, slice_set};
ghost use Rattle.dc_base.specs.Words.{Each, lists};
ghost use Rattle.dc_mdb.specs.Forests.{IsForest, parent_at, reaches_in, descendants, Node};
ghost use Rattle.dc_mdb.specs.Links.{nodes_of, with_link};
ghost use Rattle.dc_mdb.specs.Counts.{IsCounted};

use arrayvec::ArrayVec;
use dc_base::limits::BLOCK_SLOTS;

/// Where a slot hangs: nowhere, as a root, or under a parent, which is below 256.
#[derive(Clone, Copy, Debug, PartialEq, Eq)]
pub(crate) enum Link {
    Absent,
    Root,
    Child(u8),
}

impl Link {
    ghost use Rattle.std.specs.Prelude.{◌≡◌};
    ghost use Rattle.dc_mdb.specs.Links.{is_there, link_parent, with_link};

    /// Whether the slot is there.
    pub(crate) fn is_there(self) -> bool
        ensures { result ≡ is_there self }
    {
        !matches!(self, Link::Absent)
    }

    /// The link after the children of `s` got this one instead.
    fn moved(self, s: u32, up: Link) -> Link
        ensures { result ≡ with_link s up self }
    {
        match self {
            Link::Child(parent) if u32::from(parent) == s => up,
            link => link,
        }
    }

    /// The parent of the slot, if it has one.
    fn parent(self) -> Option<u32>
        ensures { result ≡ link_parent self }
    {
        match self {
            Link::Child(parent) => Some(u32::from(parent)),
            Link::Absent | Link::Root => None,
        }
    }
}

/// Where a slot hangs; one that is too high is absent.
pub(crate) fn link_at(links: &[Link], s: u32) -> Link
    ensures { result ≡ slice_index_or links.now s Link.Absent }
{
    links.get(s as usize).copied().unwrap_or(Link::Absent)
}

/// The parent of a slot, if it has one.
#[tactic(auto, using(crate::proofs::Linked::parent_at_links))]
pub(crate) fn parent_of(links: &[Link], s: u32) -> Option<u32>
    ensures { result ≡ parent_at (nodes_of links.now) s }
{
    link_at(links, s).parent()
}

/// Whether a slot with this parent reaches `s`. No way up is longer than there are slots.
fn is_below(links: &[Link], s: u32, parent: Option<u32>) -> bool
    ensures { result ≡ reaches_in (length links.now) (nodes_of links.now) s parent }
{
    let mut above = parent;
    for _ in 0..links.len() {
        match above {
            None => return false,
            Some(p) => {
                if p == s {
                    return true;
                }
                above = parent_of(links, p);
            }
        }
    }
    false
}

/// All slots that reach `s`, ascending. This takes at most as many steps as the square of the used slots, besides one look at each slot.
pub(crate) fn all_below(links: &[Link], s: u32) -> ArrayVec<u32, BLOCK_SLOTS>
    requires length { length links.now ≡ 256 }
    requires forest { IsForest (nodes_of links.now) }
    ensures { result.items ≡ descendants (nodes_of links.now) s }
{
    let mut below = ArrayVec::new();
    for slot in 0..256 {
        if is_below(links, s, parent_of(links, slot)) {
            below.push(slot);
        }
    }
    below
}

/// All slots that are there, ascending.
pub(crate) fn all_slots(links: &[Link]) -> ArrayVec<u32, BLOCK_SLOTS>
    requires { length links.now ≡ 256 }
    ensures { result.items ≡ map (λ (n : Node). n.0) (nodes_of links.now) }
{
    let mut slots = ArrayVec::new();
    for slot in 0..256 {
        if link_at(links, slot).is_there() {
            slots.push(slot);
        }
    }
    slots
}

/// Each child of `s` gets this link instead.
fn relink(links: &mut [Link], s: u32, up: Link)
    ensures { links.new ≡ map (with_link s up) links.old }
{
    for i in 0..links.len() {
        links[i] = links[i].moved(s, up);
    }
}

/// Each child of `s` gets the link of `s` itself.
pub(crate) fn hang(links: &mut [Link], children: &mut [u16], s: u32)
    requires slot { s < length links.old }
    requires most { length links.old ≤ 256 }
    requires room { length children.old ≡ length links.old }
    requires counted { IsCounted links.old children.old }
    ensures links { links.new ≡ map (with_link s (slice_index_or links.old s Link.Absent)) links.old }
    ensures counted { IsCounted links.new children.new }
{
    let count = children[s as usize];
    if count == 0 {
        return;
    }
    let up = links[s as usize];
    relink(links, s, up);
    children[s as usize] = 0;
    if let Link::Child(parent) = up {
        children[parent as usize] += count;
    }
}

/// Takes a slot out.
pub(crate) fn cut(links: &mut [Link], children: &mut [u16], s: u32)
    requires slot { s < length links.old }
    requires counted { IsCounted links.old children.old }
    ensures links { links.new ≡ slice_set links.old s Link.Absent }
    ensures counted { IsCounted links.new children.new }
{
    if let Link::Child(parent) = links[s as usize] {
        children[parent as usize] -= 1;
    }
    links[s as usize] = Link::Absent;
}

/// Takes these slots out.
pub(crate) fn clear(links: &mut [Link], children: &mut [u16], slots: &[u32])
    requires slots { Each slots.now (λ i s. s < length links.old) }
    requires counted { IsCounted links.old children.old }
    ensures links { nodes_of links.new ≡ filter (λ (n : Node). not (lists slots.now n.0)) (nodes_of links.old) }
    ensures counted { IsCounted links.new children.new }
{
    for &s in slots {
        cut(links, children, s);
    }
}

//! The forest.

ghost use Rattle.std.specs.Prelude.{◌≡◌, ◌<◌, ◌↔◌, [], Some, None, Err, length, map, OnOk, OnErr, IsErrOf, IsTrue, IsFalse, ◌&&◌};
ghost use Rattle.dc_mdb.specs.Forests.{IsForest, has_slot, parent_at, is_parent, with_node, descendants, without_descendants, without_slot, Node as Pair};

use crate::links::{Link, all_below, all_slots, clear, cut, hang, link_at, parent_of};
use arrayvec::ArrayVec;
use dc_base::limits::BLOCK_SLOTS;
use std::marker::Model;

/// Why a slot is not put in or taken out: it is not there, or it is there already.
#[derive(Clone, Copy, Debug, PartialEq, Eq)]
pub enum ForestFault {
    Absent,
    Used,
}

/// Slots below 256, each a root or the child of another. Contracts see the list of the slots with their parents, ascending by slot.
#[derive(Debug, Drop)]
pub struct Forest {
    links: [Link; BLOCK_SLOTS],
    /// How many children each slot has, so that what has none is not searched for.
    children: [u16; BLOCK_SLOTS],
}

impl Model for Forest {
    ghost use Rattle.std.specs.Prelude.{List};
    ghost use Rattle.dc_mdb.specs.Forests.{Node};
    ghost use Rattle.dc_mdb.specs.Links.{nodes_of};
    ghost use Rattle.dc_mdb.specs.Within.{IsWithin};

    ghost Value = { List Node };

    ghost view = { λ f. nodes_of f.links };

    ghost invariant = { IsWithin };
}

impl Forest {
    /// No slot.
    pub fn new() -> Forest
        ensures { result ≡ [] }
    {
        Forest {
            links: [Link::Absent; BLOCK_SLOTS],
            children: [0; BLOCK_SLOTS],
        }
    }

    /// Whether the slot is there.
    #[tactic(auto, using(crate::proofs::Linked::has_slot_links))]
    pub fn contains(&self, s: u32) -> bool
        requires { s < 256 }
        ensures value { result ≡ has_slot self.now s }
        ensures forest { IsForest self.now }
    {
        link_at(&self.links, s).is_there()
    }

    /// The parent of the slot; None for a root, and where the slot is not there.
    pub fn parent(&self, s: u32) -> Option<u32>
        requires { s < 256 }
        ensures value { result ≡ parent_at self.now s }
        ensures forest { IsForest self.now }
    {
        parent_of(&self.links, s)
    }

    /// Whether the slot has a child.
    pub fn has_children(&self, s: u32) -> bool
        requires { s < 256 }
        ensures value { result ≡ is_parent self.now s }
        ensures forest { IsForest self.now }
    {
        self.children[s as usize] > 0
    }

    /// All slots that are there, ascending.
    pub fn slots(&self) -> ArrayVec<u32, BLOCK_SLOTS>
        ensures slots { result.items ≡ map (λ (n : Pair). n.0) self.now }
        ensures forest { IsForest self.now }
    {
        all_slots(&self.links)
    }

    /// All slots that reach `s` by one or more parents, ascending. This takes at most as many steps as the square of the used slots, besides one look at
    /// each slot.
    pub fn descendants(&self, s: u32) -> ArrayVec<u32, BLOCK_SLOTS>
        requires { s < 256 }
        ensures { result.items ≡ descendants self.now s }
    {
        all_below(&self.links, s)
    }

    /// Puts in a root.
    pub fn root(&mut self, s: u32) -> Result<(), ForestFault>
        requires { s < 256 }
        ensures ok { OnOk result (self.new ≡ with_node (s, None) self.old) }
        ensures used { IsErrOf result ForestFault.Used ↔ IsTrue (has_slot self.old s) }
        ensures never_absent { ¬ IsErrOf result ForestFault.Absent }
        ensures err { OnErr result (self.new ≡ self.old) }
    {
        if self.contains(s) {
            return Err(ForestFault::Used);
        }
        self.links[s as usize] = Link::Root;
        Ok(())
    }

    /// Puts in a child of `parent`.
    pub fn child(&mut self, parent: u32, s: u32) -> Result<(), ForestFault>
        requires parent { parent < 256 }
        requires slot { s < 256 }
        ensures ok { OnOk result (self.new ≡ with_node (s, Some parent) self.old) }
        ensures absent { IsErrOf result ForestFault.Absent ↔ IsFalse (has_slot self.old parent) }
        ensures used { IsErrOf result ForestFault.Used ↔ IsTrue (has_slot self.old parent && has_slot self.old s) }
        ensures err { OnErr result (self.new ≡ self.old) }
    {
        if !self.contains(parent) {
            return Err(ForestFault::Absent);
        }
        if self.contains(s) {
            return Err(ForestFault::Used);
        }
        self.links[s as usize] = Link::Child(parent as u8);
        self.children[parent as usize] += 1;
        Ok(())
    }

    /// Takes a slot out. Its children go to its parent, or become roots where it has none. A forest without the slot stays as it is.
    pub fn remove(&mut self, s: u32) -> Result<(), ForestFault>
        requires { s < 256 }
        ensures after { self.new ≡ without_slot s self.old }
        ensures absent { IsErrOf result ForestFault.Absent ↔ IsFalse (has_slot self.old s) }
        ensures never_used { ¬ IsErrOf result ForestFault.Used }
        ensures err { OnErr result (self.new ≡ self.old) }
    {
        if !self.contains(s) {
            return Err(ForestFault::Absent);
        }
        hang(&mut self.links, &mut self.children, s);
        cut(&mut self.links, &mut self.children, s);
        Ok(())
    }

    /// Takes out all slots that reach `s` by one or more parents, and tells how many these are.
    /// This takes at most as many steps as the square of the used slots, besides one look at each slot.
    pub fn prune(&mut self, s: u32) -> u32
        requires { s < 256 }
        ensures after { self.new ≡ without_descendants s self.old }
        ensures count { result ≡ length (descendants self.old s) }
    {
        if !self.has_children(s) {
            return 0;
        }
        let below = all_below(&self.links, s);
        clear(&mut self.links, &mut self.children, below.as_slice());
        below.len() as u32
    }
}

//! The table of a block's slots.

ghost use Rattle.std.specs.Prelude.{◌≡◌, ◌+◌, ◌*◌, ◌<◌, ◌≤◌, ◌↔◌, ◌&&◌, not, [], Some, None, Ok, Err, length, OnOk, OnErr, IfOk, IfErr, IfSome};
ghost use Rattle.std.specs.Prelude.{IsErrOf, IsTrue, IsFalse};
ghost use Rattle.std.specs.Option.{option_map};
ghost use Rattle.dc_base.specs.declared.numbers.SlotNo.{SlotNo as Slot};
ghost use Rattle.dc_base.specs.declared.capabilities.CapKind.TheVariants.{Line as of_line};
ghost use Rattle.dc_base.specs.Capabilities.{slot_number, cap_at, is_used, parent_at, with_root, with_child, after_revoke, after_delete};
ghost use Rattle.dc_base.specs.Capabilities.{without_line, has_child_within, first_word};
ghost use Rattle.dc_base.specs.Kernel.{copy_call, retype_call, delete_call, revoke_call, with_mask, memory_cap};
ghost use Rattle.dc_caps.specs.Caps.{IsCap, IsTable};
ghost use Rattle.dc_caps.specs.Outcomes.{IsCall, answer_of, root_fault, child_fault};

use crate::faults::CapFault;
use crate::held::{has_child_within, remove_line};
use crate::kinds::{
    WRITE, cap_in, is_kept_from, is_outside, is_without, masked, memory, slot_number,
};
use dc_base::capabilities::{Cap, CapKind};
use dc_base::limits::BLOCK_SLOTS;
use dc_base::numbers::{DispNo, LineNo, PortNo, SlotNo};
use dc_mdb::{Forest, ForestFault};
use std::marker::Model;

/// What stands where no slot is used.
const UNUSED: Cap = Cap {
    kind: CapKind::Port(PortNo(0)),
    rights: 0,
};

/// The 256 slots of a block, of which each dispatcher has 16. A slot is used where the derivation forest has it; its capability then has rights of at most 7,
/// and as memory at least one word and all within the 4,096. Contracts see the set of used slots, ascending by slot, and the number of dispatchers.
#[derive(Debug, Drop)]
pub struct Table {
    caps: [Cap; BLOCK_SLOTS],
    forest: Forest,
    disps: u32,
}

impl Model for Table {
    ghost use Rattle.dc_caps.specs.Caps.{Caps};

    ghost Value = { Caps };

    ghost use Rattle.dc_caps.specs.Tables.{caps_seen, IsWithin};

    ghost view = { caps_seen };

    ghost invariant = { IsWithin };
}

impl Table {
    /// All slots empty, for 1 to 16 dispatchers.
    pub fn new(disps: u32) -> Table
        requires some { 0 < disps }
        requires most { disps ≤ 16 }
        ensures { result ≡ record { set = []; disps = disps } }
    {
        Table {
            caps: [UNUSED; BLOCK_SLOTS],
            forest: Forest::new(),
            disps,
        }
    }

    /// How many dispatchers there are, at most 16.
    pub fn disps(&self) -> u32
        ensures value { result ≡ self.now.disps }
        ensures most { result ≤ 16 }
    {
        self.disps
    }

    /// What the slot of this number holds.
    pub fn cap(&self, s: SlotNo) -> Option<Cap>
        requires { s.0 < 256 }
        ensures value { result ≡ cap_at self.now.set s.0 }
        ensures form { IfSome result IsCap }
        ensures table { IsTable self.now }
    {
        if self.forest.contains(s.0) {
            Some(cap_in(&self.caps, s.0))
        } else {
            None
        }
    }

    /// The parent of the slot of this number; None for a root, and for an empty slot.
    pub fn parent(&self, s: SlotNo) -> Option<SlotNo>
        requires { s.0 < 256 }
        ensures { option_map (λ (p : Slot). p.0) result ≡ parent_at self.now.set s.0 }
    {
        match self.forest.parent(s.0) {
            Some(parent) => Some(SlotNo(parent)),
            None => None,
        }
    }

    /// What slot `s` of dispatcher `d` holds; `d` and `s` are below 16.
    pub fn look(&self, d: DispNo, s: u32) -> Option<Cap>
        requires disp { d.0 < 16 }
        requires slot { s < 16 }
        ensures value { result ≡ cap_at self.now.set (slot_number d.0 s) }
        ensures form { IfSome result IsCap }
        ensures table { IsTable self.now }
    {
        self.cap(SlotNo(slot_number(d, s)))
    }

    /// The number of slot `s` of dispatcher `d`.
    fn slot_of(&self, d: DispNo, s: u32) -> SlotNo
        requires disp { d.0 < self.now.disps }
        requires slot { s < 16 }
        ensures value { result.0 ≡ slot_number d.0 s }
        ensures own { result.0 < 16 * self.now.disps }
        ensures within { result.0 < 256 }
    {
        prove!(d.0 < self.disps);
        SlotNo(slot_number(d, s))
    }

    /// Whether the slot of this number is used.
    fn is_used(&self, s: SlotNo) -> bool
        requires { s.0 < 256 }
        ensures { result ≡ is_used self.now.set s.0 }
    {
        self.forest.contains(s.0)
    }

    /// Puts a root into slot `s` of dispatcher `d`; `s` is below 16. `UsedSlot` where the slot is used.
    pub fn seat(&mut self, d: DispNo, s: u32, cap: Cap) -> Result<(), CapFault>
        requires disp { d.0 < self.old.disps }
        requires slot { s < 16 }
        requires cap { IsCap cap }
        ensures answer { result ≡ answer_of (root_fault self.old.set (slot_number d.0 s)) }
        ensures ok { OnOk result (self.new ≡ record self.old { set = with_root (slot_number d.0 s) cap self.old.set }) }
        ensures err { OnErr result (self.new ≡ self.old) }
    {
        let slot = self.slot_of(d, s);
        match self.forest.root(slot.0) {
            Ok(()) => {
                self.caps[slot.0 as usize] = cap;
                Ok(())
            }
            Err(_) => Err(CapFault::UsedSlot),
        }
    }

    /// Puts a capability of an interrupt line, with rights of at most 7, as a root into slot `s` of dispatcher `d`; `s` is below 16.
    /// `UsedSlot` where the slot is used.
    pub fn claim(&mut self, d: DispNo, s: u32, line: LineNo, rights: u8) -> Result<(), CapFault>
        requires disp { d.0 < self.old.disps }
        requires slot { s < 16 }
        requires rights { rights ≤ 7 }
        ensures answer { result ≡ answer_of (root_fault self.old.set (slot_number d.0 s)) }
        ensures ok { OnOk result (self.new ≡ record self.old {
          set = with_root (slot_number d.0 s) (record {
            kind = of_line line;
            rights = rights;
          }) self.old.set;
        }) }
        ensures err { OnErr result (self.new ≡ self.old) }
    {
        let kind = CapKind::Line(line);
        self.seat(d, s, Cap { kind, rights })
    }

    /// Puts a child of another slot into the slot of this number; both are slots of dispatchers of the block.
    /// `EmptySlot` where the parent is empty, otherwise `UsedSlot` where the slot is used.
    pub fn graft(&mut self, s: SlotNo, cap: Cap, parent: SlotNo) -> Result<(), CapFault>
        requires slot { s.0 < 16 * self.old.disps }
        requires parent { parent.0 < 16 * self.old.disps }
        requires cap { IsCap cap }
        ensures answer { result ≡ answer_of (child_fault self.old.set parent.0 s.0) }
        ensures ok { OnOk result (self.new ≡ record self.old { set = with_child parent.0 s.0 cap self.old.set }) }
        ensures err { OnErr result (self.new ≡ self.old) }
    {
        match self.forest.child(parent.0, s.0) {
            Ok(()) => {
                self.caps[s.0 as usize] = cap;
                Ok(())
            }
            Err(ForestFault::Absent) => Err(CapFault::EmptySlot),
            Err(ForestFault::Used) => Err(CapFault::UsedSlot),
        }
    }

    /// Puts what slot `a` of dispatcher `d` holds, with the rights of the mask alone, as its child into slot `b` of dispatcher `to`; `a`, `b` and `to` are
    /// below 16. `EmptySlot` where slot `a` is empty, then `UsedSlot` where slot `b` is used, then `NoRight` where `to` is another dispatcher and the right
    /// to give away is missing, then `OutOfRange` where there is no dispatcher `to`.
    pub fn copy(&mut self, d: DispNo, a: u32, to: DispNo, b: u32, mask: u8) -> Result<(), CapFault>
        requires disp { d.0 < self.old.disps }
        requires from { a < 16 }
        requires to { to.0 < 16 }
        requires slot { b < 16 }
        ensures call { IsCall self.old self.new result
            (λ p. copy_call d.0 to.0 (slot_number d.0 a) (slot_number to.0 b) mask p (cap_at p.caps (slot_number d.0 a))) }
        ensures ok { OnOk result (IfSome (cap_at self.old.set (slot_number d.0 a)) (λ cap. self.new.set ≡
            with_child (slot_number d.0 a) (slot_number to.0 b) (with_mask mask cap) self.old.set)) }
        ensures disps { self.new.disps ≡ self.old.disps }
        ensures err { OnErr result (self.new ≡ self.old) }
    {
        let from = self.slot_of(d, a);
        let slot = SlotNo(slot_number(to, b));
        let Some(cap) = self.cap(from) else {
            return Err(CapFault::EmptySlot);
        };
        if self.is_used(slot) {
            return Err(CapFault::UsedSlot);
        }
        if is_kept_from(cap, d, to) {
            return Err(CapFault::NoRight);
        }
        if self.disps() <= to.0 {
            return Err(CapFault::OutOfRange);
        }
        self.graft(slot, masked(cap, mask), from)
    }

    /// Puts the `length` words from `offset` on of the raw memory in slot `a` of dispatcher `d`, with its rights, as its child into slot `b` of that
    /// dispatcher; `a` and `b` are below 16. `EmptySlot` where slot `a` is empty, then `UsedSlot` where slot `b` is used, then `WrongKind` where slot `a` is
    /// no raw memory, then `NoRight` where the right to write is missing, then `OutOfRange` where there are no words or some are past its end, then
    /// `HasChildren` where a child is memory that meets the words.
    pub fn retype(
        &mut self,
        d: DispNo,
        a: u32,
        b: u32,
        into_frame: bool,
        offset: u32,
        length: u32,
    ) -> Result<(), CapFault>
        requires disp { d.0 < self.old.disps }
        requires from { a < 16 }
        requires slot { b < 16 }
        ensures call { IsCall self.old self.new result
            (λ p. retype_call (slot_number d.0 a) (slot_number d.0 b) into_frame offset length p (cap_at p.caps (slot_number d.0 a))) }
        ensures ok { OnOk result (IfSome (cap_at self.old.set (slot_number d.0 a)) (λ cap. self.new.set ≡
            with_child (slot_number d.0 a) (slot_number d.0 b) (memory_cap into_frame (first_word cap.kind + offset) length cap.rights) self.old.set)) }
        ensures disps { self.new.disps ≡ self.old.disps }
        ensures err { OnErr result (self.new ≡ self.old) }
    {
        let from = self.slot_of(d, a);
        let slot = self.slot_of(d, b);
        let Some(cap) = self.cap(from) else {
            return Err(CapFault::EmptySlot);
        };
        if self.is_used(slot) {
            return Err(CapFault::UsedSlot);
        }
        let CapKind::Ram {
            first,
            length: room,
        } = cap.kind
        else {
            return Err(CapFault::WrongKind);
        };
        if is_without(cap, WRITE) {
            return Err(CapFault::NoRight);
        }
        if is_outside(room, offset, length) {
            return Err(CapFault::OutOfRange);
        }
        if has_child_within(&self.forest, &self.caps, from.0, first + offset, length) {
            return Err(CapFault::HasChildren);
        }
        self.graft(
            slot,
            memory(into_frame, first + offset, length, cap.rights),
            from,
        )
    }

    /// Empties slot `a` of dispatcher `d`; `a` is below 16. Its children go to its parent, or become roots where it has none. `EmptySlot` where the slot is
    /// empty.
    pub fn delete(&mut self, d: DispNo, a: u32) -> Result<(), CapFault>
        requires disp { d.0 < self.old.disps }
        requires slot { a < 16 }
        ensures call { IsCall self.old self.new result (λ p. delete_call (slot_number d.0 a) p (cap_at p.caps (slot_number d.0 a))) }
        ensures ok { OnOk result (self.new.set ≡ after_delete (slot_number d.0 a) self.old.set) }
        ensures disps { self.new.disps ≡ self.old.disps }
        ensures err { OnErr result (self.new ≡ self.old) }
    {
        let slot = self.slot_of(d, a);
        match self.forest.remove(slot.0) {
            Ok(()) => Ok(()),
            Err(_) => Err(CapFault::EmptySlot),
        }
    }

    /// Empties all slots that descend from slot `a` of dispatcher `d`, in all dispatchers, and tells how many these are; `a` is below 16. That slot stays.
    /// `EmptySlot` where it is empty. This takes at most as many steps as the square of the used slots, besides one look at each slot.
    pub fn revoke(&mut self, d: DispNo, a: u32) -> Result<u32, CapFault>
        requires disp { d.0 < self.old.disps }
        requires slot { a < 16 }
        ensures call { IsCall self.old self.new result (λ p. revoke_call (slot_number d.0 a) p (cap_at p.caps (slot_number d.0 a))) }
        ensures count { IfOk result (λ n. n + length self.new.set ≡ length self.old.set) }
        ensures ok { OnOk result (self.new.set ≡ after_revoke (slot_number d.0 a) self.old.set) }
        ensures disps { self.new.disps ≡ self.old.disps }
        ensures err { OnErr result (self.new ≡ self.old) }
    {
        let slot = self.slot_of(d, a);
        if !self.is_used(slot) {
            return Err(CapFault::EmptySlot);
        }
        Ok(self.forest.prune(slot.0))
    }

    /// Empties all slots that hold a capability of an interrupt line, one after another, each as `delete` does.
    pub fn give(&mut self, line: LineNo)
        ensures { self.new ≡ record self.old { set = without_line line.0 self.old.set } }
    {
        remove_line(&mut self.forest, &self.caps, line);
    }
}

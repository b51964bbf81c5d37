ghost use Rattle.std.specs.Prelude.{◌≡◌, ℕ, ◌+◌, ◌-◌, ◌^◌, ◌<◌, ◌≤◌, ◌↔◌, [], length, slice_get, Some, None, IsTrue, IfOk, OnOk, OnErr, IsErr};
ghost use Rattle.std.specs.Prelude.{IsNone, IfSome, IfNone};
ghost use Rattle.dc_base.specs.Channels.{is_full, ring_after_send, ring_after_take};

use circular_buffer::HeapCircularBuffer;
use dc_base::memory::Memory;
use dc_base::messages::Message;
use std::alloc::Global;
use std::marker::Model;

/// The channel has as many untaken messages as its capacity.
#[derive(Clone, Copy, Debug, PartialEq, Eq)]
pub struct ChannelFull;

/// A channel: its messages that are sent and not taken yet, and how many were sent and taken. It holds 1 to 64.
#[derive(Debug, Drop)]
pub struct Channel {
    untaken: HeapCircularBuffer<Message>,
    sent: u64,
    taken: u64,
}

// Contracts see the ring of the machine with cores.
impl Model for Channel {
    ghost use Rattle.dc_base.specs.Channels.{Ring};

    ghost Value = { Ring };

    ghost use Rattle.dc_channel.specs.Rings.{ring_of, IsChannel};

    ghost view = { ring_of };

    ghost invariant = { IsChannel };
}

impl Channel {
    /// A channel that holds `capacity` messages, 1 to 64. No message was sent. It takes the memory for all of them.
    pub fn new(alloc: Global, capacity: u32) -> Result<Channel, Memory>
        requires some { 0 < capacity }
        requires within { capacity ≤ 64 }
        ensures { IfOk result (λ c. c ≡ record { capacity = capacity; untaken = []; sent = 0; taken = 0 }) }
    {
        let untaken = HeapCircularBuffer::with_capacity(alloc, capacity as usize)?;
        Ok(Channel {
            untaken,
            sent: 0,
            taken: 0,
        })
    }

    /// Sends a message.
    #[tactic(auto, unfolding(dc_base::specs::Channels::ring_after_send))]
    pub fn push(&mut self, m: Message) -> Result<(), ChannelFull>
        requires { self.old.sent < 2 ^ 64 - 1 }
        ensures full { IsErr result ↔ IsTrue (is_full self.old) }
        ensures sent { OnOk result (ring_after_send self.old m ≡ Some self.new) }

        // What a full channel comes to.
        ensures refused { OnErr result (ring_after_send self.old m ≡ None) }
        ensures kept { OnErr result (self.new ≡ self.old) }
    {
        match self.untaken.try_push_back(m) {
            Ok(()) => {
                self.sent += 1;
                Ok(())
            }
            Err(_) => Err(ChannelFull),
        }
    }

    /// Takes the message that was sent first of those that are untaken.
    #[tactic(auto, using(crate::proofs::Rings::takes_first, crate::proofs::Rings::takes_nothing))]
    pub fn pop(&mut self) -> Option<Message>
        ensures empty { IsNone result ↔ (self.old.untaken ≡ []) }
        ensures taken { IfSome result (λ m. ring_after_take self.old ≡ Some (m, self.new)) }

        // What an empty channel comes to.
        ensures nothing { IfNone result (ring_after_take self.old ≡ None) }
        ensures kept { IfNone result (self.new ≡ self.old) }
    {
        let first = self.untaken.pop_front();
        if first.is_some() {
            self.taken += 1;
        }
        first
    }

    /// How many messages were sent.
    pub fn sent(&self) -> u64
        ensures value { result ≡ self.now.sent }
        ensures sum { result ≡ self.now.taken + length self.now.untaken }
    {
        self.sent
    }

    /// How many messages were taken.
    pub fn taken(&self) -> u64
        ensures { result ≡ self.now.taken }
    {
        self.taken
    }

    /// The untaken message at a place, the next to be taken at 0.
    pub fn at(&self, i: u32) -> Option<Message>
        ensures { result ≡ slice_get self.now.untaken i }
    {
        self.untaken.get(i as usize).copied()
    }

    /// How many messages are untaken.
    pub fn len(&self) -> u32
        ensures value { result ≡ length self.now.untaken }
        ensures within { length self.now.untaken ≤ self.now.capacity }
    {
        self.untaken.len() as u32
    }

    pub fn is_empty(&self) -> bool
        ensures { IsTrue result ↔ (self.now.untaken ≡ []) }
    {
        self.untaken.is_empty()
    }

    pub fn is_full(&self) -> bool
        ensures { result ≡ is_full self.now }
    {
        self.untaken.is_full()
    }

    /// How many messages it holds, 1 to 64.
    pub fn capacity(&self) -> u32
        ensures value { result ≡ self.now.capacity }
        ensures some { 0 < self.now.capacity }
        ensures within { self.now.capacity ≤ 64 }
    {
        self.untaken.capacity() as u32
    }
}

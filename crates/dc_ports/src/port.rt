ghost use Rattle.std.specs.Prelude.{◌≡◌, ◌<◌, ◌≤◌, ◌↔◌, [], ◌∷◌, ◌++◌, length, slice_get, IsTrue, IsOk, OnOk, OnErr, IsNone, IfSome, IfNone};
ghost use Rattle.dc_base.specs.Limits.{port_room};

use arrayvec::ArrayVec;
use dc_base::limits::PORT_ROOM;
use dc_base::messages::Message;
use std::marker::Model;

/// The port has 8 messages.
#[derive(Clone, Copy, Debug, PartialEq, Eq)]
pub struct PortFull;

/// The messages of a port, the first to be received first, at most 8.
#[derive(Debug, Drop)]
pub struct Port {
    messages: ArrayVec<Message, PORT_ROOM>,
}

// Contracts see the list of the messages.
impl Model for Port {
    ghost use Rattle.std.specs.Prelude.{List};
    ghost use Rattle.dc_base.specs.declared.messages.Message.{Message};

    ghost Value = { List Message };

    ghost view = { λ p. p.messages.items };
}

impl Port {
    /// A port without messages.
    pub fn empty() -> Port
        ensures { result ≡ [] }
    {
        Port {
            messages: ArrayVec::new(),
        }
    }

    /// Puts the message last.
    pub fn push(&mut self, m: Message) -> Result<(), PortFull>
        ensures room { IsOk result ↔ (length self.old < port_room) }
        ensures pushed { OnOk result (self.new ≡ self.old ++ m ∷ []) }
        ensures kept { OnErr result (self.new ≡ self.old) }
    {
        self.messages.try_push(m).map_err(|_| PortFull)
    }

    /// Takes the first message out.
    pub fn pop(&mut self) -> Option<Message>
        ensures empty { IsNone result ↔ (self.old ≡ []) }
        ensures first { IfSome result (λ m. self.old ≡ m ∷ self.new) }
        ensures kept { IfNone result (self.new ≡ self.old) }
    {
        self.messages.pop_at(0)
    }

    /// The message at a place, the first at 0.
    pub fn at(&self, i: u32) -> Option<Message>
        ensures { result ≡ slice_get self.now i }
    {
        self.messages.get(i as usize).copied()
    }

    pub fn len(&self) -> u32
        ensures value { result ≡ length self.now }
        ensures within { length self.now ≤ port_room }
    {
        self.messages.len() as u32
    }

    pub fn is_empty(&self) -> bool
        ensures { IsTrue result ↔ (self.now ≡ []) }
    {
        self.messages.is_empty()
    }
}

/// A port without messages.
impl Default for Port {
    ghost use Rattle.std.specs.Prelude.{◌≡◌, []};

    ghost is_default = { λ p. p ≡ [] };

    fn default() -> Port {
        Port::empty()
    }
}

ghost use Rattle.std.specs.Prelude.{◌≡◌, ◌↔◌, ◌<◌, ◌≤◌, ◌^◌, [], ◌∷◌, ◌++◌, length, IsTrue, IfOk};

use dc_base::memory::Memory;
use dc_journal::Logged;
use std::alloc::Global;
use std::marker::Model;

/// The entries that an actor made, in order, each with its place in the history. The memory for all for which there is room was taken when it was made.
#[derive(Debug, Drop)]
pub struct ActorLog {
    entries: Vec<Logged>,
    room: u32,
}

// Contracts see the entries, and for how many there is room.
impl Model for ActorLog {
    ghost use Rattle.std.specs.Prelude.{◌≤◌, vec_len, vec_capacity};
    ghost use Rattle.dc_logs.specs.Recorded.{Recorded};

    ghost Value = { Recorded };

    ghost view = { λ l. record { entries = l.entries.items; room = l.room } };

    ghost invariant = { λ l. (vec_len l.entries ≤ l.room) × (l.room ≤ vec_capacity l.entries) };
}

impl ActorLog {
    /// A log without entries.
    pub fn with_room(alloc: Global, room: u32) -> Result<ActorLog, Memory>
        ensures { IfOk result (λ l. l ≡ record { entries = []; room = room }) }
    {
        let entries = Vec::with_capacity(alloc, room as usize)?;
        Ok(ActorLog { entries, room })
    }

    /// How many entries it has.
    pub fn len(&self) -> u64
        ensures { result ≡ length self.now.entries }
    {
        self.entries.len() as u64
    }

    /// Whether it has room for no more entries.
    pub fn is_full(&self) -> bool
        ensures value { IsTrue result ↔ (length self.now.entries ≡ self.now.room) }
        ensures most { (length self.now.entries ≤ self.now.room) × (self.now.room < 2 ^ 32) }
    {
        self.entries.len() >= self.room as usize
    }

    /// Puts an entry last, which takes no memory.
    pub fn push(&mut self, logged: Logged)
        requires room { length self.old.entries < self.old.room }
        ensures { self.new ≡ record self.old { entries = self.old.entries ++ logged ∷ [] } }
    {
        self.entries.push_reserved(logged);
    }

    /// The entries.
    pub fn into_entries(self) -> Vec<Logged>
        ensures { result.items ≡ self.entries }
    {
        self.entries
    }
}

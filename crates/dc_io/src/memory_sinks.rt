ghost use Rattle.std.specs.Prelude.{◌≡◌, ◌+◌, ◌<◌, ◌≤◌, [], length, take, Bool, false, Some, None, Ok, IfOk, OnErr, IsOk, IsErr, ◌↔◌, IsTrue};
ghost use Rattle.dc_io.specs.Counts.{Rose};
ghost use Rattle.dc_io.specs.Told.{Adds};

use crate::sinks::{Failed, Sink};
use dc_base::memory::Memory;
use std::alloc::Global;
use std::marker::Model;

/// Bytes in memory, in room that was reserved for them. A put takes the whole piece; it fails where its number is listed, counted from 1, or where the room
/// is short.
#[derive(Debug, Drop)]
pub struct MemSink {
    taken: Vec<u8>,
    room: u64,
    failing: Vec<u64>,
    calls: u64,
    faults: u64,
}

impl Model for MemSink {
    ghost use Rattle.std.specs.Prelude.{◌≤◌, vec_len, vec_capacity};
    ghost use Rattle.dc_io.specs.Room.{FailingRoom};

    ghost Value = { FailingRoom };

    ghost view = { λ s. record { taken = s.taken.items; room = s.room; failing = s.failing.items; calls = s.calls; faults = s.faults } };

    ghost invariant = { λ s. (vec_len s.taken ≤ s.room) × (s.room ≤ vec_capacity s.taken) };
}

impl MemSink {
    pub fn with_room(alloc: Global, room: u64, failing: Vec<u64>) -> Result<MemSink, Memory>
        ensures { IfOk result (λ s. s ≡ record { taken = []; room = room; failing = failing.items; calls = 0; faults = 0 }) }
    {
        match Vec::with_capacity(alloc, room as usize) {
            Ok(taken) => Ok(MemSink {
                taken,
                room,
                failing,
                calls: 0,
                faults: 0,
            }),
            Err(_) => Err(Memory),
        }
    }

    /// The bytes taken so far.
    pub fn bytes(&self) -> &[u8]
        ensures { result.now ≡ self.now.taken }
    {
        &self.taken
    }
}

impl Sink for MemSink {
    ghost use Rattle.dc_io.specs.Room.{put_fails, after_put};

    ghost faults = { λ s. s.faults };

    ghost told = { λ s. Some s.taken };

    ghost unwritten = { λ _. [] };

    ghost holds_back = { false };

    fn put(&mut self, piece: &[u8]) -> Result<usize, Failed>
        ensures failed_where { IsErr result ↔ IsTrue (put_fails self.old piece.now) }
        ensures whole { IfOk result (λ n. n ≡ length piece.now) }
        ensures after { self.new ≡ after_put self.old piece.now }
        ensures failed { OnErr result (Rose self.old.faults self.new.faults) }
        ensures grows { self.old.faults ≤ self.new.faults }
    {
        self.calls = self.calls.saturating_add(1);
        let room = self.room as usize - self.taken.len();
        if room < piece.len() || self.failing.contains(&self.calls) {
            self.faults = self.faults.saturating_add(1);
            return Err(Failed);
        }
        match self.taken.extend_from_slice(piece) {
            Ok(()) => Ok(piece.len()),
            Err(_) => unreachable!(),
        }
    }

    fn finish(&mut self) -> Result<(), Failed>
        ensures done { IsOk result }
        ensures same { self.new ≡ self.old }
    {
        Ok(())
    }
}

/// Takes each piece whole, keeps no byte and tells none. No put fails.
#[derive(Clone, Copy, Debug, Default, PartialEq, Eq)]
pub struct SteadySink;

impl SteadySink {
    pub fn new() -> SteadySink {
        SteadySink
    }
}

impl Sink for SteadySink {
    ghost faults = { λ _. 0 };

    ghost told = { λ _. None };

    ghost unwritten = { λ _. [] };

    ghost holds_back = { false };

    fn put(&mut self, piece: &[u8]) -> Result<usize, Failed>
        ensures { result ≡ Ok (length piece.now) }
    {
        Ok(piece.len())
    }

    fn finish(&mut self) -> Result<(), Failed>
        ensures { IsOk result }
    {
        Ok(())
    }
}

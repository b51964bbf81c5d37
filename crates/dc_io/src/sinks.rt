ghost use Rattle.std.specs.Prelude.{◌≡◌, ℕ, ◌<◌, ◌≤◌, List, [], length, take, Bool, Option, IsTrue, IfOk, OnOk, OnErr};
ghost use Rattle.dc_io.specs.Counts.{Rose};
ghost use Rattle.dc_io.specs.Told.{Adds, AddsPrefix, KeepsBeginning};
ghost use Rattle.dc_io.specs.declared.sinks.Ended.TheVariants.{Sink, Memory};

use std::alloc::AllocError;

/// A piece was not taken.
#[derive(Clone, Copy, Debug, PartialEq, Eq)]
pub struct Failed;

/// Why a text was not written whole: a put failed, or memory was wanting.
#[derive(Clone, Copy, Debug, PartialEq, Eq)]
pub enum Ended {
    Sink,
    Memory,
}

impl From<Failed> for Ended {
    ghost from_gives = { λ _ ended. ended ≡ Sink };

    fn from(_: Failed) -> Ended {
        Ended::Sink
    }
}

impl From<AllocError> for Ended {
    ghost from_gives = { λ _ ended. ended ≡ Memory };

    fn from(_: AllocError) -> Ended {
        Ended::Memory
    }
}

/// What takes bytes.
pub trait Sink {
    // how often bytes could not be put or written out
    ghost faults: { Self → ℕ };
    // the bytes taken so far, where they are told
    ghost told: { Self → Option (List ℕ) };
    // those of them that are still to be written out
    ghost unwritten: { Self → List ℕ };
    // whether it holds bytes back at all
    ghost holds_back: { Bool };

    /// Takes bytes from the front of the piece, and says how many: one at least, where there is one.
    fn put(&mut self, piece: &[u8]) -> Result<usize, Failed>
        ensures within { IfOk result (λ n. n ≤ length piece.now) }
        ensures some { IfOk result (λ n. 0 < length piece.now → 0 < n) }
        ensures taken { IfOk result (λ n. Adds (told self.old) (told self.new) (take n piece.now)) }
        ensures nothing { OnErr result (Adds (told self.old) (told self.new) []) }
        ensures failed { OnErr result (Rose (faults self.old) (faults self.new)) }
        ensures grows { faults self.old ≤ faults self.new };

    /// Writes out what is held back. Where that fails, an end of it is lost, and the sink goes on behind what is left.
    fn finish(&mut self) -> Result<(), Failed>
        ensures kept { OnOk result (Adds (told self.old) (told self.new) []) }
        ensures lost { OnErr result (KeepsBeginning (told self.old) (told self.new)) }
        ensures holds_back { OnErr result (IsTrue holds_back) }
        ensures failed { OnErr result (Rose (faults self.old) (faults self.new)) }
        ensures written_out { unwritten self.new ≡ [] }
        ensures grows { faults self.old ≤ faults self.new };
}

/// Puts the whole piece. Where it fails, a part was taken that the piece begins with.
pub fn put_all<S: Sink>(sink: &mut S, piece: &[u8]) -> Result<(), Failed>
    ensures ok { OnOk result (Adds (S.told sink.old) (S.told sink.new) piece.now) }
    ensures err { OnErr result (AddsPrefix (S.told sink.old) (S.told sink.new) piece.now) }
    ensures failed { OnErr result (Rose (S.faults sink.old) (S.faults sink.new)) }
    ensures grows { S.faults sink.old ≤ S.faults sink.new }
{
    let mut at = 0;
    while at < piece.len() {
        match sink.put(&piece[at..]) {
            Ok(taken) => at += taken,
            Err(failed) => return Err(failed),
        }
    }
    Ok(())
}

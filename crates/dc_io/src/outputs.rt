ghost use Rattle.std.specs.Prelude.{◌≡◌, ◌+◌, ◌<◌, ◌≤◌, [], ◌++◌, length, take, drop, vec_capacity, if◌then◌else◌, is_ok, true, IsTrue, IfOk, OnOk, OnErr};
ghost use Rattle.dc_io.specs.Counts.{Rose, counted};
ghost use Rattle.dc_io.specs.Told.{Adds, KeepsBeginning};
ghost use Rattle.dc_io.specs.Outputs.{ends_line, told_by, with_unwritten};

use crate::sinks::{Failed, Sink};
use dc_base::memory::Memory;
use std::alloc::Global;
use std::io::Write;
use std::marker::Model;

/// How many bytes are held back, at most.
const ROOM: usize = 65_536;

/// A writer, as standard output, with bytes that it is still to take and a count of the writes that failed; one that takes nothing of a piece, or is
/// interrupted, is one. The bytes held back are written out where the next piece finds no room behind them, at each whole line where lines are to appear at
/// once, and at the finish. A write that fails in a put leaves them to the next one; where it fails in the finish, they are lost.
#[derive(Drop)]
pub struct OutSink<W> {
    out: W,
    unwritten: Vec<u8>,
    faults: u64,
    lines_at_once: bool,
}

// Contracts see the writer, the bytes held back, the count and the mode.
impl<W> Model for OutSink<W> {
    ghost use Rattle.std.specs.Prelude.{◌≤◌, vec_len, vec_capacity};
    ghost use Rattle.dc_io.specs.Outputs.{Output};

    ghost Value = { Output W };

    ghost view = { λ s. record { out = s.out; unwritten = s.unwritten.items; faults = s.faults; lines_at_once = s.lines_at_once } };

    ghost invariant = { λ s. (vec_len s.unwritten ≤ 65536) × (65536 ≤ vec_capacity s.unwritten) };
}

/// Writes bytes until a write fails, and says how many were taken.
fn write_front<W: Write>(out: &mut W, bytes: &[u8]) -> usize
    ensures within { result ≤ length bytes.now }
    ensures taken { Adds (W.contents out.old) (W.contents out.new) (take result bytes.now) }
{
    let mut at = 0;
    while at < bytes.len() {
        match out.write(&bytes[at..]) {
            Ok(taken) if taken > 0 => at += taken,
            _ => return at,
        }
    }
    at
}

/// Drops the first n bytes.
fn drop_front(bytes: &mut Vec<u8>, n: usize)
    requires { n ≤ length bytes.old.items }
    ensures rest { bytes.new.items ≡ drop n bytes.old.items }
    ensures capacity { vec_capacity bytes.new ≡ vec_capacity bytes.old }
{
    if n == bytes.len() {
        bytes.clear();
        return;
    }
    drop(bytes.drain(..n));
}

fn ends_line(piece: &[u8]) -> bool
    ensures { result ≡ ends_line piece.now }
{
    piece.ends_with(b"\n")
}

impl<W: Write + Drop> OutSink<W> {
    /// Nothing is held back yet, so what is told is what the writer has taken.
    pub fn new(alloc: Global, out: W, lines_at_once: bool) -> Result<OutSink<W>, Memory>
        ensures made { IfOk result (λ s. s ≡ record { out = out; unwritten = []; faults = 0; lines_at_once = lines_at_once }) }
        ensures told { IfOk result (λ s. told_by W.contents s ≡ W.contents out) }
    {
        match Vec::with_capacity(alloc, ROOM) {
            Ok(unwritten) => Ok(OutSink {
                out,
                unwritten,
                faults: 0,
                lines_at_once,
            }),
            Err(_) => Err(Memory),
        }
    }

    /// How many writes failed.
    pub fn faults(&self) -> u64
        ensures { result ≡ self.now.faults }
    {
        self.faults
    }

    /// Counts a write that failed.
    fn count_fault(&mut self)
        ensures counts { self.new ≡ record self.old { faults = counted self.old.faults } }
        ensures grows { self.old.faults ≤ self.new.faults }
    {
        self.faults = self.faults.saturating_add(1);
    }

    /// Writes out what is held back. Where a write fails, the bytes that were not taken are kept.
    #[tactic(auto, using(crate::proofs::Unwritten::front_taken))]
    fn write_out(&mut self) -> Result<(), Failed>
        ensures kept { Adds (told_by W.contents self.old) (told_by W.contents self.new) [] }
        ensures written_out { OnOk result (self.new.unwritten ≡ []) }
        ensures counts { self.new.faults ≡ (if is_ok result then self.old.faults else counted self.old.faults) }
        ensures grows { self.old.faults ≤ self.new.faults }
        ensures same { self.new.lines_at_once ≡ self.old.lines_at_once }
    {
        let taken = write_front(&mut self.out, &self.unwritten);
        drop_front(&mut self.unwritten, taken);
        if self.unwritten.is_empty() {
            return Ok(());
        }
        self.count_fault();
        Err(Failed)
    }

    /// Writes a piece, where nothing is held back.
    #[tactic(auto, using(crate::proofs::Unwritten::appended, crate::proofs::Unwritten::taken_added))]
    fn pass_on(&mut self, piece: &[u8]) -> Result<usize, Failed>
        requires { self.old.unwritten ≡ [] }
        ensures within { IfOk result (λ n. n ≤ length piece.now) }
        ensures some { IfOk result (λ n. 0 < length piece.now → 0 < n) }
        ensures taken { IfOk result (λ n. Adds (with_unwritten (W.contents self.old.out) [])
            (with_unwritten (W.contents self.new.out) []) (take n piece.now)) }
        ensures nothing { OnErr result (Adds (with_unwritten (W.contents self.old.out) []) (with_unwritten (W.contents self.new.out) []) []) }
        ensures counts { self.new.faults ≡ (if is_ok result then self.old.faults else counted self.old.faults) }
        ensures written_out { self.new.unwritten ≡ [] }
        ensures same { self.new.lines_at_once ≡ self.old.lines_at_once }
    {
        match self.out.write(piece) {
            Ok(taken) if taken > 0 || piece.is_empty() => Ok(taken),
            _ => {
                self.count_fault();
                Err(Failed)
            }
        }
    }

    /// Makes room behind what is held back.
    fn make_room(&mut self, size: usize) -> Result<(), Failed>
        requires { size ≤ 65536 }
        ensures kept { Adds (told_by W.contents self.old) (told_by W.contents self.new) [] }
        ensures room { OnOk result (length self.new.unwritten + size ≤ 65536) }
        ensures counts { self.new.faults ≡ (if is_ok result then self.old.faults else counted self.old.faults) }
        ensures same { self.new.lines_at_once ≡ self.old.lines_at_once }
    {
        if ROOM - self.unwritten.len() < size {
            self.write_out()
        } else {
            Ok(())
        }
    }

    /// Holds a piece back.
    fn hold_back(&mut self, piece: &[u8])
        requires { length self.old.unwritten + length piece.now ≤ 65536 }
        ensures { self.new ≡ record self.old { unwritten = self.old.unwritten ++ piece.now } }
    {
        match self.unwritten.extend_from_slice(piece) {
            Ok(()) => {}
            Err(_) => unreachable!(),
        }
    }

    /// Lets go what is held back.
    fn let_go(&mut self)
        ensures { self.new ≡ record self.old { unwritten = [] } }
    {
        self.unwritten.clear();
    }

    /// Has the writer write out what it holds itself.
    #[tactic(auto, using(crate::proofs::Unwritten::kept_unwritten))]
    fn flush(&mut self) -> Result<(), Failed>
        ensures kept { Adds (told_by W.contents self.old) (told_by W.contents self.new) [] }
        ensures counts { self.new.faults ≡ (if is_ok result then self.old.faults else counted self.old.faults) }
        ensures grows { self.old.faults ≤ self.new.faults }
        ensures unwritten { self.new.unwritten ≡ self.old.unwritten }
        ensures same { self.new.lines_at_once ≡ self.old.lines_at_once }
    {
        match self.out.flush() {
            Ok(()) => Ok(()),
            Err(_) => {
                self.count_fault();
                Err(Failed)
            }
        }
    }
}

impl<W: Write + Drop> Sink for OutSink<W> {
    ghost faults = { λ s. s.faults };

    ghost told = { told_by W.contents };

    ghost unwritten = { λ s. s.unwritten };

    ghost holds_back = { true };

    fn put(&mut self, piece: &[u8]) -> Result<usize, Failed>
        ensures within { IfOk result (λ n. n ≤ length piece.now) }
        ensures some { IfOk result (λ n. 0 < length piece.now → 0 < n) }
        ensures taken { IfOk result (λ n. Adds (told_by W.contents self.old) (told_by W.contents self.new) (take n piece.now)) }
        ensures nothing { OnErr result (Adds (told_by W.contents self.old) (told_by W.contents self.new) []) }
        ensures counts { self.new.faults ≡ (if is_ok result then self.old.faults else counted self.old.faults) }
        ensures failed { OnErr result (Rose self.old.faults self.new.faults) }
        ensures grows { self.old.faults ≤ self.new.faults }
        // A whole line is written out where lines are to appear at once.
        ensures at_once { OnOk result (IsTrue self.old.lines_at_once → IsTrue (ends_line piece.now) → self.new.unwritten ≡ []) }
        ensures same { self.new.lines_at_once ≡ self.old.lines_at_once }
    {
        if piece.len() > ROOM || (self.lines_at_once && ends_line(piece)) {
            return match self.write_out() {
                Ok(()) => self.pass_on(piece),
                Err(failed) => Err(failed),
            };
        }
        match self.make_room(piece.len()) {
            Ok(()) => {
                self.hold_back(piece);
                Ok(piece.len())
            }
            Err(failed) => Err(failed),
        }
    }

    fn finish(&mut self) -> Result<(), Failed>
        ensures kept { OnOk result (Adds (told_by W.contents self.old) (told_by W.contents self.new) []) }
        ensures lost { OnErr result (KeepsBeginning (told_by W.contents self.old) (told_by W.contents self.new)) }
        ensures counts { self.new.faults ≡ (if is_ok result then self.old.faults else counted self.old.faults) }
        ensures failed { OnErr result (Rose self.old.faults self.new.faults) }
        ensures written_out { self.new.unwritten ≡ [] }
        ensures grows { self.old.faults ≤ self.new.faults }
        ensures same { self.new.lines_at_once ≡ self.old.lines_at_once }
    {
        match self.write_out() {
            Ok(()) => self.flush(),
            Err(failed) => {
                self.let_go();
                Err(failed)
            }
        }
    }
}

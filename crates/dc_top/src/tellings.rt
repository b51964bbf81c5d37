//! How it is told that nothing is played.

ghost use Rattle.std.specs.Prelude.{◌≤◌};
ghost use Rattle.dc_top.specs.Halts.{HaltTold};

use crate::bad_inputs::{put_bad_input, put_read_fault, status_of};
use crate::halts::Halt;
use crate::statuses::status_for;
use dc_io::Sink;

/// Writes why nothing is played, and says the status.
#[tactic(auto, using(crate::proofs::Answers::writes_as))]
pub fn tell<S: Sink>(halt: &Halt<'_>, sink: &mut S) -> u8
    ensures told { HaltTold halt.now (S.faults sink.old) (S.faults sink.new) (S.told sink.old) (S.told sink.new) result }
    ensures grows { S.faults sink.old ≤ S.faults sink.new }
{
    match halt {
        Halt::Refused(input) => status_for(put_bad_input(input, sink), status_of(input)),
        Halt::Unread(name) => status_for(put_read_fault(name, sink), 5),
        Halt::Memory => 7,
    }
}

//! The objects that an actor holds from turn to turn.

ghost use Rattle.std.specs.Prelude.{◌≡◌, ◌==◌, ◌≤◌, ℕ, Some, is_some, false, length, slice_get};
ghost use Rattle.std.specs.Option.{option_map, option_map_or};
ghost use Rattle.dc_base.specs.KeptByBlocks.{HasShape};
ghost use Rattle.dc_base.specs.Named.{waits_on_channel};
ghost use Rattle.dc_base.specs.Outcomes.{share_blocks};
ghost use Rattle.dc_base.specs.Script.{next_raise};
ghost use Rattle.dc_base.specs.States.{Block};
ghost use Rattle.dc_hands.specs.Rows.{in_row};

use crate::rows::Row;
use dc_base::commands::ScriptLine;
use dc_base::numbers::{BlockNo, CoreNo, DispNo};
use dc_bodies::{Blocks, channel_wait};
use dc_kernel::Driver;
use dc_objects::{CoreState, ScriptState};

/// A core and the blocks of its share.
#[derive(Drop)]
pub struct CoreHand<D: Driver> {
    pub number: CoreNo,
    pub core: CoreState,
    pub row: Row<D>,
}

/// The script, and how many polls were made of the command at its place.
#[derive(Drop)]
pub struct ScriptHand {
    pub script: ScriptState,
    pub polls: u32,
}

impl<D: Driver> CoreHand<D> {
    /// The number of the core.
    pub fn number(&self) -> CoreNo
        ensures { result ≡ self.now.number }
    {
        self.number
    }

    /// Whether the core is on.
    pub fn is_on(&self) -> bool
        ensures { result ≡ is_some self.now.core.version }
    {
        self.core.version().is_some()
    }

    /// Whether the core's whole budget is used.
    pub fn is_spent(&self) -> bool
        ensures { result ≡ (self.now.core.used == self.now.core.settings.slices) }
    {
        self.core.is_spent()
    }

    /// How many blocks are in the core's share, at most 9.
    pub fn share_len(&self) -> u32
        ensures value { result ≡ length self.now.core.share }
        ensures most { length self.now.core.share ≤ 9 }
    {
        self.core.share().len()
    }

    /// The block at a place of the core's share, the first at 0.
    pub fn share_at(&self, i: u32) -> Option<BlockNo>
        ensures { option_map (λ b. b.0) result ≡ slice_get (share_blocks self.now.core.share) i }
    {
        self.core.share().at(i)
    }

    /// How many dispatchers block `b` of the share has.
    pub fn disps(&self, b: BlockNo) -> u32
        ensures { (x : Block) → in_row self.now.row b.0 ≡ Some x → result ≡ length x.control.states }
    {
        match self.row.block(b) {
            Some(block) => block.disps(),
            None => 0,
        }
    }

    /// Whether dispatcher `d` of block `b` of the share waits on a channel.
    #[tactic(auto, using(crate::proofs::Waiters::waits_shown))]
    pub fn waits(&self, b: BlockNo, d: DispNo) -> bool
        requires { (x : Block) → in_row self.now.row b.0 ≡ Some x → HasShape x.control }
        ensures { (x : Block) → in_row self.now.row b.0 ≡ Some x → result ≡ option_map_or waits_on_channel (slice_get x.control.states d.0) false }
    {
        match self.row.block(b) {
            Some(block) => channel_wait(block, d).is_some(),
            None => false,
        }
    }
}

impl ScriptHand {
    /// How many polls were made of the command at the script's place.
    pub fn polls(&self) -> u32
        ensures { result ≡ self.now.polls }
    {
        self.polls
    }

    /// The line of the first command that is not finished, or the number of lines.
    pub fn place(&self) -> u32
        ensures value { result ≡ self.now.script.place }
        ensures within { self.now.script.place ≤ length self.now.script.lines }
    {
        self.script.place()
    }

    /// Whether every command is finished.
    pub fn is_over(&self) -> bool
        ensures { result ≡ (self.now.script.place == length self.now.script.lines) }
    {
        self.script.is_over()
    }

    /// The line at a place.
    pub fn line(&self, q: u32) -> Option<ScriptLine>
        ensures { result ≡ slice_get self.now.script.lines q }
    {
        self.script.line(q)
    }

    /// The place of the next raise, if one is left.
    pub fn next_raise(&self) -> Option<u32>
        ensures { result ≡ next_raise self.now.script.lines self.now.script.raises }
    {
        self.script.next_raise()
    }
}

ghost use Rattle.std.specs.Prelude.{◌≡◌, ◌≤◌, ◌<◌, ◌^◌};
ghost use Rattle.dc_kcb.specs.Wholes.{resting_of, AreWhole};

use crate::parts::Parts;
use std::marker::Model;

/// A kernel control block: a block at rest, with its kept time.
#[derive(Drop)]
pub struct Kcb {
    pub(crate) parts: Parts,
}

impl Model for Kcb {
    ghost use Rattle.dc_kcb.specs.Wholes.{Resting};

    ghost Value = { Resting };

    ghost use Rattle.dc_kcb.specs.Wholes.{resting_of, AreWhole};

    ghost view = { λ k. resting_of k.parts };

    ghost invariant = { λ k. AreWhole k.parts };
}

impl Kcb {
    /// The block of these parts, which are whole.
    pub fn put_together(parts: Parts) -> Kcb
        requires { AreWhole parts }
        ensures { result ≡ resting_of parts }
    {
        Kcb { parts }
    }

    /// What the block is made of. Put together again it is the same block.
    pub fn take_apart(self) -> Parts
        ensures block { resting_of result ≡ self }
        ensures whole { AreWhole result }
    {
        self.parts
    }

    /// The kept time.
    pub fn time(&self) -> u64
        ensures { result ≡ self.now.kept }
    {
        self.parts.time
    }

    /// Sets the kept time, which does not go back.
    pub fn advance_to(&mut self, time: u64)
        requires forward { self.old.kept ≤ time }
        requires below { time < 2 ^ 63 }
        ensures { self.new ≡ record self.old { kept = time } }
    {
        self.parts.time = time;
    }
}

ghost use Rattle.std.specs.Prelude.{◌≡◌, None};
ghost use Rattle.dc_base.specs.Ports.{signal_after, how_latched};

use dc_base::interrupts::{Latch, Latched};
use std::marker::Model;

/// A signal, which holds at most one latch.
#[derive(Clone, Copy, Debug, PartialEq, Eq)]
pub struct Signal {
    held: Option<Latch>,
}

// Contracts see the latch, if it holds one.
impl Model for Signal {
    ghost use Rattle.std.specs.Prelude.{Option};
    ghost use Rattle.dc_base.specs.declared.interrupts.Latch.{Latch};

    ghost Value = { Option Latch };

    ghost view = { λ s. s.held };

    ghost inverse = { λ o. record { held = o } };
}

impl Signal {
    /// A signal without a latch.
    pub fn empty() -> Signal
        ensures { result ≡ None }
    {
        Signal { held: None }
    }

    /// Puts the latch there, unless there is one, which stays.
    pub fn latch(&mut self, l: Latch) -> Latched
        ensures how { result ≡ how_latched self.old }
        ensures after { self.new ≡ signal_after l self.old }
    {
        if self.held.is_some() {
            return Latched::Coalesced;
        }
        self.held = Some(l);
        Latched::Latched
    }

    /// Takes the latch, if there is one, and leaves none.
    pub fn take(&mut self) -> Option<Latch>
        ensures latch { result ≡ self.old }
        ensures none_left { self.new ≡ None }
    {
        self.held.take()
    }

    /// The latch, if there is one.
    pub fn look(&self) -> Option<Latch>
        ensures { result ≡ self.now }
    {
        self.held
    }
}

/// A signal without a latch.
impl Default for Signal {
    ghost use Rattle.std.specs.Prelude.{◌≡◌, None};

    ghost is_default = { λ s. s ≡ None };

    fn default() -> Signal {
        Signal::empty()
    }
}

ghost use Rattle.std.specs.Prelude.{◌≡◌, ℕ, ◌+◌, ◌-◌, ◌^◌, ◌<◌, ◌≤◌, Some, None, IsSome, IfSome, IfNone, OnSome};
ghost use Rattle.dc_base.specs.Lines.{how_raised, wire_after_raise, wire_after_intake, rights_over};
ghost use Rattle.dc_base.specs.States.{idle_wire};
ghost use Rattle.dc_lines.specs.Wires.{binding_of, route_of, offer_of, tally_of, AddUp};

use crate::counts::Counts;
use dc_base::interrupts::Raised;
use dc_base::numbers::{BlockNo, ChanNo, CoreNo, SignalNo};
use dc_ports::Latched;
use std::marker::Model;

/// An interrupt line. It may be bound to a signal of a block, routed to a core, and offered over a channel with rights of at most 7.
/// Its raises are numbered from 1, and at most one of them is pending.
#[derive(Debug, Drop)]
pub struct Line {
    bound: Option<(BlockNo, SignalNo)>,
    route: Option<CoreNo>,
    pending: Option<u32>,
    offer: Option<(ChanNo, u8)>,
    counts: Counts,
}

// Contracts see the wire of the machine with cores.
impl Model for Line {
    ghost use Rattle.dc_base.specs.Lines.{Wire};

    ghost Value = { Wire };

    ghost use Rattle.dc_lines.specs.Lines.{wire_of, IsLine};

    ghost view = { wire_of };

    ghost invariant = { IsLine };
}

impl Line {
    /// A line that is not bound, routed or offered, and was never raised.
    pub fn idle() -> Line
        ensures { result ≡ idle_wire }
    {
        Line {
            bound: None,
            route: None,
            pending: None,
            offer: None,
            counts: Counts::default(),
        }
    }

    /// Raises the line. The raise is stray where the line is not bound, coalesced where another is pending, and else pending.
    #[tactic(auto, unfolding(dc_base::specs::Lines::wire_after_raise))]
    pub fn raise(&mut self) -> Raised
        requires { self.old.counts.raised < 2 ^ 32 - 1 }
        ensures raised { result ≡ how_raised (self.old.counts.raised + 1) self.old.bound self.old.pending }
        ensures after { self.new ≡ wire_after_raise self.old }
    {
        self.counts.raised += 1;
        let number = self.counts.raised;
        if self.bound.is_none() {
            self.counts.stray += 1;
            return Raised::Stray(number);
        }
        if self.pending.is_some() {
            self.counts.merged += 1;
            return Raised::Coalesced(number);
        }
        self.pending = Some(number);
        Raised::Pended(number)
    }

    /// Binds the line to a signal of a block, and routes it to a core. A pending raise and an offer stay.
    pub fn bind(&mut self, b: BlockNo, s: SignalNo, core: CoreNo)
        ensures { self.new ≡ record self.old { bound = Some (b.0, s.0); route = Some core.0 } }
    {
        self.bound = Some((b, s));
        self.route = Some(core);
    }

    /// Routes the line to a core.
    pub fn route(&mut self, core: CoreNo)
        ensures { self.new ≡ record self.old { route = Some core.0 } }
    {
        self.route = Some(core);
    }

    /// The pending raise reached the bound signal. It is counted by how it came there.
    #[tactic(auto, unfolding(dc_base::specs::Lines::wire_after_intake))]
    pub fn intake(&mut self, l: Latched)
        requires bound { IsSome self.old.bound }
        requires pending { IsSome self.old.pending }
        ensures { self.new ≡ wire_after_intake l self.old }
    {
        self.pending = None;
        match l {
            Latched::Latched => self.counts.given += 1,
            Latched::Coalesced => self.counts.joined += 1,
        }
    }

    /// Offers the line over a channel with rights of at most 7, and ends its binding. Its route and a pending raise stay.
    pub fn give(&mut self, x: ChanNo, rights: u8)
        requires rights { rights ≤ 7 }
        ensures { self.new ≡ record self.old { bound = None; offer = Some (x.0, rights) } }
    {
        self.bound = None;
        self.offer = Some((x, rights));
    }

    /// Ends an offer over the channel, and answers its rights. None where the line is not offered over it.
    pub fn claim(&mut self, x: ChanNo) -> Option<u8>
        ensures rights { result ≡ rights_over x.0 self.old.offer }
        ensures within { IfSome result (λ r. r ≤ 7) }
        ensures claimed { OnSome result (self.new ≡ record self.old { offer = None }) }
        ensures kept { IfNone result (self.new ≡ self.old) }
    {
        let (over, rights) = self.offer?;
        if over != x {
            return None;
        }
        self.offer = None;
        Some(rights)
    }

    /// The signal that the line is bound to.
    pub fn bound(&self) -> Option<(BlockNo, SignalNo)>
        ensures { binding_of result ≡ self.now.bound }
    {
        self.bound
    }

    /// The core that takes raises of the line in.
    pub fn routed(&self) -> Option<CoreNo>
        ensures { route_of result ≡ self.now.route }
    {
        self.route
    }

    /// The number of the pending raise.
    pub fn pending(&self) -> Option<u32>
        ensures value { result ≡ self.now.pending }
        ensures first { IfSome self.now.pending (λ n. 0 < n) }
        ensures last { IfSome self.now.pending (λ n. n ≤ self.now.counts.raised) }
    {
        self.pending
    }

    /// The channel that the line is offered over, and the offered rights, at most 7.
    pub fn offered(&self) -> Option<(ChanNo, u8)>
        ensures value { offer_of result ≡ self.now.offer }
        ensures rights { IfSome self.now.offer (λ o. o.1 ≤ 7) }
    {
        self.offer
    }

    /// How many raises there were, and what became of them.
    pub fn counts(&self) -> Counts
        ensures value { tally_of result ≡ self.now.counts }
        ensures sum { AddUp self.now.counts self.now.pending }
    {
        self.counts
    }
}

//! A block as a kernel works on it.

ghost use Rattle.std.specs.Prelude.{◌≡◌, ◌<◌, ◌≤◌, Some, length, slice_get};
ghost use Rattle.dc_base.specs.Effects.{Context};
ghost use Rattle.dc_base.specs.Kernel.{with_next_place};
ghost use Rattle.dc_base.specs.Words.{Each};

use crate::agendas::Agenda;
use arrayvec::ArrayVec;
use dc_base::numbers::DispNo;
use dc_caps::Table;
use dc_ports::Port;
use dc_ready::ReadyList;
use dc_timers::TimerQueue;
use std::marker::Model;

/// A block under a kernel, without its clock. Contracts see its control block.
#[derive(Drop)]
pub struct Form<R: ReadyList, T: TimerQueue> {
    pub(crate) memory: Vec<u32>,
    pub(crate) code: Vec<Vec<u32>>,
    pub(crate) table: Table,
    pub(crate) ports: ArrayVec<Port, 16>,
    pub(crate) agenda: Agenda<R, T>,
}

impl<R: ReadyList, T: TimerQueue> Model for Form<R, T> {
    ghost use Rattle.std.specs.Prelude.{◌≡◌, map, length};
    ghost use Rattle.dc_base.specs.ControlBlocks.{ControlBlock};
    ghost use Rattle.dc_kcb.specs.Controls.{control_of};

    ghost Value = { ControlBlock };

    ghost view = { λ f. control_of (record {
      memory = f.memory.items;
      code = map (λ v. v.items) f.code.items;
      caps = f.table.set;
      ports = f.ports.items;
    }) f.agenda };

    ghost invariant = { λ f. f.table.disps ≡ length f.agenda.disps };
}

impl<R: ReadyList, T: TimerQueue> Form<R, T> {
    /// The place of the dispatcher moves on by one.
    pub(crate) fn go_on(&mut self, d: DispNo)
        requires there { d.0 < length self.old.parts.contexts }
        requires places { Each self.old.parts.contexts (λ d (c : Context). c.place ≤ 65535) }
        ensures { (x : Context) → slice_get self.old.parts.contexts d.0 ≡ Some x →
            self.new ≡ record self.old { parts = with_next_place d.0 x self.old.parts } }
    {
        let disp = self.agenda.disp(d);
        self.agenda.go_to(d, disp.regs, disp.place + 1);
    }
}

//! The round-robin kernel: its version picks the first of the ready dispatchers.
#![tactic(auto)]

use dc_kernel::Kernel;
use dc_ready::Fifo;
use dc_timers::TimerList;

/// The round-robin kernel. Its ready dispatchers stand in a queue, and its timers in a list in order of deadline and number.
pub type RrDriver = Kernel<Fifo, TimerList>;

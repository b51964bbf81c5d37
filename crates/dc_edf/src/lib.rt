//! The earliest-deadline-first kernel: its version picks the ready dispatcher with the least due.
#![tactic(auto)]

use dc_kernel::Kernel;
use dc_ready::DueHeap;
use dc_timers::TimerWheel;

/// The earliest-deadline-first kernel. Its ready dispatchers stand in a heap by their dues, and its timers in a wheel.
pub type EdfDriver = Kernel<DueHeap, TimerWheel>;

use arrayvec::ArrayVec;
use dc_base::interrupts::Timer;
use dc_base::numbers::DispNo;
use dc_caps::Table;
use dc_isa::Dispatcher;
use dc_ports::{Port, Signal};

/// What a kernel control block is made of: the memory of 4,096 words, the code of each dispatcher, the capabilities, the dispatchers, the ready list in
/// order of arrival with dues, the armed timers by (deadline, number), the number of the timer that is armed next, the ports, the signals, and the kept
/// time.
#[derive(Drop)]
pub struct Parts {
    pub memory: Vec<u32>,
    pub code: Vec<Vec<u32>>,
    pub table: Table,
    pub disps: ArrayVec<Dispatcher, 16>,
    pub ready: ArrayVec<(DispNo, u64), 16>,
    pub timers: ArrayVec<Timer, 64>,
    pub next_timer: u32,
    pub ports: ArrayVec<Port, 16>,
    pub signals: ArrayVec<Signal, 16>,
    pub time: u64,
}

use dc_base::calls::End;
use dc_base::numbers::DispNo;

/// What a slice did: the dispatcher that ran, how many timers fired, how many plain instructions ran, its end, and how far it takes the core's clock.
#[derive(Clone, Copy, Debug, PartialEq, Eq)]
pub struct Sliced {
    pub disp: Option<DispNo>,
    pub fired: u32,
    pub ran: u32,
    pub end: End,
    pub advance: u32,
}

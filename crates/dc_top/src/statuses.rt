//! The status of what was written.

ghost use Rattle.std.specs.Prelude.{◌≡◌};
ghost use Rattle.dc_top.specs.Written as spec;

use dc_io::{Ended, Failed};

/// The status where the text was written whole, and 6 where a put failed.
pub fn status_for(outcome: Result<(), Failed>, status: u8) -> u8
    ensures { result ≡ spec.status_for outcome status }
{
    match outcome {
        Ok(()) => status,
        Err(_) => 6,
    }
}

/// 0 where the text of a play was written whole, 6 where a put failed, and 7 where memory was wanting.
pub fn status_of_play(outcome: Result<(), Ended>) -> u8
    ensures { result ≡ spec.status_of_play outcome }
{
    match outcome {
        Ok(()) => 0,
        Err(Ended::Sink) => 6,
        Err(Ended::Memory) => 7,
    }
}

//! A scene of two numbers.
use crate::Scene;

/// Two numbers, which are 0 at the start.
#[derive(Drop)]
pub struct Tally;

/// Adds one to the number `.0`. It is always lawful.
#[derive(Clone, Copy, Drop)]
pub struct Add(pub u32);

impl Scene for Tally {
    ghost use Rattle.dc_stage.specs.Tally.{tally, tally_untouched, tally_local};

    type Object = u64;

    type Whole = (u64, u64);

    type State = u64;

    type Entry = Add;

    ghost state = { λ n. n };

    ghost meaning = { λ _. tally (λ e. e.0) };

    ghost untouched = { λ _. tally_untouched (λ e. e.0) };

    ghost local = { λ _. tally_local (λ e. e.0) };
}

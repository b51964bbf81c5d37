//! What runs the instructions of a block.

use dc_base::dispatchers::DispState;

/// A dispatcher: its registers, the place of its next word in its code, and its state.
/// The second kernel orders ready dispatchers by `due`, which grows by `period` after each slice.
#[derive(Clone, Copy, Debug, PartialEq, Eq)]
pub struct Dispatcher {
    pub regs: [u32; 8],
    pub place: u32,
    pub state: DispState,
    pub due: u64,
    pub period: u32,
}

/// A ready dispatcher at the first place, with registers of 0.
impl Default for Dispatcher {
    ghost use Rattle.std.specs.Prelude.{◌≡◌, replicate};
    ghost use Rattle.dc_base.specs.declared.dispatchers.DispState.TheVariants.{Ready};

    ghost is_default = { λ d. d ≡ record { regs = replicate 8 0; place = 0; state = Ready; due = 0; period = 1 } };

    fn default() -> Self {
        Dispatcher {
            regs: [0; 8],
            place: 0,
            state: DispState::Ready,
            due: 0,
            period: 1,
        }
    }
}

//! Who acts, and what an actor may do.

use crate::numbers::{BlockNo, CoreNo, DispNo, LineNo};

/// Who acts: a core, or the boot driver, which is called the script.
#[derive(Clone, Copy, Debug, PartialEq, Eq)]
pub enum Actor {
    Core(CoreNo),
    Script,
}

/// What an actor may do. `Step`, `Order`, `Intake` and `Wake` are a core's, `Script` and `Raise` are the script's.
#[derive(Clone, Copy, Debug, PartialEq, Eq)]
pub enum Action {
    Step,
    Order,
    Intake(LineNo),
    Wake(BlockNo, DispNo),
    Script,
    Raise,
}

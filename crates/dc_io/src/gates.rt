use dc_base::numbers::CoreNo;

/// What a core's thread passes at the beginning of each round.
pub trait Gate: Sync {
    /// Is told the core, answers nothing and returns.
    fn pass(&self, core: CoreNo);
}

/// The gate that does nothing.
#[derive(Clone, Copy, Debug, Default, PartialEq, Eq)]
pub struct Open;

impl Gate for Open {
    fn pass(&self, _core: CoreNo) {}
}

use dc_base::dispatchers::Wait;

/// What a kernel call came to: a trap, a wait of its dispatcher, or that it was made and woke those that wait so.
#[derive(Clone, Copy)]
pub enum Answer {
    Fault(u8),
    Hold(Wait),
    Made(Option<Wait>),
}

//! What the threads of a run tell each other.
use std::sync::atomic::{AtomicBool, AtomicU64, Ordering};

/// What one core tells the others.
#[derive(Drop)]
struct CoreFlags {
    /// No thread could be made for it.
    refused: AtomicBool,
    /// One more than the length of the history at which it found nothing to do, or 0.
    quiet: AtomicU64,
}

impl CoreFlags {
    fn new() -> CoreFlags {
        CoreFlags {
            refused: AtomicBool::new(false),
            quiet: AtomicU64::new(0),
        }
    }
}

/// What the threads of a run tell each other. They only steer when a thread ends, and nothing that is proved rests on them.
#[derive(Drop)]
pub struct Flags {
    resting: AtomicBool,
    full: AtomicBool,
    cores: [CoreFlags; 8],
}

impl Flags {
    /// The flags of a run that goes on, of up to 8 cores.
    pub fn new() -> Flags {
        Flags {
            resting: AtomicBool::new(false),
            full: AtomicBool::new(false),
            cores: [
                CoreFlags::new(),
                CoreFlags::new(),
                CoreFlags::new(),
                CoreFlags::new(),
                CoreFlags::new(),
                CoreFlags::new(),
                CoreFlags::new(),
                CoreFlags::new(),
            ],
        }
    }

    /// The cores are to end once they find nothing to do, or they go on.
    pub fn call_rest(&self, resting: bool) {
        self.resting.store(resting, Ordering::SeqCst);
    }

    /// Whether the cores are to end.
    pub fn is_rest_called(&self) -> bool {
        self.resting.load(Ordering::SeqCst)
    }

    /// The log of a core is full, so that it makes no more entries, or none is known to be.
    pub fn set_full(&self, full: bool) {
        self.full.store(full, Ordering::SeqCst);
    }

    /// Whether the log of a core is full.
    pub fn is_full(&self) -> bool {
        self.full.load(Ordering::SeqCst)
    }

    /// No thread could be made for the core, or one may be made.
    pub fn refuse(&self, core: u32, refused: bool) {
        self.cores[(core % 8) as usize]
            .refused
            .store(refused, Ordering::SeqCst);
    }

    /// Whether no thread could be made for the core.
    pub fn is_refused(&self, core: u32) -> bool {
        self.cores[(core % 8) as usize]
            .refused
            .load(Ordering::SeqCst)
    }

    /// The core found nothing to do in a history of this length.
    pub fn set_quiet(&self, core: u32, length: u64) {
        self.cores[(core % 8) as usize]
            .quiet
            .store(length.saturating_add(1), Ordering::SeqCst);
    }

    /// The core made an entry.
    pub fn set_busy(&self, core: u32) {
        self.cores[(core % 8) as usize]
            .quiet
            .store(0, Ordering::SeqCst);
    }

    /// Whether the core found nothing to do in a history of this length.
    pub fn is_quiet(&self, core: u32, length: u64) -> bool {
        self.cores[(core % 8) as usize].quiet.load(Ordering::SeqCst) == length.saturating_add(1)
    }
}

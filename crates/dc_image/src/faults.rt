//! Why an image is refused, with the key named by its place.

ghost use Rattle.std.specs.Prelude.{◌≡◌, Some};
ghost use Rattle.dc_image.specs.Faults.{refusal_at, refusal_of};
ghost use Rattle.dc_image.specs.declared.faults.Fault.TheVariants.{Memory};

use crate::keys::At;
use dc_base::faults::{AsmKind, ImageFault};
use std::alloc::{AllocError, AllocFailed};

/// Why a tree is no image. A key's text is made only from a fault that is told.
#[derive(Clone, Copy, Debug)]
pub enum Fault {
    Missing(At),
    WrongKind(At),
    OutOfRange(At),
    Code(At, u32, AsmKind),
    Memory,
}

impl From<AllocError> for Fault {
    ghost from_gives = { λ _ e. e ≡ Memory };

    fn from(_: AllocError) -> Fault {
        Fault::Memory
    }
}

impl<T: Drop> From<AllocFailed<T>> for Fault {
    ghost from_gives = { λ _ e. e ≡ Memory };

    fn from(_: AllocFailed<T>) -> Fault {
        Fault::Memory
    }
}

impl Fault {
    /// The fault with the text of its key.
    pub fn told(self) -> ImageFault
        ensures { refusal_of result ≡ refusal_at self }
    {
        match self {
            Fault::Missing(at) => ImageFault::Missing { key: at.key() },
            Fault::WrongKind(at) => ImageFault::WrongKind { key: at.key() },
            Fault::OutOfRange(at) => ImageFault::OutOfRange { key: at.key() },
            Fault::Code(at, line, kind) => ImageFault::Code {
                key: at.key(),
                line,
                kind,
            },
            Fault::Memory => ImageFault::Memory,
        }
    }
}

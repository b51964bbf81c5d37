ghost use Rattle.std.specs.Prelude.{◌≡◌, ℕ, ◌<◌, ◌≤◌, List, [], length, Option, IfSome, OnOk, OnErr, IsErrOf};
ghost use Rattle.dc_base.specs.Limits.{longest_file};
ghost use Rattle.dc_io.specs.Counts.{Rose};

use std::alloc::Global;

/// Why a file was not loaded: a read failed, it has more than 33,554,432 bytes, or memory was wanting.
#[derive(Clone, Copy, Debug, PartialEq, Eq)]
pub enum Load {
    Failed,
    TooLong,
    Memory,
}

/// Files by name.
pub trait Shelf {
    // how many reads failed
    ghost faults: { Self → ℕ };
    // the bytes under each name, where they are told
    ghost told: { Self → Option (List ℕ → List ℕ) };

    /// Loads the bytes under this name, in place of what `into` held.
    fn load(&mut self, alloc: Global, name: &str, into: &mut Vec<u8>) -> Result<(), Load>
        ensures loaded { OnOk result (IfSome (told self.old) (λ files. into.new.items ≡ files name.now)) }
        ensures short { OnOk result (length into.new.items ≤ longest_file) }
        ensures too_long { IsErrOf result Load.TooLong → IfSome (told self.old) (λ files. longest_file < length (files name.now)) }
        ensures failed { IsErrOf result Load.Failed → Rose (faults self.old) (faults self.new) }

        // What stands after it.
        ensures emptied { OnErr result (into.new.items ≡ []) }
        ensures kept { told self.new ≡ told self.old }
        ensures grows { faults self.old ≤ faults self.new };
}

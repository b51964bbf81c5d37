ghost use Rattle.std.specs.Prelude.{◌≡◌, ◌≤◌, [], length, None, OnOk, OnErr, IsErrOf};
ghost use Rattle.dc_base.specs.Limits.{longest_file};
ghost use Rattle.dc_io.specs.Counts.{Rose};
ghost use Rattle.dc_io.specs.Loads.{faults_after};

use crate::reading::read_file;
use crate::shelves::{Load, Shelf};
use std::alloc::Global;
use std::fs;
use std::marker::Model;
use std::rt::Files;

/// Files of the system, with a count of the openings and reads that failed; an interrupted read is one. A name is a path.
/// A load ends with the first byte above 33,554,432.
#[derive(Drop)]
pub struct FileShelf<F> {
    files: F,
    faults: u64,
}

// Contracts see the count.
impl<F> Model for FileShelf<F> {
    ghost use Rattle.std.specs.Prelude.{ℕ};

    ghost Value = { ℕ };

    ghost view = { λ s. s.faults };
}

impl<F: Files> FileShelf<F> {
    pub fn new(files: F) -> FileShelf<F>
        ensures { result ≡ 0 }
    {
        FileShelf { files, faults: 0 }
    }

    /// How many reads failed.
    pub fn faults(&self) -> u64
        ensures { result ≡ self.now }
    {
        self.faults
    }

    fn read(&self, alloc: Global, name: &str, into: &mut Vec<u8>) -> Result<(), Load>
        ensures short { OnOk result (length into.new.items ≤ longest_file) }
        ensures emptied { OnErr result (into.new.items ≡ []) }
    {
        match fs::open(&self.files, name) {
            Ok(mut file) => read_file(alloc, &mut file, into),
            Err(_) => {
                into.clear();
                Err(Load::Failed)
            }
        }
    }
}

impl<F: Files> Shelf for FileShelf<F> {
    ghost faults = { λ s. s };

    ghost told = { λ _. None };

    fn load(&mut self, alloc: Global, name: &str, into: &mut Vec<u8>) -> Result<(), Load>
        ensures short { OnOk result (length into.new.items ≤ longest_file) }
        ensures emptied { OnErr result (into.new.items ≡ []) }
        ensures counts { self.new ≡ faults_after self.old result }
        ensures failed { IsErrOf result Load.Failed → Rose self.old self.new }
        ensures grows { self.old ≤ self.new }
    {
        let outcome = self.read(alloc, name, into);
        if outcome == Err(Load::Failed) {
            self.faults = self.faults.saturating_add(1);
        }
        outcome
    }
}

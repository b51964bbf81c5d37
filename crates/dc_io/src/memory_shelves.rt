ghost use Rattle.std.specs.Prelude.{◌≡◌, ◌≢◌, ℕ, ◌<◌, ◌≤◌, ◌==◌, ◌↔◌, List, [], length, find, if◌then◌else◌, Option, Some, None, Err, IsNone};
ghost use Rattle.std.specs.Prelude.{IsSomeAnd, OnOk, OnErr, IsErrOf};
ghost use Rattle.std.specs.List.{list_any};
ghost use Rattle.std.specs.Option.{option_copied};
ghost use Rattle.dc_base.specs.Limits.{longest_file};
ghost use Rattle.dc_io.specs.Counts.{Rose};
ghost use Rattle.dc_io.specs.Files.{is_named};

use crate::shelves::{Load, Shelf};
use dc_base::limits::LONGEST_FILE;
use dc_base::lists::Items;
use std::alloc::Global;
use std::marker::Model;

/// A file in memory.
#[derive(Debug, Drop)]
pub struct MemFile {
    pub name: Items<u8>,
    pub bytes: Items<u8>,
}

/// Files in memory, of which the first of a name counts. A load fails where its number is listed, counted from 1, or where no file has the name.
#[derive(Debug, Drop)]
pub struct MemShelf {
    files: Vec<MemFile>,
    failing: Vec<u64>,
    calls: u64,
    faults: u64,
}

impl Model for MemShelf {
    ghost use Rattle.dc_io.specs.Files.{FailingFiles};

    ghost Value = { FailingFiles };

    ghost view = { λ s. record { files = s.files.items; failing = s.failing.items; calls = s.calls; faults = s.faults } };
}

impl MemShelf {
    pub fn of(files: Vec<MemFile>, failing: Vec<u64>) -> MemShelf
        ensures { result ≡ record { files = files.items; failing = failing.items; calls = 0; faults = 0 } }
    {
        MemShelf {
            files,
            failing,
            calls: 0,
            faults: 0,
        }
    }
}

impl Shelf for MemShelf {
    ghost use Rattle.dc_io.specs.Files.{bytes_named, after_load, readable};

    ghost faults = { λ s. s.faults };

    ghost told = { λ s. Some (bytes_named s.files) };

    fn load(&mut self, _alloc: Global, name: &str, into: &mut Vec<u8>) -> Result<(), Load>
        ensures loaded { OnOk result (into.new.items ≡ bytes_named self.old.files name.now) }
        ensures short { OnOk result (length into.new.items ≤ longest_file) }

        // The number of the call and the name decide which of these it is.
        ensures failed_where { IsErrOf result Load.Failed ↔ IsNone (readable self.old name.now) }
        ensures too_long_where { IsErrOf result Load.TooLong ↔ IsSomeAnd (readable self.old name.now) (λ file. longest_file < length file.bytes) }

        // What stands after it.
        ensures emptied { OnErr result (into.new.items ≡ []) }
        ensures after { self.new ≡ after_load self.old name.now }
        ensures failed { IsErrOf result Load.Failed → Rose self.old.faults self.new.faults }
        ensures grows { self.old.faults ≤ self.new.faults }
    {
        self.calls = self.calls.saturating_add(1);
        match readable_file(&self.files, &self.failing, self.calls, name) {
            Some(file) => copy_file(file, into),
            None => {
                self.faults = self.faults.saturating_add(1);
                into.clear();
                Err(Load::Failed)
            }
        }
    }
}

/// Files in memory, of which the first of a name counts. No load fails; a name that no file has names the empty bytes.
#[derive(Debug, Drop)]
pub struct SteadyShelf {
    files: Vec<MemFile>,
}

impl Model for SteadyShelf {
    ghost use Rattle.std.specs.Prelude.{List};
    ghost use Rattle.dc_io.specs.declared.memory_shelves.MemFile.{MemFile as File};

    ghost Value = { List File };

    ghost view = { λ s. s.files.items };
}

impl SteadyShelf {
    pub fn of(files: Vec<MemFile>) -> SteadyShelf
        ensures { result ≡ files.items }
    {
        SteadyShelf { files }
    }
}

impl Shelf for SteadyShelf {
    ghost use Rattle.dc_io.specs.Files.{bytes_named};

    ghost faults = { λ _. 0 };

    ghost told = { λ s. Some (bytes_named s) };

    fn load(&mut self, _alloc: Global, name: &str, into: &mut Vec<u8>) -> Result<(), Load>
        ensures loaded { OnOk result (into.new.items ≡ bytes_named self.old name.now) }
        ensures short { OnOk result (length into.new.items ≤ longest_file) }
        ensures steady { result ≢ Err Load.Failed }
        ensures too_long { IsErrOf result Load.TooLong ↔ (longest_file < length (bytes_named self.old name.now)) }

        // What stands after it.
        ensures emptied { OnErr result (into.new.items ≡ []) }
        ensures after { self.new ≡ self.old }
    {
        match file_named(self.files.as_slice(), name) {
            Some(file) => copy_file(file, into),
            None => {
                into.clear();
                Ok(())
            }
        }
    }
}

/// The first file of this name.
fn file_named<'a>(files: &'a [MemFile], name: &str) -> Option<&'a MemFile>
    ensures { option_copied result ≡ find (is_named name.now) files.now }
{
    files.iter().find(|f| f.name.as_slice() == name.as_bytes())
}

/// The file that a call reads: none where the call is listed, and otherwise the first of this name.
fn readable_file<'a>(
    files: &'a [MemFile],
    failing: &[u64],
    call: u64,
    name: &str,
) -> Option<&'a MemFile>
    ensures { option_copied result ≡ (if list_any (λ n. n == call) failing.now then None else find (is_named name.now) files.now) }
{
    if failing.contains(&call) {
        return None;
    }
    file_named(files, name)
}

/// Copies the bytes of a file, unless they are too many.
fn copy_file(file: &MemFile, into: &mut Vec<u8>) -> Result<(), Load>
    ensures loaded { OnOk result (into.new.items ≡ file.now.bytes) }
    ensures short { OnOk result (length into.new.items ≤ longest_file) }
    ensures steady { result ≢ Err Load.Failed }
    ensures too_long { IsErrOf result Load.TooLong ↔ (longest_file < length file.now.bytes) }
    ensures emptied { OnErr result (into.new.items ≡ []) }
{
    into.clear();
    if file.bytes.len() > LONGEST_FILE {
        return Err(Load::TooLong);
    }
    match into.extend_from_slice(file.bytes.as_slice()) {
        Ok(()) => Ok(()),
        Err(_) => Err(Load::Memory),
    }
}

ghost use Rattle.std.specs.Prelude.{◌≡◌, ◌≢◌, ℕ, ◌+◌, ◌<◌, ◌≤◌, List, [], ◌++◌, length, vec_len, Ok, Err, IfOk, IfErr, IfSome, OnOk, OnErr, IsErrOf};
ghost use Rattle.std.specs.Io.KnownBytes.{Consumes, IsAtEnd};
ghost use Rattle.dc_base.specs.Limits.{longest_file};

use crate::shelves::Load;
use dc_base::limits::LONGEST_FILE;
use std::alloc::Global;
use std::io::Read;

/// How many bytes are read at once, at most.
const PIECE: usize = 65_536;

/// Reads a file to its end, in place of what `into` held. It ends with the first byte that is too many.
pub(crate) fn read_file<R: Read>(
    alloc: Global,
    file: &mut R,
    into: &mut Vec<u8>,
) -> Result<(), Load>
    ensures loaded { OnOk result (IfSome (R.remaining file.old) (λ bytes. into.new.items ≡ bytes)) }
    ensures short { OnOk result (length into.new.items ≤ longest_file) }
    ensures too_long { IsErrOf result Load.TooLong → IfSome (R.remaining file.old) (λ bytes. longest_file < length bytes) }
    ensures emptied { OnErr result (into.new.items ≡ []) }
{
    into.clear();
    let mut buffer = piece_buffer(alloc)?;
    let outcome = read_pieces(file, &mut buffer, into);
    if outcome.is_err() {
        into.clear();
    }
    outcome
}

/// Room for a piece.
fn piece_buffer(alloc: Global) -> Result<Vec<u8>, Load>
    ensures some { IfOk result (λ buffer. 0 < vec_len buffer) }
    ensures memory { IfErr result (λ fault. fault ≡ Load.Memory) }
{
    match vec![in alloc; 0; PIECE] {
        Ok(buffer) => Ok(buffer),
        Err(_) => Err(Load::Memory),
    }
}

/// Reads a file to its end, by way of the buffer.
fn read_pieces<R: Read>(file: &mut R, buffer: &mut [u8], into: &mut Vec<u8>) -> Result<(), Load>
    requires some { 0 < length buffer.old }
    requires empty { into.old.items ≡ [] }
    ensures loaded { OnOk result (IfSome (R.remaining file.old) (λ bytes. into.new.items ≡ bytes)) }
    ensures short { OnOk result (length into.new.items ≤ longest_file) }
    ensures too_long { IsErrOf result Load.TooLong → IfSome (R.remaining file.old) (λ bytes. longest_file < length bytes) }
{
    while into.len() <= LONGEST_FILE {
        match read_piece(file, buffer, LONGEST_FILE + 1 - into.len(), into) {
            Ok(0) => return Ok(()),
            Ok(_) => {}
            Err(fault) => return Err(fault),
        }
    }
    Err(Load::TooLong)
}

/// Reads bytes behind those in `into`, at most `room`, and says how many; 0 is the end of the file.
fn read_piece<R: Read>(
    file: &mut R,
    buffer: &mut [u8],
    room: usize,
    into: &mut Vec<u8>,
) -> Result<usize, Load>
    requires some { 0 < length buffer.old }
    requires room { 0 < room }
    ensures within { IfOk result (λ n. n ≤ room) }
    ensures len { IfOk result (λ n. length into.new.items ≡ length into.old.items + n) }
    ensures read { OnOk result ((piece : List ℕ) × (into.new.items ≡ into.old.items ++ piece) × Consumes (R.remaining file.old) (R.remaining file.new) piece) }
    ensures end { result ≡ Ok 0 → IsAtEnd (R.remaining file.new) }
    ensures within_room { result ≢ Err Load.TooLong }
{
    let size = room.min(buffer.len());
    let taken = match file.read(&mut buffer[..size]) {
        Ok(taken) => taken,
        Err(_) => return Err(Load::Failed),
    };
    match into.extend_from_slice(&buffer[..taken]) {
        Ok(()) => Ok(taken),
        Err(_) => Err(Load::Memory),
    }
}

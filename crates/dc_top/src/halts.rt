//! Why nothing is played.

use crate::bad_inputs::BadInput;

/// Why nothing is played: a file is refused, the file of this name could not be read, or memory was wanting.
#[derive(Debug, Drop)]
pub enum Halt<'a> {
    Refused(BadInput),
    Unread(&'a str),
    Memory,
}

//! The traps, each by its cause.

/// The word at the place is no instruction.
pub const NO_INSTRUCTION: u8 = 1;

/// The place is past the code.
pub const PAST_CODE: u8 = 2;

/// The address is past the memory.
pub const PAST_MEMORY: u8 = 3;

/// A slot that the call needs is empty.
pub const EMPTY_SLOT: u8 = 4;

/// The slot that the call fills is used.
pub const USED_SLOT: u8 = 5;

/// A capability of another kind.
pub const WRONG_KIND: u8 = 6;

/// A capability without the right.
pub const NO_RIGHT: u8 = 7;

/// A range is too long, or there is no such dispatcher.
pub const OUT_OF_RANGE: u8 = 8;

/// The range meets a child's.
pub const HAS_CHILDREN: u8 = 9;

/// As many timers are armed as a block may have.
pub const TIMERS_FULL: u8 = 10;

/// The console has as many words as it may have.
pub const CONSOLE_FULL: u8 = 11;

/// The line is not offered over that channel.
pub const NOT_OFFERED: u8 = 12;

//! The limits of a machine and of its texts.

/// Cores of a machine.
pub const MOST_CORES: usize = 8;

/// Blocks of a machine.
pub const MOST_BLOCKS: usize = 16;

/// Channels of a machine.
pub const MOST_CHANNELS: usize = 64;

/// Interrupt lines of a machine.
pub const MOST_LINES: usize = 16;

/// Plain instructions in a slice.
pub const MOST_QUANTUM: usize = 64;

/// Slices, idle steps and wakes of one core.
pub const MOST_SLICES: u32 = 131_072;

/// Slices, idle steps and wakes of all cores together.
pub const MOST_SLICES_IN_ALL: u32 = 241_664;

/// Blocks that are parked on one core.
pub const MOST_PARKED: usize = 8;

/// Dispatchers of a block.
pub const MOST_DISPS: usize = 16;

/// Ports of a block.
pub const MOST_PORTS: usize = 16;

/// Signals of a block.
pub const MOST_SIGNALS: usize = 16;

/// Words of a block's memory.
pub const MEMORY_WORDS: usize = 4096;

/// Places of a dispatcher's code.
pub const CODE_ROOM: usize = 1024;

/// Registers of a dispatcher.
pub const REGISTER_COUNT: usize = 8;

/// Capability slots of a dispatcher.
pub const DISP_SLOTS: u32 = 16;

/// Capability slots of a block.
pub const BLOCK_SLOTS: usize = 256;

/// The period of a dispatcher.
pub const LONGEST_PERIOD: u32 = 65_535;

/// Armed timers of a block.
pub const TIMER_ROOM: usize = 64;

/// Messages in a port.
pub const PORT_ROOM: usize = 8;

/// Messages in a channel.
pub const MOST_CAPACITY: u32 = 64;

/// Words on a console.
pub const CONSOLE_ROOM: usize = 65_536;

/// Bytes of an input file.
pub const LONGEST_FILE: usize = 33_554_432;

/// Lines of a script that count.
pub const LONGEST_SCRIPT: usize = 4096;

/// Lines of a schedule that count.
pub const LONGEST_SCHEDULE: usize = 262_144;

/// Polls of an await.
pub const MOST_POLLS: u32 = 1_000_000_000;

/// The base of a core's clock is below.
pub const CLOCK_START_LIMIT: u64 = 1 << 62;

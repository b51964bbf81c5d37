ghost use Rattle.std.specs.Prelude.{◌≡◌, ◌≤◌, length};
ghost use Rattle.dc_base.specs.States.{settings_of};

use dc_base::images::Image;
use dc_base::kernels::Clocks;
use std::marker::Model;

/// What never changes: the quantum in instructions, the budget of each core in slices, whether clocks are kept or run, and how many cores, blocks, channels
/// and lines there are.
#[derive(Clone, Copy, Debug)]
pub struct Settings {
    quantum: u32,
    slices: u32,
    clocks: Clocks,
    cores: u32,
    blocks: u32,
    channels: u32,
    lines: u32,
}

// Contracts see the settings of the machine with cores.
impl Model for Settings {
    ghost use Rattle.dc_base.specs.States.{Settings as Fixed};

    ghost Value = { Fixed };

    ghost view = { λ s. record {
      quantum = s.quantum;
      slices = s.slices;
      clocks = s.clocks;
      cores = s.cores;
      blocks = s.blocks;
      channels = s.channels;
      lines = s.lines;
    } };

    ghost inverse = { λ s. record {
      quantum = s.quantum;
      slices = s.slices;
      clocks = s.clocks;
      cores = s.cores;
      blocks = s.blocks;
      channels = s.channels;
      lines = s.lines;
    } };
}

impl Settings {
    /// The settings of an image of at most 8 cores, 16 blocks and 64 channels.
    pub fn of(image: &Image) -> Settings
        requires cores { length image.now.cores ≤ 8 }
        requires blocks { length image.now.blocks ≤ 16 }
        requires channels { length image.now.channels ≤ 64 }
        ensures { result ≡ settings_of image.now }
    {
        Settings {
            quantum: image.quantum,
            slices: image.slices,
            clocks: image.clocks,
            cores: image.cores.len() as u32,
            blocks: image.blocks.len() as u32,
            channels: image.channels.len() as u32,
            lines: image.lines,
        }
    }

    /// The most plain instructions of a slice.
    pub fn quantum(&self) -> u32
        ensures { result ≡ self.now.quantum }
    {
        self.quantum
    }

    /// How many slices, idle entries and wakes a core may make.
    pub fn slices(&self) -> u32
        ensures { result ≡ self.now.slices }
    {
        self.slices
    }

    pub fn clocks(&self) -> Clocks
        ensures { result ≡ self.now.clocks }
    {
        self.clocks
    }

    /// How many cores there are.
    pub fn cores(&self) -> u32
        ensures { result ≡ self.now.cores }
    {
        self.cores
    }

    /// How many blocks there are.
    pub fn blocks(&self) -> u32
        ensures { result ≡ self.now.blocks }
    {
        self.blocks
    }

    /// How many channels there are.
    pub fn channels(&self) -> u32
        ensures { result ≡ self.now.channels }
    {
        self.channels
    }

    /// How many lines there are.
    pub fn lines(&self) -> u32
        ensures { result ≡ self.now.lines }
    {
        self.lines
    }
}

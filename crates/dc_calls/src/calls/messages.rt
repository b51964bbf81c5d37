//! Messages in memory.

ghost use Rattle.std.specs.Prelude.{◌≡◌, ◌+◌, ◌≤◌, length};
ghost use Rattle.dc_base.specs.Parts.{words_at, with_words};

use dc_base::messages::Message;

/// The four words from an address on.
pub(crate) fn words_at(memory: &[u32], address: u32) -> Message
    requires { address + 4 ≤ length memory.now }
    ensures { result ≡ words_at memory.now address }
{
    let i = address as usize;
    Message([memory[i], memory[i + 1], memory[i + 2], memory[i + 3]])
}

/// Writes a message to the four words from an address on.
pub(crate) fn write_words(memory: &mut [u32], address: u32, m: Message)
    requires { address + 4 ≤ length memory.old }
    ensures { memory.new ≡ with_words address m.0 memory.old }
{
    let i = address as usize;
    memory[i] = m.0[0];
    memory[i + 1] = m.0[1];
    memory[i + 2] = m.0[2];
    memory[i + 3] = m.0[3];
}

//! Where a key of an image stands, and the text of its path.

ghost use Rattle.std.specs.Prelude.{◌≡◌, ◌+◌, ◌*◌, ◌/◌, ◌<◌, ◌≤◌, ◌^◌, ◌++◌, ◌∷◌, [], length, decimal};
ghost use Rattle.arrayvec.specs.ArrayString.{array_string_len};
ghost use Rattle.dc_image.specs.KeyText.{spelling, dotted, under, path_of, key_of};

use dc_base::faults::Key;
use dc_text::{Line, push_u32};

/// The names of keys.
#[derive(Clone, Copy, Debug, PartialEq, Eq)]
pub enum Name {
    Base,
    Block,
    Cap,
    Capacity,
    Channel,
    Clocks,
    Code,
    Core,
    Data,
    Disp,
    Due,
    First,
    Format,
    From,
    Home,
    Kind,
    Length,
    Lines,
    Number,
    Period,
    Ports,
    Quantum,
    Rights,
    Signals,
    Slices,
    Slot,
    To,
    Version,
}

impl Name {
    /// The name as it is written.
    pub fn as_str(self) -> &'static str
        ensures text { result.now ≡ spelling self }
        ensures len { length result.now ≤ 8 }
    {
        match self {
            Name::Base => "base",
            Name::Block => "block",
            Name::Cap => "cap",
            Name::Capacity => "capacity",
            Name::Channel => "channel",
            Name::Clocks => "clocks",
            Name::Code => "code",
            Name::Core => "core",
            Name::Data => "data",
            Name::Disp => "disp",
            Name::Due => "due",
            Name::First => "first",
            Name::Format => "format",
            Name::From => "from",
            Name::Home => "home",
            Name::Kind => "kind",
            Name::Length => "length",
            Name::Lines => "lines",
            Name::Number => "number",
            Name::Period => "period",
            Name::Ports => "ports",
            Name::Quantum => "quantum",
            Name::Rights => "rights",
            Name::Signals => "signals",
            Name::Slices => "slices",
            Name::Slot => "slot",
            Name::To => "to",
            Name::Version => "version",
        }
    }
}

/// A table of an image, by the numbers of the block, the dispatcher and so on.
#[derive(Clone, Copy, Debug, PartialEq, Eq)]
pub enum Place {
    Image,
    Core(u8),
    Channel(u8),
    Block(u8),
    Disp(u8, u8),
    Cap(u8, u8, u8),
}

/// What a fault is about: a table, a key of a table, or an item of the array at a key.
#[derive(Clone, Copy, Debug, PartialEq, Eq)]
pub enum At {
    Table(Place),
    Key(Place, Name),
    Item(Place, Name, u32),
}

/// Adds a dot, where something stands before it.
fn push_dot(key: &mut Key)
    requires { array_string_len key.old < 64 }
    ensures added { key.new.bytes ≡ dotted key.old.bytes }
    ensures len { array_string_len key.new ≤ array_string_len key.old + 1 }
{
    if !key.is_empty() {
        key.push('.');
    }
}

/// Adds a name.
fn push_name(key: &mut Key, name: Name)
    requires { array_string_len key.old + 9 ≤ 64 }
    ensures added { key.new.bytes ≡ under key.old.bytes (spelling name) }
    ensures len { array_string_len key.new ≤ array_string_len key.old + 9 }
{
    push_dot(key);
    key.push_str(name.as_str());
}

/// Adds a number.
#[tactic(auto, using(dc_text::proofs::Digits::len_32))]
fn push_number(key: &mut Key, n: u32)
    requires { array_string_len key.old + 11 ≤ 64 }
    ensures added { key.new.bytes ≡ under key.old.bytes (decimal n) }
    ensures len { array_string_len key.new ≤ array_string_len key.old + 1 + length (decimal n) }
{
    push_dot(key);
    let mut digits = Line::new();
    push_u32(&mut digits, n);
    key.push_str(digits.as_str());
}

/// Adds the number of a table in the array of a name.
#[tactic(auto, using(dc_text::proofs::Digits::len_8))]
fn push_element(key: &mut Key, name: Name, n: u8)
    requires { array_string_len key.old + 20 ≤ 64 }
    ensures added { key.new.bytes ≡ under (under key.old.bytes (spelling name)) (decimal n) }
    ensures len { array_string_len key.new ≤ array_string_len key.old + 13 }
{
    push_name(key, name);
    push_number(key, u32::from(n));
}

impl Place {
    /// The path of the table.
    fn path(self) -> Key
        ensures path { result.bytes ≡ path_of self }
        ensures len { array_string_len result ≤ 39 }
    {
        let mut key = Key::new();
        match self {
            Place::Image => {}
            Place::Core(core) => push_element(&mut key, Name::Core, core),
            Place::Channel(channel) => push_element(&mut key, Name::Channel, channel),
            Place::Block(block) => push_element(&mut key, Name::Block, block),
            Place::Disp(block, disp) => {
                push_element(&mut key, Name::Block, block);
                push_element(&mut key, Name::Disp, disp);
            }
            Place::Cap(block, disp, cap) => {
                push_element(&mut key, Name::Block, block);
                push_element(&mut key, Name::Disp, disp);
                push_element(&mut key, Name::Cap, cap);
            }
        }
        key
    }
}

impl At {
    /// The path of what the fault is about.
    pub fn key(self) -> Key
        ensures { result.bytes ≡ key_of self }
    {
        match self {
            At::Table(place) => place.path(),
            At::Key(place, name) => {
                let mut key = place.path();
                push_name(&mut key, name);
                key
            }
            At::Item(place, name, item) => {
                let mut key = place.path();
                push_name(&mut key, name);
                push_number(&mut key, item);
                key
            }
        }
    }
}

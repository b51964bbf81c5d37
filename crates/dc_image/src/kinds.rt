//! The kinds of capabilities, by their names.

ghost use Rattle.std.specs.Prelude.{◌≡◌};
ghost use Rattle.toml.specs.View.{view};
ghost use Rattle.dc_image.specs.Faults.{Gives};
ghost use Rattle.dc_image.specs.KeyText.{key_of};
ghost use Rattle.dc_image.specs.ImageKeys.{word_where};
ghost use Rattle.dc_image.specs.CapsOf.{kind_named};

use crate::faults::Fault;
use crate::keys::At;
use crate::values::word_of;
use toml::Value;

/// A kind of capability.
#[derive(Clone, Copy, Debug)]
pub enum KindName {
    Ram,
    Frame,
    Port,
    Signal,
    SendEnd,
    RecvEnd,
    Line,
}

/// The kind of a name.
fn named(word: &str) -> Option<KindName>
    ensures { result ≡ kind_named word.now }
{
    match word {
        "ram" => Some(KindName::Ram),
        "frame" => Some(KindName::Frame),
        "port" => Some(KindName::Port),
        "signal" => Some(KindName::Signal),
        "sendend" => Some(KindName::SendEnd),
        "recvend" => Some(KindName::RecvEnd),
        "line" => Some(KindName::Line),
        _ => None,
    }
}

/// The kind whose name a string is.
pub fn kind_of(found: &Value, at: At) -> Result<KindName, Fault>
    ensures { Gives result (word_where kind_named (key_of at) (view found.now)) }
{
    let word = word_of(found, at)?;
    named(word).ok_or(Fault::OutOfRange(at))
}

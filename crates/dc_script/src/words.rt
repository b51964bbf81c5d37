//! The words of a line.

ghost use Rattle.std.specs.Prelude.{All};
ghost use Rattle.dc_text.specs.Places.{IsPlaceIn};

use dc_base::faults::TextKind;
use dc_text::word_in;

/// Words of a line, each at the place from its first byte to the byte behind its last.
#[derive(Clone, Copy)]
pub(crate) struct Words<'a> {
    line: &'a [u8],
    places: &'a [(u32, u32)],
    ghost within: { All (IsPlaceIn line.now) places.now },
}

impl<'a> Words<'a> {
    ghost use Rattle.std.specs.Prelude.{◌≡◌, [], ◌∷◌, MatchOption};
    ghost use Rattle.dc_text.specs.Places.{texts_at};
    ghost use Rattle.dc_script.specs.Words.{texts_of, AreNone, IsOne, AreTwo, AreThree};

    /// The words at these places.
    pub(crate) fn at(line: &'a [u8], places: &'a [(u32, u32)]) -> Words<'a>
        requires { All (IsPlaceIn line.now) places.now }
        ensures { texts_of result ≡ texts_at line.now places.now }
    {
        Words { line, places }
    }

    /// The first word and the others. None where there is no word.
    pub(crate) fn split_first(&self) -> Option<(&'a [u8], Words<'a>)>
        ensures { MatchOption result (texts_of self.now ≡ []) (λ found. texts_of self.now ≡ found.0.now ∷ texts_of found.1) }
    {
        match self.places {
            [] => None,
            [first, others @ ..] => Some((
                word_in(self.line, *first),
                Words::at(self.line, others),
            )),
        }
    }

    /// No word at all.
    pub(crate) fn none(&self) -> Result<(), TextKind>
        ensures { AreNone (texts_of self.now) result }
    {
        match self.places {
            [] => Ok(()),
            _ => Err(TextKind::WrongCount),
        }
    }

    /// The only word.
    pub(crate) fn one(&self) -> Result<&'a [u8], TextKind>
        ensures { IsOne (texts_of self.now) result }
    {
        match self.places {
            [first] => Ok(word_in(self.line, *first)),
            _ => Err(TextKind::WrongCount),
        }
    }

    /// The only two words.
    pub(crate) fn two(&self) -> Result<(&'a [u8], &'a [u8]), TextKind>
        ensures { AreTwo (texts_of self.now) result }
    {
        match self.places {
            [first, second] => Ok((word_in(self.line, *first), word_in(self.line, *second))),
            _ => Err(TextKind::WrongCount),
        }
    }

    /// The only three words.
    pub(crate) fn three(&self) -> Result<(&'a [u8], &'a [u8], &'a [u8]), TextKind>
        ensures { AreThree (texts_of self.now) result }
    {
        match self.places {
            [first, second, third] => Ok((
                word_in(self.line, *first),
                word_in(self.line, *second),
                word_in(self.line, *third),
            )),
            _ => Err(TextKind::WrongCount),
        }
    }
}

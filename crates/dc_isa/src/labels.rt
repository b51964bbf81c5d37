//! The places of labels.

ghost use Rattle.std.specs.Prelude.{◌≡◌, ℕ, List, [], Some, if◌then◌else◌, bytes_eq, ◌||◌, OnOk};
ghost use Rattle.std.specs.List.{list_any};
ghost use Rattle.dc_base.specs.ProgramText.{place_of};
ghost use Rattle.dc_isa.specs.Labels.{label_list, names};

use std::alloc::{AllocError, Global};
use std::collections::BTreeMap;

/// Names of labels, each with the place of the word behind it.
#[derive(Drop)]
pub(crate) struct Labels<'a> {
    places: BTreeMap<&'a [u8], u32>,
}

/// No labels.
pub(crate) fn no_labels<'a>(alloc: Global) -> Labels<'a>
    ensures places { label_list result ≡ [] }
    ensures names { names result ≡ [] }
{
    Labels {
        places: BTreeMap::new(alloc),
    }
}

impl<'a> Labels<'a> {
    /// The place of a label.
    pub(crate) fn place_of(&self, name: &[u8]) -> Option<u32>
        ensures { result ≡ place_of (label_list self.now) name.now }
    {
        self.places.get(name).copied()
    }

    /// Whether a label has a place.
    pub(crate) fn has(&self, name: &[u8]) -> bool
        ensures { result ≡ list_any (bytes_eq name.now) (names self.now) }
    {
        self.places.contains_key(name)
    }

    /// Gives a label its place.
    pub(crate) fn define(&mut self, name: &'a [u8], place: u32) -> Result<(), AllocError>
        ensures names { OnOk result ((q : List ℕ) →
            list_any (bytes_eq q) (names self.new)
            ≡ (bytes_eq q name.now || list_any (bytes_eq q) (names self.old))) }
        ensures place { OnOk result ((q : List ℕ) →
            place_of (label_list self.new) q
            ≡ (if bytes_eq name.now q then Some place else place_of (label_list self.old) q)) }
    {
        self.places.insert(name, place)?;
        Ok(())
    }
}

//! Laws of the beginnings of histories.
ghost use Rattle.std.specs.Prelude.{◌≡◌, length};
ghost use mathlib.Core.List.{IsPrefix};
ghost use Rattle.dc_base.specs.declared.entries.Entry.{Entry};
ghost use Rattle.dc_stage.specs.History.{Log};

/// A history is a beginning of itself, and a beginning of a beginning is one.
pub fn prefixes_go_on()
    ensures same { (xs : Log Entry) → IsPrefix xs xs }
    ensures through { (xs ys zs : Log Entry) → IsPrefix xs ys → IsPrefix ys zs → IsPrefix xs zs }
{}

/// A beginning that is as long is the whole, and two beginnings that are as long as each other are the same.
pub fn prefixes_of_one_length()
    ensures whole { (xs ys : Log Entry) → IsPrefix xs ys → length xs ≡ length ys → xs ≡ ys }
    ensures both { (xs ys zs : Log Entry) → IsPrefix xs zs → IsPrefix ys zs → length xs ≡ length ys → xs ≡ ys }
{}

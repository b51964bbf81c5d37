//! Copies of lists.

ghost use Rattle.std.specs.Prelude.{◌≡◌};

use arrayvec::ArrayVec;

/// Another list of the same items in the same order. The list stays as it is.
pub fn copied<T: Copy + Default, const CAP: usize>(list: &ArrayVec<T, CAP>) -> ArrayVec<T, CAP>
    ensures { result.items ≡ list.now.items }
{
    let mut copy = ArrayVec::new();
    for item in list.as_slice() {
        copy.push(*item);
    }
    copy
}

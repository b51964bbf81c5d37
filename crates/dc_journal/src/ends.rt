//! The words of calls, versions, ends and orders, read.

ghost use Rattle.std.specs.Prelude.{◌≡◌, ◌+◌, ◌<◌, find, bytes_eq};
ghost use Rattle.std.specs.Option.{option_map};
ghost use Rattle.dc_base.specs.declared.calls.End.TheVariants as end;
ghost use Rattle.dc_base.specs.EntryText.{op_word};
ghost use Rattle.dc_base.specs.LooseWords as spec;
ghost use Rattle.dc_base.specs.LooseEntries as entries;
ghost use Rattle.dc_journal.specs.Lines.{texts};

use crate::names::op_name;
use crate::words::{is_at, is_word, number_at, small_number, word_at};
use dc_base::calls::{End, Op};
use dc_base::commands::Order;
use dc_base::kernels::Version;
use dc_base::numbers::BlockNo;

static OPS: [Op; 15] = [
    Op::Out,
    Op::Yield,
    Op::Send,
    Op::Recv,
    Op::Csend,
    Op::Crecv,
    Op::Wait,
    Op::Arm,
    Op::Copy,
    Op::Retype,
    Op::Delete,
    Op::Revoke,
    Op::Bind,
    Op::Give,
    Op::Claim,
];

fn all_ops() -> &'static [Op]
    ensures { result.now ≡ spec.all_ops }
{
    &OPS
}

fn is_op(op: Op, word: &[u8]) -> bool
    ensures { result ≡ bytes_eq (op_word op) word.now }
{
    is_word(op_name(op), word)
}

fn find_op(ops: &[Op], word: &[u8]) -> Option<Op>
    ensures { result ≡ find (λ op. bytes_eq (op_word op) word.now) ops.now }
{
    for op in ops {
        if is_op(*op, word) {
            return Some(*op);
        }
    }
    None
}

/// The kernel call of a name.
fn op_of(word: &[u8]) -> Option<Op>
    ensures { result ≡ spec.op_of word.now }
{
    find_op(all_ops(), word)
}

/// The end with a call that was made.
fn called(word: &[u8]) -> Option<End>
    ensures { result ≡ option_map end.Call (spec.op_of word.now) }
{
    op_of(word).map(End::Call)
}

/// The end at a call that cannot go on.
fn held(word: &[u8]) -> Option<End>
    ensures { result ≡ option_map end.Hold (spec.op_of word.now) }
{
    op_of(word).map(End::Hold)
}

/// The version of a name.
pub(crate) fn version_of(word: &[u8]) -> Option<Version>
    ensures { result ≡ spec.version_of word.now }
{
    if is_word("rr", word) {
        Some(Version::Rr)
    } else if is_word("edf", word) {
        Some(Version::Edf)
    } else {
        None
    }
}

/// How a slice ended, by its word and the next.
pub(crate) fn end_of(word: &[u8], next: &[u8]) -> Option<End>
    ensures { result ≡ entries.end_of word.now next.now }
{
    if is_word("quantum", word) {
        Some(End::Quantum)
    } else if is_word("halt", word) {
        Some(End::Halt)
    } else if is_word("trap", word) {
        Some(End::Trap(small_number(next)))
    } else if is_word("call", word) {
        called(next)
    } else if is_word("hold", word) {
        held(next)
    } else {
        None
    }
}

/// The order, by the words from its name on.
pub(crate) fn order_of(words: &[&[u8]]) -> Option<Order>
    ensures { result ≡ entries.order_of (texts words.now) }
{
    if is_at(words, 0, "start") {
        version_of(word_at(words, 1)).map(Order::Start)
    } else if is_at(words, 0, "stop") {
        Some(Order::Stop)
    } else if is_at(words, 0, "replace") {
        version_of(word_at(words, 1)).map(Order::Replace)
    } else if is_at(words, 0, "adopt") {
        Some(Order::Adopt {
            block: BlockNo(number_at(words, 1)),
            parked: is_at(words, 2, "parked"),
        })
    } else if is_at(words, 0, "release") {
        Some(Order::Release(BlockNo(number_at(words, 1))))
    } else {
        None
    }
}

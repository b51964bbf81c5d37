//! Which instructions are kernel calls.

ghost use Rattle.std.specs.Prelude.{◌≡◌};
ghost use Rattle.dc_exec.specs.Calls as spec;

use dc_isa::{Instr, Op};

/// The name of a kernel call. None for a plain instruction.
#[tactic(auto, unfolding(crate::specs::Calls::call_name))]
pub fn call_name(instr: &Instr) -> Option<Op>
    ensures { result ≡ spec.call_name instr.now }
{
    match instr {
        Instr::Out { .. } => Some(Op::Out),
        Instr::Yield => Some(Op::Yield),
        Instr::Send { .. } => Some(Op::Send),
        Instr::Recv { .. } => Some(Op::Recv),
        Instr::Csend { .. } => Some(Op::Csend),
        Instr::Crecv { .. } => Some(Op::Crecv),
        Instr::Wait { .. } => Some(Op::Wait),
        Instr::Arm { .. } => Some(Op::Arm),
        Instr::Copy { .. } => Some(Op::Copy),
        Instr::Retype { .. } => Some(Op::Retype),
        Instr::Delete { .. } => Some(Op::Delete),
        Instr::Revoke { .. } => Some(Op::Revoke),
        Instr::Bind { .. } => Some(Op::Bind),
        Instr::Give { .. } => Some(Op::Give),
        Instr::Claim { .. } => Some(Op::Claim),
        _ => None,
    }
}

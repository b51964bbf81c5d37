//! Instructions and their words.

ghost use Rattle.std.specs.Prelude.{◌≡◌, ◌<◌, ◌^◌, Some, None, IsTrue, IfSome, if◌then◌else◌};
ghost use Rattle.dc_base.specs.Instructions as spec;

use dc_base::instructions::Instr;

fn is_immediate(imm: u32) -> bool
    ensures { result ≡ spec.is_immediate imm }
{
    imm < 65536
}

/// Two registers and an immediate.
fn are_registers(a: u32, b: u32, imm: u32) -> bool
    ensures { result ≡ spec.are_registers a b imm }
{
    a < 8 && b < 8 && imm < 65536
}

/// Two slots and an immediate.
fn are_slots(a: u32, b: u32, imm: u32) -> bool
    ensures { result ≡ spec.are_slots a b imm }
{
    a < 16 && b < 16 && imm < 65536
}

/// Whether each field is in its range.
#[tactic(auto, unfolding(dc_base::specs::Instructions::is_proper))]
pub fn is_proper(instr: &Instr) -> bool
    ensures { result ≡ spec.is_proper instr.now }
{
    match *instr {
        Instr::Li { a, imm } => a < 8 && imm < 65536,
        Instr::Lih { a, imm } => a < 8 && imm < 65536,
        Instr::Mov { a, b } => are_registers(a, b, 0),
        Instr::Add { a, b } => are_registers(a, b, 0),
        Instr::Sub { a, b } => are_registers(a, b, 0),
        Instr::Mul { a, b } => are_registers(a, b, 0),
        Instr::And { a, b } => are_registers(a, b, 0),
        Instr::Or { a, b } => are_registers(a, b, 0),
        Instr::Xor { a, b } => are_registers(a, b, 0),
        Instr::Shl { a, b } => are_registers(a, b, 0),
        Instr::Shr { a, b } => are_registers(a, b, 0),
        Instr::Beq { a, b, imm } => are_registers(a, b, imm),
        Instr::Bne { a, b, imm } => are_registers(a, b, imm),
        Instr::Bltu { a, b, imm } => are_registers(a, b, imm),
        Instr::Jmp { imm } => imm < 65536,
        Instr::Ld { a, b, imm } => are_registers(a, b, imm),
        Instr::St { a, b, imm } => are_registers(a, b, imm),
        Instr::Rdt { a, b } => are_registers(a, b, 0),
        Instr::Nop => true,
        Instr::Halt => true,
        Instr::Out { a } => a < 8,
        Instr::Yield => true,
        Instr::Send { a, b, imm } => are_slots(a, b, imm),
        Instr::Recv { a, b, imm } => are_slots(a, b, imm),
        Instr::Csend { a, b, imm } => are_slots(a, b, imm),
        Instr::Crecv { a, b, imm } => are_slots(a, b, imm),
        Instr::Wait { a, b } => a < 16 && b < 8,
        Instr::Arm { a, b, imm } => a < 16 && b < 8 && imm < 65536,
        Instr::Copy { a, b, imm } => are_slots(a, b, 0) && imm < 256 && imm % 16 < 8,
        Instr::Retype { a, b, imm } => are_slots(a, b, 0) && imm < 2,
        Instr::Delete { a } => a < 16,
        Instr::Revoke { a } => a < 16,
        Instr::Bind { a, b } => are_slots(a, b, 0),
        Instr::Give { a, b } => are_slots(a, b, 0),
        Instr::Claim { a, b, imm } => are_slots(a, b, imm),
    }
}

fn word(operation: u32, a: u32, b: u32, imm: u32) -> u32
    requires operation { operation < 2 ^ 8 }
    requires a { a < 2 ^ 4 }
    requires b { b < 2 ^ 4 }
    requires imm { imm < 2 ^ 16 }
    ensures { result ≡ spec.word operation a b imm }
{
    operation * 16777216 + a * 1048576 + b * 65536 + imm
}

/// The word of an instruction, whose fields are in their ranges.
#[tactic(auto, using(crate::proofs::WordLaws::decode_encode))]
pub fn encode(instr: &Instr) -> u32
    requires { IsTrue (spec.is_proper instr.now) }
    ensures word { result ≡ spec.encode instr.now }
    ensures back { spec.decode result ≡ Some instr.now }
{
    word_of(instr)
}

#[tactic(auto, unfolding(dc_base::specs::Instructions::encode, dc_base::specs::Instructions::is_proper))]
fn word_of(instr: &Instr) -> u32
    requires { IsTrue (spec.is_proper instr.now) }
    ensures { result ≡ spec.encode instr.now }
{
    match *instr {
        Instr::Li { a, imm } => word(0x01, a, 0, imm),
        Instr::Lih { a, imm } => word(0x02, a, 0, imm),
        Instr::Mov { a, b } => word(0x03, a, b, 0),
        Instr::Add { a, b } => word(0x04, a, b, 0),
        Instr::Sub { a, b } => word(0x05, a, b, 0),
        Instr::Mul { a, b } => word(0x06, a, b, 0),
        Instr::And { a, b } => word(0x07, a, b, 0),
        Instr::Or { a, b } => word(0x08, a, b, 0),
        Instr::Xor { a, b } => word(0x09, a, b, 0),
        Instr::Shl { a, b } => word(0x0A, a, b, 0),
        Instr::Shr { a, b } => word(0x0B, a, b, 0),
        Instr::Beq { a, b, imm } => word(0x0C, a, b, imm),
        Instr::Bne { a, b, imm } => word(0x0D, a, b, imm),
        Instr::Bltu { a, b, imm } => word(0x0E, a, b, imm),
        Instr::Jmp { imm } => word(0x0F, 0, 0, imm),
        Instr::Ld { a, b, imm } => word(0x10, a, b, imm),
        Instr::St { a, b, imm } => word(0x11, a, b, imm),
        Instr::Rdt { a, b } => word(0x12, a, b, 0),
        Instr::Nop => word(0x13, 0, 0, 0),
        Instr::Halt => word(0x14, 0, 0, 0),
        Instr::Out { a } => word(0x20, a, 0, 0),
        Instr::Yield => word(0x21, 0, 0, 0),
        Instr::Send { a, b, imm } => word(0x22, a, b, imm),
        Instr::Recv { a, b, imm } => word(0x23, a, b, imm),
        Instr::Csend { a, b, imm } => word(0x24, a, b, imm),
        Instr::Crecv { a, b, imm } => word(0x25, a, b, imm),
        Instr::Wait { a, b } => word(0x26, a, b, 0),
        Instr::Arm { a, b, imm } => word(0x27, a, b, imm),
        Instr::Copy { a, b, imm } => word(0x28, a, b, imm),
        Instr::Retype { a, b, imm } => word(0x29, a, b, imm),
        Instr::Delete { a } => word(0x2A, a, 0, 0),
        Instr::Revoke { a } => word(0x2B, a, 0, 0),
        Instr::Bind { a, b } => word(0x2C, a, b, 0),
        Instr::Give { a, b } => word(0x2D, a, b, 0),
        Instr::Claim { a, b, imm } => word(0x2E, a, b, imm),
    }
}

/// The instruction, if its fields are so.
fn only(fields: bool, instr: Instr) -> Option<Instr>
    ensures { result ≡ if fields then Some instr else None }
{
    if fields { Some(instr) } else { None }
}

/// The instruction of an operation with these fields. None where a field is out of its range, or is not used and not 0.
#[inline(always)]
#[tactic(auto, unfolding(dc_base::specs::Instructions::instr_at, dc_base::specs::Instructions::is_proper, dc_base::specs::Instructions::encode))]
fn instr_of(operation: u32, a: u32, b: u32, imm: u32) -> Option<Instr>
    requires a { a < 16 }
    requires b { b < 16 }
    requires imm { imm < 2 ^ 16 }
    ensures { result ≡ spec.if_word (spec.word operation a b imm) (spec.instr_at operation a b imm) }
{
    match operation {
        0x01 => only(a < 8 && b == 0, Instr::Li { a, imm }),
        0x02 => only(a < 8 && b == 0, Instr::Lih { a, imm }),
        0x03 => only(a < 8 && b < 8 && imm == 0, Instr::Mov { a, b }),
        0x04 => only(a < 8 && b < 8 && imm == 0, Instr::Add { a, b }),
        0x05 => only(a < 8 && b < 8 && imm == 0, Instr::Sub { a, b }),
        0x06 => only(a < 8 && b < 8 && imm == 0, Instr::Mul { a, b }),
        0x07 => only(a < 8 && b < 8 && imm == 0, Instr::And { a, b }),
        0x08 => only(a < 8 && b < 8 && imm == 0, Instr::Or { a, b }),
        0x09 => only(a < 8 && b < 8 && imm == 0, Instr::Xor { a, b }),
        0x0A => only(a < 8 && b < 8 && imm == 0, Instr::Shl { a, b }),
        0x0B => only(a < 8 && b < 8 && imm == 0, Instr::Shr { a, b }),
        0x0C => only(a < 8 && b < 8, Instr::Beq { a, b, imm }),
        0x0D => only(a < 8 && b < 8, Instr::Bne { a, b, imm }),
        0x0E => only(a < 8 && b < 8, Instr::Bltu { a, b, imm }),
        0x0F => only(a == 0 && b == 0, Instr::Jmp { imm }),
        0x10 => only(a < 8 && b < 8, Instr::Ld { a, b, imm }),
        0x11 => only(a < 8 && b < 8, Instr::St { a, b, imm }),
        0x12 => only(a < 8 && b < 8 && imm == 0, Instr::Rdt { a, b }),
        0x13 => only(a == 0 && b == 0 && imm == 0, Instr::Nop),
        0x14 => only(a == 0 && b == 0 && imm == 0, Instr::Halt),
        0x20 => only(a < 8 && b == 0 && imm == 0, Instr::Out { a }),
        0x21 => only(a == 0 && b == 0 && imm == 0, Instr::Yield),
        0x22 => Some(Instr::Send { a, b, imm }),
        0x23 => Some(Instr::Recv { a, b, imm }),
        0x24 => Some(Instr::Csend { a, b, imm }),
        0x25 => Some(Instr::Crecv { a, b, imm }),
        0x26 => only(b < 8 && imm == 0, Instr::Wait { a, b }),
        0x27 => only(b < 8, Instr::Arm { a, b, imm }),
        0x28 => only(imm < 256 && imm % 16 < 8, Instr::Copy { a, b, imm }),
        0x29 => only(imm < 2, Instr::Retype { a, b, imm }),
        0x2A => only(b == 0 && imm == 0, Instr::Delete { a }),
        0x2B => only(b == 0 && imm == 0, Instr::Revoke { a }),
        0x2C => only(imm == 0, Instr::Bind { a, b }),
        0x2D => only(imm == 0, Instr::Give { a, b }),
        0x2E => Some(Instr::Claim { a, b, imm }),
        _ => None,
    }
}

/// The instruction of a word. None where the word is no instruction's.
#[inline(always)]
#[tactic(auto, unfolding(dc_base::specs::Instructions::decode), using(crate::proofs::WordLaws::word_of_fields, crate::proofs::WordLaws::decoded_back))]
pub fn decode(word: u32) -> Option<Instr>
    ensures instr { result ≡ spec.decode word }
    ensures back { IfSome result (λ i. IsTrue (spec.is_proper i) × (spec.encode i ≡ word)) }
{
    instr_of(
        word >> 24,
        (word >> 20) % 16,
        (word >> 16) % 16,
        word % 65536,
    )
}

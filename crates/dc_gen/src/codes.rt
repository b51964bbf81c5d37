//! The code of the generated blocks.

ghost use Rattle.std.specs.Prelude.{◌≡◌, ◌<◌, ◌+◌, ◌∷◌, map, IfOk, IsTrue};
ghost use Rattle.std.specs.List.{list_all};
ghost use Rattle.dc_base.specs.Generated as spec;
ghost use Rattle.dc_base.specs.Instructions.{encode, is_proper};

use dc_base::instructions::Instr;
use dc_base::lists::Items;
use dc_base::memory::Memory;
use dc_isa::encode;
use std::alloc::Global;

/// What the frame has goes to the next block.
const SEND: Instr = Instr::Csend { a: 0, b: 2, imm: 0 };

/// What the block before sent comes into the frame.
const RECEIVE: Instr = Instr::Crecv { a: 1, b: 2, imm: 0 };

/// The first word of the frame.
const LOAD: Instr = Instr::Ld { a: 0, b: 2, imm: 0 };

/// That word and the block's own number.
const ADD: Instr = Instr::Add { a: 0, b: 1 };

/// The sum stands in the frame.
const STORE: Instr = Instr::St { a: 0, b: 2, imm: 0 };

/// The sum is put out.
const OUT: Instr = Instr::Out { a: 0 };

/// The words of instructions.
fn words_of(alloc: Global, code: &[Instr]) -> Result<Items<u32>, Memory>
    requires { IsTrue (list_all is_proper code.now) }
    ensures { IfOk result (λ words. words ≡ map encode code.now) }
{
    let mut words = Items::new(alloc);
    for instr in code {
        words.push(encode(instr))?;
    }
    Ok(words)
}

/// The code of the first block, which sends twice before it adds and passes on.
#[tactic(auto, unfolding(dc_base::specs::Instructions::encode, dc_base::specs::Instructions::is_proper))]
fn first_code(alloc: Global) -> Result<Items<u32>, Memory>
    ensures { IfOk result (λ code. code ≡ spec.code_of 0) }
{
    let own = Instr::Li { a: 1, imm: 1 };
    let again = Instr::Jmp { imm: 3 };
    let code = [own, SEND, SEND, RECEIVE, LOAD, ADD, STORE, OUT, SEND, again];
    words_of(alloc, &code)
}

/// The code of each other block, which adds its own number and passes on.
#[tactic(auto, unfolding(dc_base::specs::Instructions::encode, dc_base::specs::Instructions::is_proper))]
fn further_code(alloc: Global, number: u32) -> Result<Items<u32>, Memory>
    requires { number < 65536 }
    ensures { IfOk result (λ code. code ≡ (0x01100000 + number) ∷ spec.adding_code 1) }
{
    let own = Instr::Li { a: 1, imm: number };
    let again = Instr::Jmp { imm: 1 };
    let code = [own, RECEIVE, LOAD, ADD, STORE, OUT, SEND, again];
    words_of(alloc, &code)
}

/// The code of a block.
pub(crate) fn code_of(alloc: Global, block: u32) -> Result<Items<u32>, Memory>
    requires { block < 16 }
    ensures { IfOk result (λ code. code ≡ spec.code_of block) }
{
    if block == 0 {
        first_code(alloc)
    } else {
        further_code(alloc, block + 1)
    }
}

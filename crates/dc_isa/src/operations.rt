//! The operations of the assembler, with their operands.

ghost use Rattle.std.specs.Prelude.{◌≡◌, find, map, bytes_eq, true, IfSome, IsTrue};
ghost use Rattle.std.specs.List.{list_all};
ghost use Rattle.dc_base.specs.Operations.{operations};
ghost use Rattle.std.specs.Option.{option_copied, option_map};
ghost use Rattle.dc_isa.specs.declared.operations.Operation.{Operation};
ghost use Rattle.dc_isa.specs.Operations.{operation_seen, named, fits};

/// How an operand is written, and where its number stands in the word.
#[derive(Clone, Copy)]
pub(crate) enum Operand {
    RegisterA,
    RegisterB,
    SlotA,
    SlotB,
    Immediate,
    /// A number, or a label behind `@`.
    Target,
    /// A mask of rights and a dispatcher.
    Grant,
    /// 0 for Ram, 1 for Frame.
    Made,
    /// A whole word.
    Whole,
}

/// An operation by its name, with its number and its operands in order.
#[derive(Clone, Copy)]
pub(crate) struct Operation {
    pub(crate) name: &'static [u8],
    pub(crate) number: u32,
    pub(crate) operands: &'static [Operand],
}

static OPERATIONS: [Operation; 36] = [
    Operation {
        name: b"li",
        number: 0x01,
        operands: &[Operand::RegisterA, Operand::Immediate],
    },
    Operation {
        name: b"lih",
        number: 0x02,
        operands: &[Operand::RegisterA, Operand::Immediate],
    },
    Operation {
        name: b"mov",
        number: 0x03,
        operands: &[Operand::RegisterA, Operand::RegisterB],
    },
    Operation {
        name: b"add",
        number: 0x04,
        operands: &[Operand::RegisterA, Operand::RegisterB],
    },
    Operation {
        name: b"sub",
        number: 0x05,
        operands: &[Operand::RegisterA, Operand::RegisterB],
    },
    Operation {
        name: b"mul",
        number: 0x06,
        operands: &[Operand::RegisterA, Operand::RegisterB],
    },
    Operation {
        name: b"and",
        number: 0x07,
        operands: &[Operand::RegisterA, Operand::RegisterB],
    },
    Operation {
        name: b"or",
        number: 0x08,
        operands: &[Operand::RegisterA, Operand::RegisterB],
    },
    Operation {
        name: b"xor",
        number: 0x09,
        operands: &[Operand::RegisterA, Operand::RegisterB],
    },
    Operation {
        name: b"shl",
        number: 0x0A,
        operands: &[Operand::RegisterA, Operand::RegisterB],
    },
    Operation {
        name: b"shr",
        number: 0x0B,
        operands: &[Operand::RegisterA, Operand::RegisterB],
    },
    Operation {
        name: b"beq",
        number: 0x0C,
        operands: &[Operand::RegisterA, Operand::RegisterB, Operand::Target],
    },
    Operation {
        name: b"bne",
        number: 0x0D,
        operands: &[Operand::RegisterA, Operand::RegisterB, Operand::Target],
    },
    Operation {
        name: b"bltu",
        number: 0x0E,
        operands: &[Operand::RegisterA, Operand::RegisterB, Operand::Target],
    },
    Operation {
        name: b"jmp",
        number: 0x0F,
        operands: &[Operand::Target],
    },
    Operation {
        name: b"ld",
        number: 0x10,
        operands: &[Operand::RegisterA, Operand::RegisterB, Operand::Immediate],
    },
    Operation {
        name: b"st",
        number: 0x11,
        operands: &[Operand::RegisterA, Operand::RegisterB, Operand::Immediate],
    },
    Operation {
        name: b"rdt",
        number: 0x12,
        operands: &[Operand::RegisterA, Operand::RegisterB],
    },
    Operation {
        name: b"nop",
        number: 0x13,
        operands: &[],
    },
    Operation {
        name: b"halt",
        number: 0x14,
        operands: &[],
    },
    Operation {
        name: b"out",
        number: 0x20,
        operands: &[Operand::RegisterA],
    },
    Operation {
        name: b"yield",
        number: 0x21,
        operands: &[],
    },
    Operation {
        name: b"send",
        number: 0x22,
        operands: &[Operand::SlotA, Operand::SlotB, Operand::Immediate],
    },
    Operation {
        name: b"recv",
        number: 0x23,
        operands: &[Operand::SlotA, Operand::SlotB, Operand::Immediate],
    },
    Operation {
        name: b"csend",
        number: 0x24,
        operands: &[Operand::SlotA, Operand::SlotB, Operand::Immediate],
    },
    Operation {
        name: b"crecv",
        number: 0x25,
        operands: &[Operand::SlotA, Operand::SlotB, Operand::Immediate],
    },
    Operation {
        name: b"wait",
        number: 0x26,
        operands: &[Operand::SlotA, Operand::RegisterB],
    },
    Operation {
        name: b"arm",
        number: 0x27,
        operands: &[Operand::SlotA, Operand::RegisterB, Operand::Immediate],
    },
    Operation {
        name: b"copy",
        number: 0x28,
        operands: &[Operand::SlotA, Operand::SlotB, Operand::Grant],
    },
    Operation {
        name: b"retype",
        number: 0x29,
        operands: &[Operand::SlotA, Operand::SlotB, Operand::Made],
    },
    Operation {
        name: b"delete",
        number: 0x2A,
        operands: &[Operand::SlotA],
    },
    Operation {
        name: b"revoke",
        number: 0x2B,
        operands: &[Operand::SlotA],
    },
    Operation {
        name: b"bind",
        number: 0x2C,
        operands: &[Operand::SlotA, Operand::SlotB],
    },
    Operation {
        name: b"give",
        number: 0x2D,
        operands: &[Operand::SlotA, Operand::SlotB],
    },
    Operation {
        name: b"claim",
        number: 0x2E,
        operands: &[Operand::SlotA, Operand::SlotB, Operand::Immediate],
    },
    Operation {
        name: b".word",
        number: 0x00,
        operands: &[Operand::Whole],
    },
];

/// All operations, as the definitions list them.
#[tactic(auto, unfolding(dc_base::specs::Operations::operations))]
fn all_operations() -> &'static [Operation]
    ensures table { map operation_seen result.now ≡ operations }
    ensures fit { list_all fits (map operation_seen result.now) ≡ true }
{
    &OPERATIONS
}

/// The operation of a name.
#[tactic(auto, using(crate::proofs::Tables::found_named))]
pub(crate) fn operation_of(name: &[u8]) -> Option<&'static Operation>
    ensures named { option_map operation_seen (option_copied result) ≡ named name.now }
    ensures fits { IfSome result (λ o. IsTrue (fits (operation_seen o.now))) }
{
    find_named(all_operations(), name)
}

fn find_named<'a>(operations: &'a [Operation], name: &[u8]) -> Option<&'a Operation>
    ensures { option_copied result ≡ find (λ (o : Operation). bytes_eq o.name.now name.now) operations.now }
{
    operations.iter().find(|o| o.name == name)
}

// The rows, and the look-up of a word.

ghost use Rattle.std.specs.Prelude.{◌≡◌, ℕ, ◌^◌, ◌<◌, ◌≤◌, IsTrue, Some, AllPairs, find};
ghost use Rattle.rv_table.specs.Groups.{IsGroup};
ghost use Rattle.rv_table.specs.declared.op.Op.TheVariants.{Ebreak};
ghost use Rattle.rv_table.specs.Rows.{row_for, the_rows, row_of, matches, Disjoint};

use crate::op::{Form, Op};

/// A row of the instruction table. A word `w` is the row's instruction where `w & mask` is `value`.
#[derive(Clone, Copy, PartialEq, Eq, Debug)]
pub struct Row {
    /// The bits that the row fixes.
    pub mask: u32,
    /// What those bits are; all others are 0.
    pub value: u32,
    /// Which fields the word has.
    pub form: Form,
    /// The operation.
    pub op: Op,
}

/// A table of `N` rows.
#[derive(Clone, Copy, Debug)]
pub struct Table<const N: usize> {
    /// The rows, in the order of docs/machine.md.
    pub rows: [Row; N],
}

macro_rules! table_of {
    ($($form:ident $mask:literal { $($op:ident $value:literal,)* })*) => {
        [$($(
            Row {
                mask: $mask,
                value: $value,
                form: Form::$form,
                op: Op::$op,
            },
        )*)*]
    };
}

/// The word of `ebreak`.
pub const EBREAK: u32 = 0x0010_0073;

// The instruction listings of the unprivileged specification, the opcodes in one run each.
macro_rules! instructions {
    () => {
        table_of! {
            U 0x0000007f {
                Lui 0x00000037,
                Auipc 0x00000017,
            }
            J 0x0000007f {
                Jal 0x0000006f,
            }
            I 0x0000707f {
                Jalr 0x00000067,
                Lb 0x00000003,
                Lh 0x00001003,
                Lw 0x00002003,
                Ld 0x00003003,
                Lbu 0x00004003,
                Lhu 0x00005003,
                Lwu 0x00006003,
                Addi 0x00000013,
                Slti 0x00002013,
                Sltiu 0x00003013,
                Xori 0x00004013,
                Ori 0x00006013,
                Andi 0x00007013,
            }
            Shift6 0xfc00707f {
                Slli 0x00001013,
                Srli 0x00005013,
                Srai 0x40005013,
            }
            I 0x0000707f {
                Addiw 0x0000001b,
            }
            Shift5 0xfe00707f {
                Slliw 0x0000101b,
                Srliw 0x0000501b,
                Sraiw 0x4000501b,
            }
            Fence 0x0000707f {
                Fence 0x0000000f,
            }
            B 0x0000707f {
                Beq 0x00000063,
                Bne 0x00001063,
                Blt 0x00004063,
                Bge 0x00005063,
                Bltu 0x00006063,
                Bgeu 0x00007063,
            }
            S 0x0000707f {
                Sb 0x00000023,
                Sh 0x00001023,
                Sw 0x00002023,
                Sd 0x00003023,
            }
            R 0xfe00707f {
                Add 0x00000033,
                Sub 0x40000033,
                Sll 0x00001033,
                Slt 0x00002033,
                Sltu 0x00003033,
                Xor 0x00004033,
                Srl 0x00005033,
                Sra 0x40005033,
                Or 0x00006033,
                And 0x00007033,
                Mul 0x02000033,
                Mulh 0x02001033,
                Mulhsu 0x02002033,
                Mulhu 0x02003033,
                Div 0x02004033,
                Divu 0x02005033,
                Rem 0x02006033,
                Remu 0x02007033,
                Addw 0x0000003b,
                Subw 0x4000003b,
                Sllw 0x0000103b,
                Srlw 0x0000503b,
                Sraw 0x4000503b,
                Mulw 0x0200003b,
                Divw 0x0200403b,
                Divuw 0x0200503b,
                Remw 0x0200603b,
                Remuw 0x0200703b,
            }
            Lr 0xf9f0707f {
                LrW 0x1000202f,
                LrD 0x1000302f,
            }
            Amo 0xf800707f {
                ScW 0x1800202f,
                AmoswapW 0x0800202f,
                AmoaddW 0x0000202f,
                AmoxorW 0x2000202f,
                AmoandW 0x6000202f,
                AmoorW 0x4000202f,
                AmominW 0x8000202f,
                AmomaxW 0xa000202f,
                AmominuW 0xc000202f,
                AmomaxuW 0xe000202f,
                ScD 0x1800302f,
                AmoswapD 0x0800302f,
                AmoaddD 0x0000302f,
                AmoxorD 0x2000302f,
                AmoandD 0x6000302f,
                AmoorD 0x4000302f,
                AmominD 0x8000302f,
                AmomaxD 0xa000302f,
                AmominuD 0xc000302f,
                AmomaxuD 0xe000302f,
            }
            Sys 0xffffffff {
                Ecall 0x00000073,
                Ebreak 0x00100073,
            }
        }
    };
}

static ROWS: [Row; 87] = instructions!();

// For each major opcode, bits 2 to 6 of a word, where its rows begin and end in `ROWS`.
static GROUPS: [(u8, u8); 32] = [
    // LOAD, LOAD-FP, custom-0, MISC-MEM
    (4, 11),
    (0, 0),
    (0, 0),
    (24, 25),
    // OP-IMM, AUIPC, OP-IMM-32, 48-bit
    (11, 20),
    (1, 2),
    (20, 24),
    (0, 0),
    // STORE, STORE-FP, custom-1, AMO
    (31, 35),
    (0, 0),
    (0, 0),
    (63, 85),
    // OP, LUI, OP-32, 64-bit
    (35, 53),
    (0, 1),
    (53, 63),
    (0, 0),
    // MADD, MSUB, NMSUB, NMADD
    (0, 0),
    (0, 0),
    (0, 0),
    (0, 0),
    // OP-FP, OP-V, custom-2, 48-bit
    (0, 0),
    (0, 0),
    (0, 0),
    (0, 0),
    // BRANCH, JALR, reserved, JAL
    (25, 31),
    (3, 4),
    (0, 0),
    (2, 3),
    // SYSTEM, OP-VE, custom-3, 80-bit
    (85, 87),
    (0, 0),
    (0, 0),
    (0, 0),
];

/// All rows of RV64I, M and A, grouped by major opcode.
pub fn rows() -> Table<87>
    ensures { result.rows ≡ the_rows }
{
    Table {
        rows: instructions!(),
    }
}

/// The one row whose instruction the word is; `None` exactly where it is no instruction. Only the rows of the
/// word's major opcode are read.
pub fn find(word: u32) -> Option<Row>
    ensures { result ≡ row_of word }
{
    let (from, to) = group_of(word / 4 % 32);
    find_among(&ROWS[from..to], word)
}

// Where the rows of a major opcode begin and end in `ROWS`.
fn group_of(opcode: u32) -> (usize, usize)
    requires { opcode < 32 }
    ensures ordered { result.0 ≤ result.1 }
    ensures within { result.1 ≤ 87 }
    ensures group { IsGroup opcode result }
{
    let (from, to) = GROUPS[opcode as usize];
    (from as usize, to as usize)
}

// The first of the rows that the word matches.
fn find_among(rows: &[Row], word: u32) -> Option<Row>
    ensures { result ≡ find (matches word) rows.now }
{
    rows.iter()
        .copied()
        .find(|row| word & row.mask == row.value)
}

impl Op {
    /// The row of this operation.
    #[tactic(auto, unfolding(crate::specs::Rows::row_for))]
    pub fn row(self) -> Row
        ensures { result ≡ row_for self }
    {
        ROWS[self as usize]
    }
}

/// No word is the instruction of two rows: the row of a word is the one row that it matches.
pub fn rows_are_disjoint()
    ensures disjoint { AllPairs Disjoint the_rows }
    ensures one { (word : ℕ) (op : Op) → IsTrue (matches word (row_for op)) → row_of word ≡ Some (row_for op) }
{}

/// `ebreak` is one word, `EBREAK`.
pub fn ebreak_is_one_word()
    ensures row { row_of EBREAK ≡ Some (row_for Ebreak) }
    ensures one { (word : ℕ) → word < 2 ^ 32 → row_of word ≡ Some (row_for Ebreak) → word ≡ EBREAK }
{}

// An instruction as a value.

ghost use Rattle.std.specs.Prelude.{◌<◌, IsTrue};
ghost use Rattle.rv_table.specs.Rows.{row_for};
ghost use Rattle.rv_decode.specs.Fields.{fits_form};

use rv_table::Op;

/// An instruction of RV64I, M or A: its operation and its fields. A field that the operation's form lacks is 0 or
/// false (docs/machine.md has the forms).
#[derive(Clone, Copy, PartialEq, Eq, Debug)]
pub struct Insn {
    /// What the instruction does.
    pub op: Op,
    /// The number of the destination register, below 32.
    pub rd: u8,
    /// The number of the first source register, below 32.
    pub rs1: u8,
    /// The number of the second source register, below 32.
    pub rs2: u8,
    /// The immediate: in a U form the upper 20 bits of a 32-bit number whose low 12 are 0; in J and B forms an even
    /// offset of 21 and 13 bits; in I and S forms a number of 12 bits; in shifts the amount; in `fence` its bits 20
    /// to 31, from 0 to 4095.
    pub imm: i32,
    /// The acquire bit.
    pub aq: bool,
    /// The release bit.
    pub rl: bool,
    pub ghost rd_is_register: { rd < 32 },
    pub ghost rs1_is_register: { rs1 < 32 },
    pub ghost rs2_is_register: { rs2 < 32 },
    pub ghost fits: { IsTrue (fits_form (row_for op).form rd rs1 rs2 imm aq rl) },
}

// The operations, and the forms of their words.

/// An operation of RV64I, M or A: one variant for each row of the instruction table, in its order. The
/// variant is named as the mnemonic, with a capital at its head and after a dot: `addi` is `Addi`, `lr.w`
/// is `LrW`.
#[derive(Clone, Copy, PartialEq, Eq, Debug)]
pub enum Op {
    /// `lui`: load upper immediate.
    Lui,
    /// `auipc`: add upper immediate to pc.
    Auipc,
    /// `jal`: jump and link.
    Jal,
    /// `jalr`: jump and link register.
    Jalr,
    /// `lb`: load byte, sign-extended.
    Lb,
    /// `lh`: load halfword, sign-extended.
    Lh,
    /// `lw`: load word, sign-extended.
    Lw,
    /// `ld`: load doubleword.
    Ld,
    /// `lbu`: load byte, zero-extended.
    Lbu,
    /// `lhu`: load halfword, zero-extended.
    Lhu,
    /// `lwu`: load word, zero-extended.
    Lwu,
    /// `addi`: add immediate.
    Addi,
    /// `slti`: set if less than immediate, signed.
    Slti,
    /// `sltiu`: set if less than immediate, unsigned.
    Sltiu,
    /// `xori`: exclusive or immediate.
    Xori,
    /// `ori`: or immediate.
    Ori,
    /// `andi`: and immediate.
    Andi,
    /// `slli`: shift left logical by an immediate.
    Slli,
    /// `srli`: shift right logical by an immediate.
    Srli,
    /// `srai`: shift right arithmetic by an immediate.
    Srai,
    /// `addiw`: add immediate, 32 bits.
    Addiw,
    /// `slliw`: shift left logical by an immediate, 32 bits.
    Slliw,
    /// `srliw`: shift right logical by an immediate, 32 bits.
    Srliw,
    /// `sraiw`: shift right arithmetic by an immediate, 32 bits.
    Sraiw,
    /// `fence`: order memory accesses.
    Fence,
    /// `beq`: branch if equal.
    Beq,
    /// `bne`: branch if not equal.
    Bne,
    /// `blt`: branch if less than, signed.
    Blt,
    /// `bge`: branch if greater or equal, signed.
    Bge,
    /// `bltu`: branch if less than, unsigned.
    Bltu,
    /// `bgeu`: branch if greater or equal, unsigned.
    Bgeu,
    /// `sb`: store byte.
    Sb,
    /// `sh`: store halfword.
    Sh,
    /// `sw`: store word.
    Sw,
    /// `sd`: store doubleword.
    Sd,
    /// `add`: add.
    Add,
    /// `sub`: subtract.
    Sub,
    /// `sll`: shift left logical.
    Sll,
    /// `slt`: set if less than, signed.
    Slt,
    /// `sltu`: set if less than, unsigned.
    Sltu,
    /// `xor`: exclusive or.
    Xor,
    /// `srl`: shift right logical.
    Srl,
    /// `sra`: shift right arithmetic.
    Sra,
    /// `or`: or.
    Or,
    /// `and`: and.
    And,
    /// `mul`: multiply, low half.
    Mul,
    /// `mulh`: multiply, high half, signed by signed.
    Mulh,
    /// `mulhsu`: multiply, high half, signed by unsigned.
    Mulhsu,
    /// `mulhu`: multiply, high half, unsigned by unsigned.
    Mulhu,
    /// `div`: divide, signed.
    Div,
    /// `divu`: divide, unsigned.
    Divu,
    /// `rem`: remainder, signed.
    Rem,
    /// `remu`: remainder, unsigned.
    Remu,
    /// `addw`: add, 32 bits.
    Addw,
    /// `subw`: subtract, 32 bits.
    Subw,
    /// `sllw`: shift left logical, 32 bits.
    Sllw,
    /// `srlw`: shift right logical, 32 bits.
    Srlw,
    /// `sraw`: shift right arithmetic, 32 bits.
    Sraw,
    /// `mulw`: multiply, 32 bits.
    Mulw,
    /// `divw`: divide, signed, 32 bits.
    Divw,
    /// `divuw`: divide, unsigned, 32 bits.
    Divuw,
    /// `remw`: remainder, signed, 32 bits.
    Remw,
    /// `remuw`: remainder, unsigned, 32 bits.
    Remuw,
    /// `lr.w`: load reserved, word.
    LrW,
    /// `lr.d`: load reserved, doubleword.
    LrD,
    /// `sc.w`: store conditional, word.
    ScW,
    /// `amoswap.w`: atomic swap, word.
    AmoswapW,
    /// `amoadd.w`: atomic add, word.
    AmoaddW,
    /// `amoxor.w`: atomic exclusive or, word.
    AmoxorW,
    /// `amoand.w`: atomic and, word.
    AmoandW,
    /// `amoor.w`: atomic or, word.
    AmoorW,
    /// `amomin.w`: atomic minimum, signed, word.
    AmominW,
    /// `amomax.w`: atomic maximum, signed, word.
    AmomaxW,
    /// `amominu.w`: atomic minimum, unsigned, word.
    AmominuW,
    /// `amomaxu.w`: atomic maximum, unsigned, word.
    AmomaxuW,
    /// `sc.d`: store conditional, doubleword.
    ScD,
    /// `amoswap.d`: atomic swap, doubleword.
    AmoswapD,
    /// `amoadd.d`: atomic add, doubleword.
    AmoaddD,
    /// `amoxor.d`: atomic exclusive or, doubleword.
    AmoxorD,
    /// `amoand.d`: atomic and, doubleword.
    AmoandD,
    /// `amoor.d`: atomic or, doubleword.
    AmoorD,
    /// `amomin.d`: atomic minimum, signed, doubleword.
    AmominD,
    /// `amomax.d`: atomic maximum, signed, doubleword.
    AmomaxD,
    /// `amominu.d`: atomic minimum, unsigned, doubleword.
    AmominuD,
    /// `amomaxu.d`: atomic maximum, unsigned, doubleword.
    AmomaxuD,
    /// `ecall`: environment call.
    Ecall,
    /// `ebreak`: breakpoint.
    Ebreak,
}

/// The form of an instruction: which fields its word has, and where. docs/machine.md has their bits.
#[derive(Clone, Copy, PartialEq, Eq, Debug)]
pub enum Form {
    /// Upper immediate: rd and a 20-bit immediate, the upper bits of a word.
    U,
    /// Jump: rd and a signed 21-bit offset, a multiple of 2.
    J,
    /// Register and immediate: rd, rs1 and a signed 12-bit immediate.
    I,
    /// `fence`: rd, rs1 and an unsigned 12-bit immediate, which are kept and change nothing.
    Fence,
    /// Branch: rs1, rs2 and a signed 13-bit offset, a multiple of 2.
    B,
    /// Store: rs1, rs2 and a signed 12-bit offset.
    S,
    /// Shift of a doubleword by an immediate: rd, rs1 and an amount from 0 to 63.
    Shift6,
    /// Shift of a word by an immediate: rd, rs1 and an amount from 0 to 31.
    Shift5,
    /// Register: rd, rs1 and rs2.
    R,
    /// Load reserved: rd, rs1, aq and rl.
    Lr,
    /// Store conditional and atomic memory operation: rd, rs1, rs2, aq and rl.
    Amo,
    /// `ecall` and `ebreak`: no field.
    Sys,
}

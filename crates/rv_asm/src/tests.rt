// Words with their spellings: the instructions as LLVM assembles them, `fence` (whose operands it writes otherwise) and
// the data by hand; and lines that are no spelling.

use super::*;
use std::test::Fail;

const SPELLED: [(u32, &[u8]); 31] = [
    (0xe5132537, b"lui a0, 0xe5132"),
    (0x00000437, b"lui s0, 0x0"),
    (0xfffff097, b"auipc ra, 0xfffff"),
    (0x8000006f, b"jal zero, -1048576"),
    (0x001000ef, b"jal ra, 2048"),
    (0x800f80e7, b"jalr ra, -2048(t6)"),
    (0x7ff13983, b"ld s3, 2047(sp)"),
    (0xc4214403, b"lbu s0, -958(sp)"),
    (0x00500513, b"addi a0, zero, 5"),
    (0xfff1a293, b"slti t0, gp, -1"),
    (0x43fdde93, b"srai t4, s11, 63"),
    (0x41f3529b, b"sraiw t0, t1, 31"),
    (0x0f30000f, b"fence zero, zero, 243"),
    (0xffff808f, b"fence ra, t6, 4095"),
    (0x81f00063, b"beq zero, t6, -4096"),
    (0x7f7c7fe3, b"bgeu s8, s7, 4094"),
    (0xfe4a3fa3, b"sd tp, -1(s4)"),
    (0x01698023, b"sb s6, 0(s3)"),
    (0x41828533, b"sub a0, t0, s8"),
    (0x0226fabb, b"remuw s5, a3, sp"),
    (0x1601a3af, b"lr.w.aqrl t2, (gp)"),
    (0x1002332f, b"lr.d t1, (tp)"),
    (0x1d30a22f, b"sc.w.aq tp, s3, (ra)"),
    (0x0bf2292f, b"amoswap.w.rl s2, t6, (tp)"),
    (0xe6bf3faf, b"amomaxu.d.aqrl t6, a1, (t5)"),
    (0x009e3baf, b"amoadd.d s7, s1, (t3)"),
    (0x00000073, b"ecall"),
    (0x00100073, b"ebreak"),
    (0x00000000, b".word 0x00000000"),
    (0xffffffff, b".word 0xffffffff"),
    (0x30200073, b".word 0x30200073"),
];

const UNSPELLED: [&[u8]; 31] = [
    // nothing, a blank more, a blank or a comma less
    b"",
    b"addi  a0, zero, 5",
    b" addi a0, zero, 5",
    b"addi a0, zero, 5 ",
    b"addi a0,zero, 5",
    b"addi a0 zero 5",
    b"ecall ",
    b"ecall\n",
    // upper case, a name that is none, a register by another name or none at all
    b"ADDI a0, zero, 5",
    b"li a0, 5",
    b"addi x10, zero, 5",
    b"lw a0, 0(fp)",
    b"addi a0, %zero, 5",
    b"addi a0, pc, 5",
    // numbers in another spelling
    b"addi a0, zero, +5",
    b"addi a0, zero, 05",
    b"addi a0, zero, -0",
    b"addi a0, zero, 0x5",
    b"lui a0, 5",
    b"lui a0, 0x0e5",
    b"lui a0, 0xE5132",
    // numbers out of range
    b"addi a0, zero, 2048",
    b"addi a0, zero, 4294967301",
    b"jal zero, 3",
    b"slli a0, a0, 64",
    b"lui a0, 0x100000",
    // an operand too few or too many, and ordering bits of an operation that has none
    b"addi a0, zero",
    b"ecall a0",
    b"addi.aq a0, zero, 5",
    // data that is an instruction, and of seven digits
    b".word 0x00500513",
    b".word 0x0000000",
];

#[test]
fn spells_and_reads(rt: HostRuntime) -> Result<(), Fail> {
    for (word, text) in SPELLED {
        let mut out = Vec::new(rt.alloc());
        push_insn(&mut out, word)?;
        assert_eq!(rt; out.as_slice(), text, "at {word:x}");
        assert_eq!(rt; assemble_line(text), Some(word), "at {word:x}");
    }
    Ok(())
}

#[test]
fn reads_nothing_else(rt: HostRuntime) {
    for line in UNSPELLED {
        assert_eq!(rt; assemble_line(line), None);
    }
    spellings_differ();
}

// Words as GNU as assembles them, with the fields that were written in the source: one for each operation, then
// the ends of each immediate's range.

use super::*;
use rv_table::Op;

static ASSEMBLED: [(u32, Op, u8, u8, u8, i32, bool, bool); 105] = [
    (0xe51325b7, Op::Lui, 11, 0, 0, -451731456, false, false),
    (0x9818ea97, Op::Auipc, 21, 0, 0, -1743200256, false, false),
    (0x98c5e66f, Op::Jal, 12, 0, 0, -663156, false, false),
    (0x5e0103e7, Op::Jalr, 7, 2, 0, 1504, false, false),
    (0xae718703, Op::Lb, 14, 3, 0, -1305, false, false),
    (0xbf671903, Op::Lh, 18, 14, 0, -1034, false, false),
    (0x9fa42f83, Op::Lw, 31, 8, 0, -1542, false, false),
    (0x9969b983, Op::Ld, 19, 19, 0, -1642, false, false),
    (0xc4214403, Op::Lbu, 8, 2, 0, -958, false, false),
    (0xbc475503, Op::Lhu, 10, 14, 0, -1084, false, false),
    (0xdc856983, Op::Lwu, 19, 10, 0, -568, false, false),
    (0xe0398213, Op::Addi, 4, 19, 0, -509, false, false),
    (0xa0222613, Op::Slti, 12, 4, 0, -1534, false, false),
    (0xe9713993, Op::Sltiu, 19, 2, 0, -361, false, false),
    (0x5aeb4813, Op::Xori, 16, 22, 0, 1454, false, false),
    (0x6805ec93, Op::Ori, 25, 11, 0, 1664, false, false),
    (0xdc057613, Op::Andi, 12, 10, 0, -576, false, false),
    (0x025c9b93, Op::Slli, 23, 25, 0, 37, false, false),
    (0x03f55993, Op::Srli, 19, 10, 0, 63, false, false),
    (0x43c5de93, Op::Srai, 29, 11, 0, 60, false, false),
    (0xbc7a051b, Op::Addiw, 10, 20, 0, -1081, false, false),
    (0x0197189b, Op::Slliw, 17, 14, 0, 25, false, false),
    (0x0102d59b, Op::Srliw, 11, 5, 0, 16, false, false),
    (0x4161571b, Op::Sraiw, 14, 2, 0, 22, false, false),
    (0x0f30000f, Op::Fence, 0, 0, 0, 243, false, false),
    (0x41dd0a63, Op::Beq, 0, 26, 29, 1044, false, false),
    (0x7ccb94e3, Op::Bne, 0, 23, 12, 4040, false, false),
    (0xc6fd4363, Op::Blt, 0, 26, 15, -2970, false, false),
    (0x15f1d363, Op::Bge, 0, 3, 31, 326, false, false),
    (0xc36be463, Op::Bltu, 0, 23, 22, -3032, false, false),
    (0x3d7c7863, Op::Bgeu, 0, 24, 23, 976, false, false),
    (0x65698123, Op::Sb, 0, 19, 22, 1602, false, false),
    (0x30db9d23, Op::Sh, 0, 23, 13, 794, false, false),
    (0x34ffafa3, Op::Sw, 0, 31, 15, 863, false, false),
    (0x7c4a3623, Op::Sd, 0, 20, 4, 1996, false, false),
    (0x01938133, Op::Add, 2, 7, 25, 0, false, false),
    (0x41828533, Op::Sub, 10, 5, 24, 0, false, false),
    (0x00d69433, Op::Sll, 8, 13, 13, 0, false, false),
    (0x010e2f33, Op::Slt, 30, 28, 16, 0, false, false),
    (0x00f331b3, Op::Sltu, 3, 6, 15, 0, false, false),
    (0x009946b3, Op::Xor, 13, 18, 9, 0, false, false),
    (0x01b2deb3, Op::Srl, 29, 5, 27, 0, false, false),
    (0x412e5733, Op::Sra, 14, 28, 18, 0, false, false),
    (0x00ebe4b3, Op::Or, 9, 23, 14, 0, false, false),
    (0x01db7633, Op::And, 12, 22, 29, 0, false, false),
    (0x028f86b3, Op::Mul, 13, 31, 8, 0, false, false),
    (0x026192b3, Op::Mulh, 5, 3, 6, 0, false, false),
    (0x036422b3, Op::Mulhsu, 5, 8, 22, 0, false, false),
    (0x0300b433, Op::Mulhu, 8, 1, 16, 0, false, false),
    (0x0269cdb3, Op::Div, 27, 19, 6, 0, false, false),
    (0x021554b3, Op::Divu, 9, 10, 1, 0, false, false),
    (0x032762b3, Op::Rem, 5, 14, 18, 0, false, false),
    (0x033a7633, Op::Remu, 12, 20, 19, 0, false, false),
    (0x005f85bb, Op::Addw, 11, 31, 5, 0, false, false),
    (0x411e0bbb, Op::Subw, 23, 28, 17, 0, false, false),
    (0x015a1fbb, Op::Sllw, 31, 20, 21, 0, false, false),
    (0x002c5b3b, Op::Srlw, 22, 24, 2, 0, false, false),
    (0x41ced7bb, Op::Sraw, 15, 29, 28, 0, false, false),
    (0x03cf8cbb, Op::Mulw, 25, 31, 28, 0, false, false),
    (0x032d4b3b, Op::Divw, 22, 26, 18, 0, false, false),
    (0x02d6d6bb, Op::Divuw, 13, 13, 13, 0, false, false),
    (0x030266bb, Op::Remw, 13, 4, 16, 0, false, false),
    (0x0226fabb, Op::Remuw, 21, 13, 2, 0, false, false),
    (0x1601a3af, Op::LrW, 7, 3, 0, 0, true, true),
    (0x1002332f, Op::LrD, 6, 4, 0, 0, false, false),
    (0x1d30a22f, Op::ScW, 4, 1, 19, 0, true, false),
    (0x0bf2292f, Op::AmoswapW, 18, 4, 31, 0, false, true),
    (0x0430aa2f, Op::AmoaddW, 20, 1, 3, 0, true, false),
    (0x2256aa2f, Op::AmoxorW, 20, 13, 5, 0, false, true),
    (0x63462faf, Op::AmoandW, 31, 12, 20, 0, false, true),
    (0x4642282f, Op::AmoorW, 16, 4, 4, 0, true, true),
    (0x830827af, Op::AmominW, 15, 16, 16, 0, false, true),
    (0xa242a1af, Op::AmomaxW, 3, 5, 4, 0, false, true),
    (0xc504ac2f, Op::AmominuW, 24, 9, 16, 0, true, false),
    (0xe270a8af, Op::AmomaxuW, 17, 1, 7, 0, false, true),
    (0x192bb2af, Op::ScD, 5, 23, 18, 0, false, false),
    (0x08a8bcaf, Op::AmoswapD, 25, 17, 10, 0, false, false),
    (0x029e3baf, Op::AmoaddD, 23, 28, 9, 0, false, true),
    (0x24c33f2f, Op::AmoxorD, 30, 6, 12, 0, true, false),
    (0x6399392f, Op::AmoandD, 18, 18, 25, 0, false, true),
    (0x45443aaf, Op::AmoorD, 21, 8, 20, 0, true, false),
    (0x87b43d2f, Op::AmominD, 26, 8, 27, 0, true, true),
    (0xa48d3c2f, Op::AmomaxD, 24, 26, 8, 0, true, false),
    (0xc0c838af, Op::AmominuD, 17, 16, 12, 0, false, false),
    (0xe69d30af, Op::AmomaxuD, 1, 26, 9, 0, true, true),
    (0x00000073, Op::Ecall, 0, 0, 0, 0, false, false),
    (0x00100073, Op::Ebreak, 0, 0, 0, 0, false, false),
    (0x80000fb7, Op::Lui, 31, 0, 0, -2147483648, false, false),
    (0x7ffff0b7, Op::Lui, 1, 0, 0, 2147479552, false, false),
    (0x80000fef, Op::Jal, 31, 0, 0, -1048576, false, false),
    (0x7ffff06f, Op::Jal, 0, 0, 0, 1048574, false, false),
    (0x001000ef, Op::Jal, 1, 0, 0, 2048, false, false),
    (0x800f8f93, Op::Addi, 31, 31, 0, -2048, false, false),
    (0x7ff00013, Op::Addi, 0, 0, 0, 2047, false, false),
    (0x81ff8063, Op::Beq, 0, 31, 31, -4096, false, false),
    (0x7e000fe3, Op::Beq, 0, 0, 0, 4094, false, false),
    (0x0041e0e3, Op::Bltu, 0, 3, 4, 2048, false, false),
    (0x81ffb023, Op::Sd, 0, 31, 31, -2048, false, false),
    (0x7e003fa3, Op::Sd, 0, 0, 0, 2047, false, false),
    (0x43f35293, Op::Srai, 5, 6, 0, 63, false, false),
    (0x41f3529b, Op::Sraiw, 5, 6, 0, 31, false, false),
    (0x8330000f, Op::Fence, 0, 0, 0, 2099, false, false),
    (0x0ff0000f, Op::Fence, 0, 0, 0, 255, false, false),
    (0xe7ffbfaf, Op::AmomaxuD, 31, 31, 31, 0, true, true),
    (0x140120af, Op::LrW, 1, 2, 0, 0, true, false),
];

#[test]
fn decodes_and_encodes(rt: HostRuntime) {
    for (word, op, rd, rs1, rs2, imm, aq, rl) in ASSEMBLED {
        let Some(insn) = decode(word) else {
            panic!(rt; "{word:x} is no instruction");
        };
        assert_eq!(rt; insn.op, op, "at {word:x}");
        assert_eq!(rt;
            (insn.rd, insn.rs1, insn.rs2),
            (rd, rs1, rs2),
            "at {word:x}"
        );
        assert_eq!(rt; insn.imm, imm, "at {word:x}");
        assert_eq!(rt; (insn.aq, insn.rl), (aq, rl), "at {word:x}");
        assert_eq!(rt; encode(insn), word, "at {word:x}");
    }
    assert!(rt; decode(0).is_none());
    assert!(rt; decode(0xffffffff).is_none());
}

#[test]
#[tactic(auto, unfolding(rv_table::specs::Rows::row_for, crate::specs::Fields::has_rd, crate::specs::Fields::has_rs1, crate::specs::Fields::has_rs2, crate::specs::Fields::has_order, crate::specs::Fields::fits_immediate))]
fn encodes_a_written_instruction(rt: HostRuntime) {
    let insn = Insn {
        op: Op::Beq,
        rd: 0,
        rs1: 31,
        rs2: 31,
        imm: -4096,
        aq: false,
        rl: false,
    };
    assert_eq!(rt; encode(insn), 0x81ff8063);
}

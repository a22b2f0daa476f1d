// One word for each operation, as GNU as assembles it, and words that are no instruction.

use super::*;

static ASSEMBLED: [(u32, Op, Form); 87] = [
    (0xe51325b7, Op::Lui, Form::U),
    (0x9818ea97, Op::Auipc, Form::U),
    (0x98c5e66f, Op::Jal, Form::J),
    (0x5e0103e7, Op::Jalr, Form::I),
    (0xae718703, Op::Lb, Form::I),
    (0xbf671903, Op::Lh, Form::I),
    (0x9fa42f83, Op::Lw, Form::I),
    (0x9969b983, Op::Ld, Form::I),
    (0xc4214403, Op::Lbu, Form::I),
    (0xbc475503, Op::Lhu, Form::I),
    (0xdc856983, Op::Lwu, Form::I),
    (0xe0398213, Op::Addi, Form::I),
    (0xa0222613, Op::Slti, Form::I),
    (0xe9713993, Op::Sltiu, Form::I),
    (0x5aeb4813, Op::Xori, Form::I),
    (0x6805ec93, Op::Ori, Form::I),
    (0xdc057613, Op::Andi, Form::I),
    (0x025c9b93, Op::Slli, Form::Shift6),
    (0x03f55993, Op::Srli, Form::Shift6),
    (0x43c5de93, Op::Srai, Form::Shift6),
    (0xbc7a051b, Op::Addiw, Form::I),
    (0x0197189b, Op::Slliw, Form::Shift5),
    (0x0102d59b, Op::Srliw, Form::Shift5),
    (0x4161571b, Op::Sraiw, Form::Shift5),
    (0x0f30000f, Op::Fence, Form::Fence),
    (0x41dd0a63, Op::Beq, Form::B),
    (0x7ccb94e3, Op::Bne, Form::B),
    (0xc6fd4363, Op::Blt, Form::B),
    (0x15f1d363, Op::Bge, Form::B),
    (0xc36be463, Op::Bltu, Form::B),
    (0x3d7c7863, Op::Bgeu, Form::B),
    (0x65698123, Op::Sb, Form::S),
    (0x30db9d23, Op::Sh, Form::S),
    (0x34ffafa3, Op::Sw, Form::S),
    (0x7c4a3623, Op::Sd, Form::S),
    (0x01938133, Op::Add, Form::R),
    (0x41828533, Op::Sub, Form::R),
    (0x00d69433, Op::Sll, Form::R),
    (0x010e2f33, Op::Slt, Form::R),
    (0x00f331b3, Op::Sltu, Form::R),
    (0x009946b3, Op::Xor, Form::R),
    (0x01b2deb3, Op::Srl, Form::R),
    (0x412e5733, Op::Sra, Form::R),
    (0x00ebe4b3, Op::Or, Form::R),
    (0x01db7633, Op::And, Form::R),
    (0x028f86b3, Op::Mul, Form::R),
    (0x026192b3, Op::Mulh, Form::R),
    (0x036422b3, Op::Mulhsu, Form::R),
    (0x0300b433, Op::Mulhu, Form::R),
    (0x0269cdb3, Op::Div, Form::R),
    (0x021554b3, Op::Divu, Form::R),
    (0x032762b3, Op::Rem, Form::R),
    (0x033a7633, Op::Remu, Form::R),
    (0x005f85bb, Op::Addw, Form::R),
    (0x411e0bbb, Op::Subw, Form::R),
    (0x015a1fbb, Op::Sllw, Form::R),
    (0x002c5b3b, Op::Srlw, Form::R),
    (0x41ced7bb, Op::Sraw, Form::R),
    (0x03cf8cbb, Op::Mulw, Form::R),
    (0x032d4b3b, Op::Divw, Form::R),
    (0x02d6d6bb, Op::Divuw, Form::R),
    (0x030266bb, Op::Remw, Form::R),
    (0x0226fabb, Op::Remuw, Form::R),
    (0x1601a3af, Op::LrW, Form::Lr),
    (0x1002332f, Op::LrD, Form::Lr),
    (0x1d30a22f, Op::ScW, Form::Amo),
    (0x0bf2292f, Op::AmoswapW, Form::Amo),
    (0x0430aa2f, Op::AmoaddW, Form::Amo),
    (0x2256aa2f, Op::AmoxorW, Form::Amo),
    (0x63462faf, Op::AmoandW, Form::Amo),
    (0x4642282f, Op::AmoorW, Form::Amo),
    (0x830827af, Op::AmominW, Form::Amo),
    (0xa242a1af, Op::AmomaxW, Form::Amo),
    (0xc504ac2f, Op::AmominuW, Form::Amo),
    (0xe270a8af, Op::AmomaxuW, Form::Amo),
    (0x192bb2af, Op::ScD, Form::Amo),
    (0x08a8bcaf, Op::AmoswapD, Form::Amo),
    (0x029e3baf, Op::AmoaddD, Form::Amo),
    (0x24c33f2f, Op::AmoxorD, Form::Amo),
    (0x6399392f, Op::AmoandD, Form::Amo),
    (0x45443aaf, Op::AmoorD, Form::Amo),
    (0x87b43d2f, Op::AmominD, Form::Amo),
    (0xa48d3c2f, Op::AmomaxD, Form::Amo),
    (0xc0c838af, Op::AmominuD, Form::Amo),
    (0xe69d30af, Op::AmomaxuD, Form::Amo),
    (0x00000073, Op::Ecall, Form::Sys),
    (0x00100073, Op::Ebreak, Form::Sys),
];

#[test]
fn finds_each_operation(rt: HostRuntime) {
    for (word, op, form) in ASSEMBLED {
        let Some(row) = find(word) else {
            panic!(rt; "{word:x} is no instruction");
        };
        assert_eq!(rt; row.op, op, "at {word:x}");
        assert_eq!(rt; row.form, form, "at {word:x}");
        assert_eq!(rt; op.row(), row, "at {word:x}");
    }
}

#[test]
fn finds_nothing_else(rt: HostRuntime) {
    // all zeros and all ones, a compressed instruction, a float, `mret`, an atomic on bytes, `lr.w` with an rs2
    for word in [
        0, 0xffffffff, 0x00000001, 0x02a7f553, 0x30200073, 0x0000002f, 0x1011202f,
    ] {
        assert_eq!(rt; find(word), None, "at {word:x}");
    }
}

#[test]
fn lists_the_rows_in_order(rt: HostRuntime) {
    let table = rows();
    for (row, (_, op, _)) in table.rows.iter().zip(&ASSEMBLED) {
        assert_eq!(rt; row.op, *op);
    }
    rows_are_disjoint();
}

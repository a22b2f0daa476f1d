// Results of each operation as qemu-riscv64 7.2 computes them: the operation, both operands, and what rd, the branch or
// the memory then is.

use super::*;
use rv_table::Op;

static RESULTS: [(Op, u64, u64, u64); 48] = [
    (
        Op::Add,
        0xa13ffe7979cb9e86,
        0xffffffffffffffff,
        0xa13ffe7979cb9e85,
    ),
    (
        Op::Sub,
        0xbd299753a7677796,
        0xffffffffffffffff,
        0xbd299753a7677797,
    ),
    (Op::Sll, 0x123456789abcdef0, 0x24, 0xabcdef0000000000),
    (Op::Slt, 0x8000000000000000, 0x0, 0x1),
    (Op::Slt, 0x5, 0x5, 0x0),
    (Op::Sltu, 0x8000000000000000, 0x0, 0x0),
    (Op::Sltu, 0xfffffffffffffffe, 0xffffffffffffffff, 0x1),
    (
        Op::Xor,
        0x70c6a5b85387f613,
        0x8000000000000000,
        0xf0c6a5b85387f613,
    ),
    (Op::Srl, 0x123456789abcdef0, 0x24, 0x1234567),
    (Op::Sra, 0xfedcba9876543210, 0x24, 0xffffffffffedcba9),
    (
        Op::Or,
        0xee82ec3ffee5a5b2,
        0x4105cca7b53302fc,
        0xef87ecbffff7a7fe,
    ),
    (
        Op::And,
        0x111b8aaa62f28d1a,
        0xaf5570eed8e94b15,
        0x11100aa40e00910,
    ),
    (Op::Mul, 0xfedcba9876543210, 0x1, 0xfedcba9876543210),
    (
        Op::Mulh,
        0x8000000000000000,
        0x7fffffffffffffff,
        0xc000000000000000,
    ),
    (
        Op::Mulhsu,
        0xffffffffffffffff,
        0xffffffffffffffff,
        0xffffffffffffffff,
    ),
    (Op::Mulhsu, 0x5, 0x8000000000000000, 0x2),
    (Op::Mulhu, 0x5, 0x8000000000000000, 0x2),
    (Op::Div, 0x7, 0x0, 0xffffffffffffffff),
    (Op::Div, 0xfffffffffffffff9, 0x2, 0xfffffffffffffffd),
    (Op::Divu, 0xffffffffffffffff, 0xa, 0x1999999999999999),
    (Op::Rem, 0x7, 0x0, 0x7),
    (Op::Rem, 0xfffffffffffffff9, 0x2, 0xffffffffffffffff),
    (Op::Remu, 0xffffffffffffffff, 0xa, 0x5),
    (Op::Addw, 0x5, 0x6, 0xb),
    (Op::Subw, 0x80000000, 0xae9ca08b2d7c5048, 0x5283afb8),
    (Op::Sllw, 0x123456789abcdef0, 0x24, 0xffffffffabcdef00),
    (Op::Srlw, 0x123456789abcdef0, 0x24, 0x9abcdef),
    (Op::Sraw, 0xfedcba9876543210, 0x24, 0x7654321),
    (Op::Mulw, 0xa4ca83b26b52b08d, 0x7fffffff, 0x14ad4f73),
    (Op::Divw, 0x7, 0x100000000, 0xffffffffffffffff),
    (Op::Divw, 0xfffffffffffffff9, 0x2, 0xfffffffffffffffd),
    (Op::Divuw, 0xffffffff, 0x1, 0xffffffffffffffff),
    (Op::Remw, 0x80000007, 0x100000000, 0xffffffff80000007),
    (Op::Remw, 0xfffffffffffffff9, 0x2, 0xffffffffffffffff),
    (Op::Remuw, 0xffffffff, 0xa, 0x5),
    (Op::Addi, 0xffffffffffffffff, 0x615, 0x614),
    (Op::Slti, 0x80000000, 0xfffffffffffff800, 0x0),
    (Op::Sltiu, 0x5, 0xffffffffffffffff, 0x1),
    (Op::Xori, 0xffffffff80000000, 0xfffffffffffff800, 0x7ffff800),
    (
        Op::Ori,
        0xffffffff80000000,
        0xffffffffffffffff,
        0xffffffffffffffff,
    ),
    (Op::Andi, 0xffffffff, 0xfffffffffffffbe6, 0xfffffbe6),
    (Op::Slli, 0x1, 0x3f, 0x8000000000000000),
    (Op::Srli, 0x7fffffffffffffff, 0x1f, 0xffffffff),
    (Op::Srai, 0x7e37a50879211cb2, 0x1f, 0xfc6f4a10),
    (Op::Addiw, 0x1, 0xfffffffffffffe20, 0xfffffffffffffe21),
    (Op::Slliw, 0xffffffffffffffff, 0x1f, 0xffffffff80000000),
    (Op::Srliw, 0xfa2f0afdc77f7935, 0x1, 0x63bfbc9a),
    (Op::Sraiw, 0x123456789abcdef0, 0xf, 0xffffffffffff3579),
];

static TAKEN: [(Op, u64, u64, bool); 12] = [
    (Op::Beq, 0x5, 0x5, true),
    (Op::Beq, 0xffffffffffffffff, 0xffffffff, false),
    (Op::Bne, 0x5, 0x5, false),
    (Op::Bne, 0xffffffffffffffff, 0xffffffff, true),
    (Op::Blt, 0x8000000000000000, 0x0, true),
    (Op::Blt, 0x5, 0x5, false),
    (Op::Bge, 0x8000000000000000, 0x0, false),
    (Op::Bge, 0x5, 0x5, true),
    (Op::Bltu, 0x8000000000000000, 0x0, false),
    (Op::Bltu, 0x5, 0x5, false),
    (Op::Bgeu, 0x8000000000000000, 0x0, true),
    (Op::Bgeu, 0x5, 0x5, true),
];

static STORED: [(Op, u64, u64, u64); 26] = [
    (Op::AmoswapW, 0x5cb58b8e1799e728, 0x80000000, 0x80000000),
    (
        Op::AmoaddW,
        0x7fffffffffffffff,
        0x992ef43805713dc6,
        0x5713dc5,
    ),
    (Op::AmoxorW, 0x0, 0xbcb5d0e3bcb1cec4, 0xbcb1cec4),
    (Op::AmoandW, 0x8000000080000000, 0x80000000, 0x80000000),
    (
        Op::AmoorW,
        0x7fffffffffffffff,
        0x5484b3dbba6bc77c,
        0xffffffff,
    ),
    (Op::AmominW, 0x1, 0xffffffffffffffff, 0xffffffff),
    (Op::AmominW, 0x7fffffff, 0x80000000, 0x80000000),
    (Op::AmomaxW, 0x1, 0xffffffffffffffff, 0x1),
    (Op::AmomaxW, 0x7fffffff, 0x80000000, 0x7fffffff),
    (Op::AmominuW, 0x1, 0xffffffffffffffff, 0x1),
    (Op::AmominuW, 0x7fffffff, 0x80000000, 0x7fffffff),
    (Op::AmomaxuW, 0x1, 0xffffffffffffffff, 0xffffffff),
    (Op::AmomaxuW, 0x7fffffff, 0x80000000, 0x80000000),
    (Op::AmoswapD, 0xffffffff, 0x7, 0x7),
    (Op::AmoaddD, 0xfedcba9876543210, 0x7, 0xfedcba9876543217),
    (
        Op::AmoxorD,
        0x8000000080000000,
        0x123456789abcdef0,
        0x923456781abcdef0,
    ),
    (Op::AmoandD, 0x724c90521d849e2b, 0xffffffff, 0x1d849e2b),
    (
        Op::AmoorD,
        0x9d4c712e801b43bf,
        0x64bd7a6328c0d4ae,
        0xfdfd7b6fa8dbd7bf,
    ),
    (Op::AmominD, 0x1, 0xffffffffffffffff, 0xffffffffffffffff),
    (Op::AmominD, 0x7fffffff, 0x80000000, 0x7fffffff),
    (Op::AmomaxD, 0x1, 0xffffffffffffffff, 0x1),
    (Op::AmomaxD, 0x7fffffff, 0x80000000, 0x80000000),
    (Op::AmominuD, 0x1, 0xffffffffffffffff, 0x1),
    (Op::AmominuD, 0x7fffffff, 0x80000000, 0x7fffffff),
    (Op::AmomaxuD, 0x1, 0xffffffffffffffff, 0xffffffffffffffff),
    (Op::AmomaxuD, 0x7fffffff, 0x80000000, 0x80000000),
];

#[test]
fn computes_each_operation(rt: HostRuntime) {
    for (op, a, b, result) in RESULTS {
        assert!(rt; is_alu(op));
        assert_eq!(rt; alu(op, a, b), result, "{op:?} of {a:x} and {b:x}");
    }
}

#[test]
fn takes_each_branch(rt: HostRuntime) {
    for (op, a, b, taken) in TAKEN {
        assert!(rt; is_branch(op));
        assert_eq!(rt; branch(op, a, b), taken, "{op:?} of {a:x} and {b:x}");
    }
}

#[test]
fn stores_each_atomic(rt: HostRuntime) {
    for (op, old, b, stored) in STORED {
        assert!(rt; is_amo(op));
        assert_eq!(rt; amo(op, old, b), stored, "{op:?} of {old:x} and {b:x}");
    }
}

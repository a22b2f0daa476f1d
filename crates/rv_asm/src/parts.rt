// What the operands of an instruction are made of.

ghost use Rattle.std.specs.Prelude.{◌≡◌};
ghost use Rattle.rv_asm.specs.Parts.{is_based, parts_in, parts_of};

use rv_table::{Form, Op};

/// A part of the operands' text: a register, the immediate, or a mark between them.
#[derive(Clone, Copy, PartialEq, Eq, Debug)]
pub(crate) enum Part {
    /// The destination register.
    Rd,
    /// The first source register.
    Rs1,
    /// The second source register.
    Rs2,
    /// The immediate, signed and in decimal.
    Imm,
    /// The upper immediate: bits 12 to 31, in hexadecimal after `0x`.
    Upper,
    /// A comma and a blank.
    Comma,
    /// An opening parenthesis.
    Open,
    /// A closing parenthesis.
    Close,
}

/// The parts of an operation's operands, in the order of the text.
#[tactic(auto, unfolding(crate::specs::Parts::parts_of))]
pub(crate) fn parts_of(op: Op) -> &'static [Part]
    ensures { result.now ≡ parts_of op }
{
    parts_in(op.row().form, is_based(op))
}

/// The parts of a form, where an I form may have its immediate as an offset from rs1.
#[tactic(auto, unfolding(crate::specs::Parts::parts_in))]
fn parts_in(form: Form, based: bool) -> &'static [Part]
    ensures { result.now ≡ parts_in form based }
{
    match form {
        Form::U => &[Part::Rd, Part::Comma, Part::Upper],
        Form::J => &[Part::Rd, Part::Comma, Part::Imm],
        Form::I if based => &[
            Part::Rd,
            Part::Comma,
            Part::Imm,
            Part::Open,
            Part::Rs1,
            Part::Close,
        ],
        Form::I | Form::Fence | Form::Shift6 | Form::Shift5 => {
            &[Part::Rd, Part::Comma, Part::Rs1, Part::Comma, Part::Imm]
        }
        Form::B => &[Part::Rs1, Part::Comma, Part::Rs2, Part::Comma, Part::Imm],
        Form::S => &[
            Part::Rs2,
            Part::Comma,
            Part::Imm,
            Part::Open,
            Part::Rs1,
            Part::Close,
        ],
        Form::R => &[Part::Rd, Part::Comma, Part::Rs1, Part::Comma, Part::Rs2],
        Form::Lr => &[Part::Rd, Part::Comma, Part::Open, Part::Rs1, Part::Close],
        Form::Amo => &[
            Part::Rd,
            Part::Comma,
            Part::Rs2,
            Part::Comma,
            Part::Open,
            Part::Rs1,
            Part::Close,
        ],
        Form::Sys => &[],
    }
}

/// Whether the immediate is an offset from rs1, written `imm(rs1)`: in `jalr` and the loads.
#[tactic(auto, unfolding(crate::specs::Parts::is_based))]
fn is_based(op: Op) -> bool
    ensures { result ≡ is_based op }
{
    matches!(
        op,
        Op::Jalr | Op::Lb | Op::Lh | Op::Lw | Op::Ld | Op::Lbu | Op::Lhu | Op::Lwu
    )
}

/// Why a word has no value as an expression (docs/debugger.md, "Expressions").
#[derive(Clone, Copy, Debug, PartialEq, Eq)]
pub enum EvalFault {
    /// No symbol and no variable has that name.
    NotFound,
    /// A number is meant, and it isn't one, or it is 2^64 or more.
    BadNumber,
    /// No register has that name.
    BadReg,
}

ghost use Rattle.std.specs.Prelude.{◌≡◌, ◌↔◌, ℕ, ◌<◌, List, [], ◌++◌, codes, slice_index_or, Some, None, IfSome, IfOk, IfErr};
ghost use Rattle.std.specs.Result.{result_ok};
ghost use Rattle.mach_base.specs.Number.{dec_text};
ghost use Rattle.hart_ctx.specs.RegisterName.{name_of, abi_names, abi_number, x_number, bare, register_of, register_named, IsRegister};

/// A register as the debugger names it: an integer register by its number, 0 to 31, or the pc.
#[derive(Clone, Copy, Debug, PartialEq, Eq)]
pub enum RegName {
    X(u8),
    Pc,
}

/// The ABI name of a register (`s0` for x8), or `pc`.
#[tactic(auto, unfolding(crate::specs::RegisterName::name_of))]
pub fn reg_name(reg: RegName) -> &'static str
    requires { IsRegister reg }
    ensures { result.now ≡ name_of reg }
{
    match reg {
        RegName::X(number) => abi_name(number),
        RegName::Pc => "pc",
    }
}

fn abi_name(number: u8) -> &'static str
    requires { number < 32 }
    ensures { result.now ≡ slice_index_or abi_names number [] }
{
    match number {
        0 => "zero",
        1 => "ra",
        2 => "sp",
        3 => "gp",
        4 => "tp",
        5 => "t0",
        6 => "t1",
        7 => "t2",
        8 => "s0",
        9 => "s1",
        10 => "a0",
        11 => "a1",
        12 => "a2",
        13 => "a3",
        14 => "a4",
        15 => "a5",
        16 => "a6",
        17 => "a7",
        18 => "s2",
        19 => "s3",
        20 => "s4",
        21 => "s5",
        22 => "s6",
        23 => "s7",
        24 => "s8",
        25 => "s9",
        26 => "s10",
        27 => "s11",
        28 => "t3",
        29 => "t4",
        30 => "t5",
        31 => "t6",
        _ => unreachable!(),
    }
}

/// A text names no register.
#[derive(Clone, Copy, Debug, PartialEq, Eq)]
pub struct BadReg;

/// The register that a text names, with or without a leading `%`: an ABI name, `fp` (x8), `x0` to `x31`, or `pc`. BadReg
/// comes exactly where it names none.
pub fn reg_of(name: &[u8]) -> Result<RegName, BadReg>
    ensures value { result_ok result ≡ register_named name.now }
    ensures register { IfOk result IsRegister }
{
    register_of(bare(name)).ok_or(BadReg)
}

/// The name without a leading `%`.
fn bare(name: &[u8]) -> &[u8]
    ensures { result.now ≡ bare name.now }
{
    match name {
        [b'%', rest @ ..] => rest,
        name => name,
    }
}

#[tactic(auto, unfolding(crate::specs::RegisterName::register_of))]
fn register_of(name: &[u8]) -> Option<RegName>
    ensures value { result ≡ register_of name.now }
    ensures register { IfSome result IsRegister }
{
    if name == b"pc".as_slice() {
        return Some(RegName::Pc);
    }
    if name == b"fp".as_slice() {
        return Some(RegName::X(8));
    }
    if let Some(number) = abi_number(name) {
        return Some(RegName::X(number));
    }
    let number = x_number(name)?;
    Some(RegName::X(number))
}

/// The register of this ABI name.
fn abi_number(name: &[u8]) -> Option<u8>
    ensures value { result ≡ abi_number name.now }
    ensures register { IfSome result (λ n. n < 32) }
{
    (0..32u8).find(|number| abi_name(*number).as_bytes() == name)
}

/// The register that is named by its number.
fn x_number(name: &[u8]) -> Option<u8>
    ensures value { result ≡ x_number name.now }
    ensures register { IfSome result (λ n. n < 32) }
{
    match name {
        [b'x', digit @ b'0'..=b'9'] => Some(*digit - b'0'),
        [b'x', tens @ b'1'..=b'9', units @ b'0'..=b'9'] => {
            let number = 10 * (*tens - b'0') + (*units - b'0');
            if number < 32 { Some(number) } else { None }
        }
        _ => None,
    }
}

/// What `reg_name` prints is read as the same register. The call does nothing; its contract says so to callers.
pub fn names_are_read(reg: RegName)
    requires { IsRegister reg }
    ensures { register_named (name_of reg) ≡ Some reg }
{
    let _reg = reg;
}

/// A text is the name of a register by its number exactly where that number is below 32 and the text is `x` and the
/// number's decimal digits, without leading zeros. The call does nothing; its contract says so to callers.
pub fn numbers_name_registers()
    ensures { (name : List ℕ) (number : ℕ) → (x_number name ≡ Some number) ↔ ((number < 32) × (name ≡ codes "x" ++ dec_text number)) }
{}

#[cfg(test)]
mod tests {
    use super::*;

    #[test]
    fn names_registers(rt: HostRuntime) {
        for (number, name) in [(0, "zero"), (2, "sp"), (8, "s0"), (17, "a7"), (31, "t6")] {
            assert_eq!(rt; reg_name(RegName::X(number)), name);
        }
        assert_eq!(rt; reg_name(RegName::Pc), "pc");
    }

    #[test]
    fn reads_registers(rt: HostRuntime) {
        for (name, want) in [
            (b"a0".as_slice(), Ok(RegName::X(10))),
            (b"%a0".as_slice(), Ok(RegName::X(10))),
            (b"fp".as_slice(), Ok(RegName::X(8))),
            (b"x0".as_slice(), Ok(RegName::X(0))),
            (b"x31".as_slice(), Ok(RegName::X(31))),
            (b"%pc".as_slice(), Ok(RegName::Pc)),
            (b"x32".as_slice(), Err(BadReg)),
            (b"x01".as_slice(), Err(BadReg)),
            (b"%%ra".as_slice(), Err(BadReg)),
            (b"q".as_slice(), Err(BadReg)),
            (b"".as_slice(), Err(BadReg)),
            (b"A0".as_slice(), Err(BadReg)),
        ] {
            assert_eq!(rt; reg_of(name), want);
        }
    }
}

use super::*;
use mach_base::Names;

/// A scope with the symbols start, face and a-b, the register ra, and the variables MDCOUNT and PROMPT.
#[derive(Drop)]
struct Sample {
    decimal: bool,
}

impl Names for Sample {
    ghost use Rattle.std.specs.Prelude.{◌≡◌, Some, None, codes, if◌then◌else◌};
    ghost use Rattle.std.specs.Str.{bytes_eq};

    ghost symbols = { λ s name.
        if bytes_eq name (codes "start") then Some 4096
        else (if bytes_eq name (codes "face") then Some 8192
        else (if bytes_eq name (codes "a-b") then Some 1 else None)) };

    ghost registers = { λ s name. if bytes_eq name (codes "ra") then Some 8196 else None };

    ghost variables = { λ s name.
        if bytes_eq name (codes "MDCOUNT") then Some (codes "8")
        else (if bytes_eq name (codes "PROMPT") then Some (codes "kdb> ") else None) };

    ghost base = { λ s. if s.decimal then 10 else 16 };

    fn symbol(&self, name: &[u8]) -> Option<u64> {
        if name == b"start".as_slice() {
            Some(0x1000)
        } else if name == b"face".as_slice() {
            Some(0x2000)
        } else if name == b"a-b".as_slice() {
            Some(1)
        } else {
            None
        }
    }

    fn register(&self, name: &[u8]) -> Option<u64> {
        if name == b"ra".as_slice() {
            Some(0x2004)
        } else {
            None
        }
    }

    fn variable(&self, name: &[u8]) -> Option<&[u8]> {
        if name == b"MDCOUNT".as_slice() {
            Some(b"8".as_slice())
        } else if name == b"PROMPT".as_slice() {
            Some(b"kdb> ".as_slice())
        } else {
            None
        }
    }

    fn radix(&self) -> u8 {
        if self.decimal { 10 } else { 16 }
    }
}

#[test]
fn evaluates_words(rt: HostRuntime) {
    let table: [(&[u8], Result<u64, EvalFault>); 13] = [
        (b"face+8", Ok(0x2008)),
        (b"facf", Ok(0xfacf)),
        (b"0-1", Ok(0xffff_ffff_ffff_ffff)),
        (b"ffffffffffffffff+2", Ok(1)),
        (b"8+%ra", Ok(0x200c)),
        (b"$MDCOUNT+start", Ok(0x1008)),
        (b"a-b", Ok(0xffff_ffff_ffff_ffff)),
        (b"-1", Err(EvalFault::NotFound)),
        (b"$PROMPT", Err(EvalFault::BadNumber)),
        (b"%%ra", Err(EvalFault::BadReg)),
        (b"face+", Err(EvalFault::BadNumber)),
        (b"zork+12g", Err(EvalFault::NotFound)),
        (b"12g+zork", Err(EvalFault::BadNumber)),
    ];
    let names = Sample { decimal: false };
    for (word, value) in table {
        assert_eq!(rt; eval(&names, word), value);
    }
    let decimal = Sample { decimal: true };
    assert_eq!(rt; eval(&decimal, b"0x10+10".as_slice()), Ok(26));
}

ghost use Rattle.std.specs.Prelude.{◌≡◌};
ghost use Rattle.std.specs.List.{list_all};
ghost use Rattle.kdb_env.specs.Variables.{is_letter, is_name_byte, is_name, is_radix, is_width, is_count, value_fault};

use crate::EnvFault;
use mach_base::parse_number;

fn is_letter(byte: u8) -> bool
    ensures { result ≡ is_letter byte }
{
    (byte >= b'A' && byte <= b'Z') || (byte >= b'a' && byte <= b'z')
}

fn is_name_byte(byte: u8) -> bool
    ensures { result ≡ is_name_byte byte }
{
    is_letter(byte) || (byte >= b'0' && byte <= b'9') || byte == b'_'
}

fn has_name_bytes(bytes: &[u8]) -> bool
    ensures { result ≡ list_all is_name_byte bytes.now }
{
    bytes.iter().all(|byte| is_name_byte(*byte))
}

/// Whether the bytes are a variable's name.
pub fn is_name(name: &[u8]) -> bool
    ensures { result ≡ is_name name.now }
{
    let Some((first, rest)) = name.split_first() else {
        return false;
    };
    if !is_letter(*first) {
        return false;
    }
    if !has_name_bytes(rest) {
        return false;
    }
    rest.len() <= 15
}

fn is_radix(value: &[u8]) -> bool
    ensures { result ≡ is_radix value.now }
{
    value == b"8".as_slice() || value == b"10".as_slice() || value == b"16".as_slice()
}

fn is_width(value: &[u8]) -> bool
    ensures { result ≡ is_width value.now }
{
    value == b"1".as_slice()
        || value == b"2".as_slice()
        || value == b"4".as_slice()
        || value == b"8".as_slice()
}

fn is_count(value: &[u8]) -> bool
    ensures { result ≡ is_count value.now }
{
    match parse_number(value, 10) {
        Ok(count) => count >= 1 && count <= 256,
        Err(_) => false,
    }
}

/// Why the name doesn't take the value, if so.
#[tactic(auto, unfolding(crate::specs::Variables::value_fault))]
pub fn value_fault(name: &[u8], value: &[u8]) -> Option<EnvFault>
    ensures { result ≡ value_fault name.now value.now }
{
    if name == b"RADIX".as_slice() {
        if is_radix(value) {
            None
        } else {
            Some(EnvFault::BadRadix)
        }
    } else if name == b"BYTESPERWORD".as_slice() {
        if is_width(value) {
            None
        } else {
            Some(EnvFault::BadWidth)
        }
    } else if name == b"MDCOUNT".as_slice() {
        if is_count(value) {
            None
        } else {
            Some(EnvFault::BadCount)
        }
    } else {
        None
    }
}

//! The header of an ELF file.

ghost use Rattle.std.specs.Prelude.{◌≡◌, ◌*◌, ◌<◌, ◌≤◌, false, true, length, OnOk};
ghost use Rattle.elf_img.specs.Causes.{Passes};
ghost use Rattle.elf_img.specs.Header.{entry, program_offset, program_count, section_offset, section_count, has_programs, has_sections, is_too_long, is_short, has_magic, is_executable_file, is_riscv, is_compressed, has_header_sizes, header_causes};

use crate::bytes::{double_at, half_at, is_inside, word_at};
use crate::fault::{ElfFault, ElfWhy};
use mach_base::{ELF_BYTES, What};

/// The bytes of the header.
const HEADER_SIZE: usize = 64;

/// Refuses a file whose header is wrong, or that is too large.
#[tactic(auto, unfolding(crate::specs::Header::header_causes))]
pub fn check_header(file: &[u8]) -> Result<(), ElfFault>
    ensures passes { Passes result (header_causes file.now) }
    ensures long { OnOk result (64 ≤ length file.now) }
    ensures short { OnOk result (length file.now ≤ ELF_BYTES) }
    ensures programs { OnOk result (has_programs file.now ≡ true) }
    ensures sections { OnOk result (has_sections file.now ≡ true) }
{
    if is_too_long(file) {
        let what = What::ElfBytes;
        let size = file.len() as u64;
        return Err(ElfFault::TooLarge { what, size });
    }
    if is_short(file) {
        return Err(ElfFault::Bad(ElfWhy::Short));
    }
    if !has_magic(file) {
        return Err(ElfFault::Bad(ElfWhy::Magic));
    }
    if !is_executable_file(file) {
        return Err(ElfFault::Bad(ElfWhy::FileType));
    }
    if !is_riscv(file) {
        return Err(ElfFault::Bad(ElfWhy::Machine));
    }
    if is_compressed(file) {
        return Err(ElfFault::Bad(ElfWhy::Compressed));
    }
    if !has_header_sizes(file) {
        return Err(ElfFault::Bad(ElfWhy::HeaderSize));
    }
    Ok(())
}

fn is_too_long(file: &[u8]) -> bool
    ensures value { result ≡ is_too_long file.now }
    ensures short { result ≡ false → length file.now ≤ ELF_BYTES }
{
    file.len() > ELF_BYTES
}

fn is_short(file: &[u8]) -> bool
    ensures value { result ≡ is_short file.now }
    ensures long { result ≡ false → 64 ≤ length file.now }
    ensures programs { result ≡ false → has_programs file.now ≡ true }
    ensures sections { result ≡ false → has_sections file.now ≡ true }
{
    if file.len() < HEADER_SIZE {
        return true;
    }
    !(has_programs(file) && has_sections(file))
}

fn has_programs(file: &[u8]) -> bool
    requires { 64 ≤ length file.now }
    ensures { result ≡ has_programs file.now }
{
    is_inside(
        file.len() as u64,
        program_offset(file),
        56 * program_count(file),
    )
}

fn has_sections(file: &[u8]) -> bool
    requires { 64 ≤ length file.now }
    ensures { result ≡ has_sections file.now }
{
    is_inside(
        file.len() as u64,
        section_offset(file),
        64 * section_count(file),
    )
}

fn has_magic(file: &[u8]) -> bool
    requires { 64 ≤ length file.now }
    ensures { result ≡ has_magic file.now }
{
    file[0] == 0x7f
        && file[1] == b'E'
        && file[2] == b'L'
        && file[3] == b'F'
        && file[4] == 2
        && file[5] == 1
        && file[6] == 1
}

fn is_executable_file(file: &[u8]) -> bool
    requires { 64 ≤ length file.now }
    ensures { result ≡ is_executable_file file.now }
{
    half_at(file, 16) == 2
}

fn is_riscv(file: &[u8]) -> bool
    requires { 64 ≤ length file.now }
    ensures { result ≡ is_riscv file.now }
{
    half_at(file, 18) == 243
}

fn is_compressed(file: &[u8]) -> bool
    requires { 64 ≤ length file.now }
    ensures { result ≡ is_compressed file.now }
{
    word_at(file, 48) % 2 == 1
}

fn has_header_sizes(file: &[u8]) -> bool
    requires { 64 ≤ length file.now }
    ensures { result ≡ has_header_sizes file.now }
{
    (program_count(file) == 0 || half_at(file, 54) == 56)
        && (section_count(file) == 0 || half_at(file, 58) == 64)
}

/// The address of the first instruction.
pub fn entry(file: &[u8]) -> u64
    requires { 64 ≤ length file.now }
    ensures { result ≡ entry file.now }
{
    double_at(file, 24)
}

/// Where the program headers begin.
pub fn program_offset(file: &[u8]) -> u64
    requires { 64 ≤ length file.now }
    ensures { result ≡ program_offset file.now }
{
    double_at(file, 32)
}

/// How many program headers there are.
pub fn program_count(file: &[u8]) -> u64
    requires { 64 ≤ length file.now }
    ensures value { result ≡ program_count file.now }
    ensures few { result < 65536 }
{
    half_at(file, 56)
}

/// Where the section headers begin.
pub fn section_offset(file: &[u8]) -> u64
    requires { 64 ≤ length file.now }
    ensures { result ≡ section_offset file.now }
{
    double_at(file, 40)
}

/// How many section headers there are.
pub fn section_count(file: &[u8]) -> u64
    requires { 64 ≤ length file.now }
    ensures value { result ≡ section_count file.now }
    ensures few { result < 65536 }
{
    half_at(file, 60)
}

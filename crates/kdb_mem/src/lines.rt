ghost use Rattle.std.specs.Prelude.{◌≡◌, ◌+◌, ◌*◌, ◌/◌, ◌%◌, ◌<◌, ◌≤◌, ◌^◌, ◌++◌, [], ◌∷◌, Err, OnOk, OnErr, IsOkUnless, MatchOption};
ghost use Rattle.kdb_mem.specs.declared.mem_fault.MemFault.TheVariants.{BadAddr, OutOfMemory};
ghost use Rattle.mach_base.specs.Bytes.{IsWidth};
ghost use Rattle.kdb_mem.specs.Range.{first_unmapped};
ghost use Rattle.kdb_mem.specs.Shown.{word_text, words_text, character, characters, line_text, whole_lines, short_line, show_text, byte_digits, raw_text};

use crate::MemFault;
use crate::range::{byte, check_mapped, word};
use mach_base::{Peek, push_address, push_bytes, push_hex, push_newline};

/// What a call that appends gives: memory may run out.
pub(crate) type Pushed = Result<(), mach_base::OutOfMemory>;

/// Appends `count` words of `width` bytes from `addr` on, 16 bytes on a line. BadAddr comes exactly where not all of
/// them are mapped. A refusal leaves `out` as it was.
pub fn show<P: Peek>(
    mem: &P,
    out: &mut Vec<u8>,
    addr: u64,
    width: u8,
    count: u32,
) -> Result<(), MemFault>
    requires { IsWidth width }
    ensures refused { MatchOption (first_unmapped (P.memory mem.now) addr (count * width)) (IsOkUnless result MemFault.OutOfMemory) (λ bad. result ≡ Err (MemFault.BadAddr bad)) }
    ensures ok { OnOk result (out.new.items ≡ out.old.items ++ show_text (P.memory mem.now) addr width count) }
    ensures err { OnErr result (out.new.items ≡ out.old.items) }
{
    check_mapped(mem, addr, u64::from(count) * u64::from(width))?;
    let mut text = Vec::new(*out.allocator());
    push_lines(mem, &mut text, addr, width, count)?;
    push_bytes(out, text.as_slice())?;
    Ok(())
}

/// Appends `count` bytes from `addr` on as two hexadecimal digits each, on one line. BadAddr comes exactly where not all
/// of them are mapped. A refusal leaves `out` as it was.
pub fn raw<P: Peek>(mem: &P, out: &mut Vec<u8>, addr: u64, count: u32) -> Result<(), MemFault>
    ensures refused { MatchOption (first_unmapped (P.memory mem.now) addr count) (IsOkUnless result MemFault.OutOfMemory) (λ bad. result ≡ Err (MemFault.BadAddr bad)) }
    ensures ok { OnOk result (out.new.items ≡ out.old.items ++ raw_text (P.memory mem.now) addr count) }
    ensures err { OnErr result (out.new.items ≡ out.old.items) }
{
    check_mapped(mem, addr, u64::from(count))?;
    let mut text = Vec::new(*out.allocator());
    push_byte_digits(mem, &mut text, addr, count)?;
    push_newline(&mut text)?;
    push_bytes(out, text.as_slice())?;
    Ok(())
}

fn push_byte_digits<P: Peek>(mem: &P, out: &mut Vec<u8>, addr: u64, count: u32) -> Pushed
    requires { 0 < count → addr < 2 ^ 63 }
    ensures { OnOk result (out.new.items ≡ out.old.items ++ byte_digits (P.memory mem.now) addr count) }
{
    for i in 0..count {
        push_hex(out, u64::from(byte(mem, addr + u64::from(i))), 2)?;
    }
    Ok(())
}

#[tactic(auto, using(crate::proofs::Ranges::some_to_divide, crate::proofs::Ranges::some_left), unfolding(crate::specs::Shown::show_text))]
fn push_lines<P: Peek>(mem: &P, out: &mut Vec<u8>, addr: u64, width: u8, count: u32) -> Pushed
    requires width { IsWidth width }
    requires low { 0 < count → addr < 2 ^ 63 }
    ensures { OnOk result (out.new.items ≡ out.old.items ++ show_text (P.memory mem.now) addr width count) }
{
    let per_line = words_per_line(width);
    let lines = count / u32::from(per_line);
    push_whole_lines(mem, out, addr, width, lines)?;
    push_short_line(
        mem,
        out,
        addr,
        width,
        lines,
        (count % u32::from(per_line)) as u8,
    )?;
    Ok(())
}

/// How many words a line of 16 bytes has.
fn words_per_line(width: u8) -> u8
    requires { IsWidth width }
    ensures value { result ≡ 16 / width }
    ensures some { 0 < result }
    ensures most { result ≤ 16 }
{
    match width {
        1 => 16,
        2 => 8,
        4 => 4,
        8 => 2,
        _ => unreachable!(),
    }
}

fn push_whole_lines<P: Peek>(mem: &P, out: &mut Vec<u8>, addr: u64, width: u8, lines: u32) -> Pushed
    requires width { IsWidth width }
    requires low { 0 < lines → addr < 2 ^ 63 }
    ensures { OnOk result (out.new.items ≡ out.old.items ++ whole_lines (P.memory mem.now) addr width lines) }
{
    let words = words_per_line(width);
    for line in 0..lines {
        push_line(mem, out, addr + 16 * u64::from(line), width, words)?;
    }
    Ok(())
}

/// Appends the line of the words that are left after so many lines, if there are any.
fn push_short_line<P: Peek>(
    mem: &P,
    out: &mut Vec<u8>,
    addr: u64,
    width: u8,
    lines: u32,
    words: u8,
) -> Pushed
    requires width { IsWidth width }
    requires words { words ≤ 16 }
    requires low { 0 < words → addr < 2 ^ 63 }
    ensures { OnOk result (out.new.items ≡ out.old.items ++ short_line (P.memory mem.now) (addr + 16 * lines) width words) }
{
    if words != 0 {
        push_line(mem, out, addr + 16 * u64::from(lines), width, words)?;
    }
    Ok(())
}

#[tactic(auto, unfolding(crate::specs::Shown::line_text))]
fn push_line<P: Peek>(mem: &P, out: &mut Vec<u8>, addr: u64, width: u8, words: u8) -> Pushed
    requires width { IsWidth width }
    requires words { words ≤ 16 }
    requires room { addr + 256 ≤ 2 ^ 64 }
    ensures { OnOk result (out.new.items ≡ out.old.items ++ line_text (P.memory mem.now) addr width words) }
{
    push_address(out, addr)?;
    push_words(mem, out, addr, width, words)?;
    push_bytes(out, b"  ")?;
    push_characters(mem, out, addr, words * width)?;
    push_newline(out)?;
    Ok(())
}

fn push_words<P: Peek>(mem: &P, out: &mut Vec<u8>, addr: u64, width: u8, words: u8) -> Pushed
    requires width { IsWidth width }
    requires words { words ≤ 16 }
    requires room { addr + 256 ≤ 2 ^ 64 }
    ensures { OnOk result (out.new.items ≡ out.old.items ++ words_text (P.memory mem.now) addr width words) }
{
    for i in 0..words {
        push_word(mem, out, addr + u64::from(i) * u64::from(width), width)?;
    }
    Ok(())
}

/// Appends a word, its value in two digits a byte, after a blank.
#[tactic(auto, unfolding(crate::specs::Shown::word_text))]
pub(crate) fn push_word<P: Peek>(mem: &P, out: &mut Vec<u8>, addr: u64, width: u8) -> Pushed
    requires width { IsWidth width }
    requires room { addr + 8 ≤ 2 ^ 64 }
    ensures { OnOk result (out.new.items ≡ out.old.items ++ word_text (P.memory mem.now) addr width) }
{
    push_bytes(out, b" ")?;
    push_hex(out, word(mem, addr, width), 2 * width)?;
    Ok(())
}

fn push_characters<P: Peek>(mem: &P, out: &mut Vec<u8>, addr: u64, count: u8) -> Pushed
    requires { addr + 256 ≤ 2 ^ 64 }
    ensures { OnOk result (out.new.items ≡ out.old.items ++ characters (P.memory mem.now) addr count) }
{
    for i in 0..count {
        out.push(character(byte(mem, addr + u64::from(i))))?;
    }
    Ok(())
}

/// The byte itself where it is printable ASCII, else a full stop.
fn character(byte: u8) -> u8
    ensures { result ≡ character byte }
{
    if 0x20 <= byte && byte <= 0x7e {
        byte
    } else {
        b'.'
    }
}

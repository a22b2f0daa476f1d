ghost use Rattle.std.specs.Prelude.{◌≡◌, ◌≤◌, IfOk};
ghost use Rattle.mach_base.specs.Bytes.{IsWidth};
ghost use Rattle.kdb_table.specs.Refused.{Answers};
ghost use Rattle.kdb_view.specs.MemoryDisplay.{memory_refusal, words_text, bytes_text, symbols_text, md_text, md_count_text, mdr_text, mds_text, instructions_text, id_text};

use crate::arguments::{Values, count_wanted, lines_wanted};
use crate::view::View;
use kdb_mem::{MemFault, insns, raw, show, syms};
use kdb_table::{Diagnostic, Refusal, spelled_count, spelled_width};
use mach_base::{Peek, Text};
use std::alloc::Global;
use sym_map::Symbols;

/// The refusal of a command whose memory isn't shown or changed. The value that is too wide is its second argument.
pub fn memory_refusal(fault: MemFault) -> Refusal
    ensures { result ≡ memory_refusal fault }
{
    match fault {
        MemFault::BadAddr(bad) => Refusal::Diagnosed(Diagnostic::BadAddress(bad)),
        MemFault::TooWide => Refusal::Diagnosed(Diagnostic::BadNumber(2)),
        MemFault::OutOfMemory => Refusal::OutOfMemory,
    }
}

/// This many words of memory, 16 bytes on a line.
#[tactic(auto, using(crate::proofs::Displayed::refused), unfolding(crate::specs::MemoryDisplay::words_text))]
fn words_text<P: Peek>(
    alloc: Global,
    mem: &P,
    addr: u64,
    width: u8,
    count: u32,
) -> Result<Text, Refusal>
    requires { IsWidth width }
    ensures { Answers result (words_text (P.memory mem.now) addr width count) }
{
    let mut out = Vec::new(alloc);
    match show(mem, &mut out, addr, width, count) {
        Ok(()) => Ok(Text::from_vec(out)),
        Err(fault) => Err(memory_refusal(fault)),
    }
}

/// This many bytes of memory as digits.
#[tactic(auto, using(crate::proofs::Displayed::refused), unfolding(crate::specs::MemoryDisplay::bytes_text))]
fn bytes_text<P: Peek>(alloc: Global, mem: &P, addr: u64, count: u32) -> Result<Text, Refusal>
    ensures { Answers result (bytes_text (P.memory mem.now) addr count) }
{
    let mut out = Vec::new(alloc);
    match raw(mem, &mut out, addr, count) {
        Ok(()) => Ok(Text::from_vec(out)),
        Err(fault) => Err(memory_refusal(fault)),
    }
}

/// `md E [E]`, `mdW E [E]`.
#[tactic(auto, unfolding(crate::specs::MemoryDisplay::md_text))]
pub fn md<P: Peek>(
    alloc: Global,
    view: &View<P>,
    width: u8,
    values: Values,
) -> Result<Text, Refusal>
    requires { IsWidth width }
    ensures { Answers result (md_text view.now width values) }
{
    let lines = lines_wanted(view, values.second)?;
    let count = lines * 16 / u32::from(width);
    words_text(alloc, view.mem, values.address(), width, count)
}

/// `mdWcN E`.
#[tactic(auto, unfolding(crate::specs::MemoryDisplay::md_count_text))]
pub fn md_count<P: Peek>(
    alloc: Global,
    view: &View<P>,
    word: &[u8],
    values: Values,
) -> Result<Text, Refusal>
    ensures { Answers result (md_count_text view.now word.now values) }
{
    let Some(count) = spelled_count(word) else {
        return Err(Refusal::Diagnosed(Diagnostic::BadCount));
    };
    words_text(
        alloc,
        view.mem,
        values.address(),
        spelled_width(word),
        count,
    )
}

/// `mdr E E`.
#[tactic(auto, unfolding(crate::specs::MemoryDisplay::mdr_text))]
pub fn mdr<P: Peek>(alloc: Global, view: &View<P>, values: Values) -> Result<Text, Refusal>
    ensures { Answers result (mdr_text view.now values) }
{
    let count = count_wanted(values.second.unwrap_or(0), 4096)?;
    bytes_text(alloc, view.mem, values.address(), count)
}

/// This many words of eight bytes, with the symbols that they are near.
#[tactic(auto, using(crate::proofs::Displayed::refused), unfolding(crate::specs::MemoryDisplay::symbols_text))]
fn symbols_text<P: Peek>(
    alloc: Global,
    mem: &P,
    names: &Symbols,
    addr: u64,
    count: u32,
) -> Result<Text, Refusal>
    ensures { Answers result (symbols_text (P.memory mem.now) names.now addr count) }
{
    let mut out = Vec::new(alloc);
    match syms(mem, names, &mut out, addr, count) {
        Ok(()) => Ok(Text::from_vec(out)),
        Err(fault) => Err(memory_refusal(fault)),
    }
}

/// `mds E [E]`.
#[tactic(auto, unfolding(crate::specs::MemoryDisplay::mds_text))]
pub fn mds<P: Peek>(alloc: Global, view: &View<P>, values: Values) -> Result<Text, Refusal>
    ensures { Answers result (mds_text view.now values) }
{
    let lines = lines_wanted(view, values.second)?;
    symbols_text(alloc, view.mem, view.names, values.address(), lines)
}

/// This many instructions, each on a line.
#[tactic(auto, using(crate::proofs::Displayed::refused), unfolding(crate::specs::MemoryDisplay::instructions_text))]
fn instructions_text<P: Peek>(
    alloc: Global,
    mem: &P,
    addr: u64,
    count: u32,
) -> Result<Text, Refusal>
    ensures { Answers result (instructions_text (P.memory mem.now) addr count) }
{
    let mut out = Vec::new(alloc);
    match insns(mem, &mut out, addr, count) {
        Ok(()) => Ok(Text::from_vec(out)),
        Err(fault) => Err(memory_refusal(fault)),
    }
}

/// `id E [E]`.
#[tactic(auto, unfolding(crate::specs::MemoryDisplay::id_text))]
pub fn id<P: Peek>(alloc: Global, view: &View<P>, values: Values) -> Result<Text, Refusal>
    ensures { Answers result (id_text view.now values) }
{
    let lines = lines_wanted(view, values.second)?;
    instructions_text(alloc, view.mem, values.address(), lines)
}

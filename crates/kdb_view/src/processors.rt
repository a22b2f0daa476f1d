ghost use Rattle.std.specs.Prelude.{◌≡◌, ◌++◌, ◌<◌, ◌≤◌, ◌^◌, true, length, OnOk, IfOk};
ghost use Rattle.std.specs.Bool.{OnTrue};
ghost use Rattle.mach_base.specs.Masks.{has_bit};
ghost use Rattle.kdb_table.specs.Refused.{Answers};
ghost use Rattle.kdb_view.specs.Processors.{number_text, numbers_text, current_line, available_line, cpu_text, processor_wanted, cpu_answer, bt_text, processor_frames, frames_below, btc_text};

use crate::view::View;
use hart_ctx::Context;
use kdb_bt::show_frames;
use kdb_table::{Diagnostic, Refusal};
use mach_base::{
    OutOfMemory, Peek, Text, has_bit, parse_number, push_bytes, push_dec, push_newline,
};
use std::alloc::Global;
use sym_map::Symbols;

/// Whether the processor of this number is in the session.
#[tactic(auto, using(crate::proofs::Gathered::not_gathered))]
fn is_gathered(gathered: u64, number: u64) -> bool
    ensures value { result ≡ has_bit gathered number }
    ensures small { OnTrue result (number < 64) }
{
    number < 64 && has_bit(gathered, number as u8)
}

/// A number of processors, of which none is left out that a session can have.
#[tactic(auto, using(crate::proofs::Gathered::all_of_64))]
fn processor_count(gathered: u64, ctxs: &[Context]) -> u8
    requires { gathered < 2 ^ length ctxs.now }
    ensures few { result ≤ 64 }
    ensures there { result ≤ length ctxs.now }
    ensures all { gathered < 2 ^ result }
{
    if ctxs.len() < 64 {
        ctxs.len() as u8
    } else {
        64
    }
}

/// Appends the number after those before it, if its processor is in the session.
#[tactic(auto, unfolding(crate::specs::Processors::number_text))]
fn push_number(out: &mut Vec<u8>, gathered: u64, number: u8) -> Result<(), OutOfMemory>
    requires { number < 64 }
    ensures { OnOk result (out.new.items ≡ out.old.items ++ number_text gathered number out.old.items) }
{
    if !has_bit(gathered, number) {
        return Ok(());
    }
    if !out.is_empty() {
        push_bytes(out, b", ")?;
    }
    push_dec(out, u64::from(number))?;
    Ok(())
}

/// The numbers of the processors in the session, all of which are below this one.
fn numbers(alloc: Global, gathered: u64, harts: u8) -> Result<Vec<u8>, OutOfMemory>
    requires { harts ≤ 64 }
    ensures { IfOk result (λ out. out.items ≡ numbers_text gathered harts) }
{
    let mut out = Vec::new(alloc);
    for number in 0..harts {
        push_number(&mut out, gathered, number)?;
    }
    Ok(out)
}

/// Appends the line that says which processor is the current one.
#[tactic(auto, unfolding(crate::specs::Processors::current_line))]
fn push_current(out: &mut Vec<u8>, number: u64) -> Result<(), OutOfMemory>
    ensures { OnOk result (out.new.items ≡ out.old.items ++ current_line number) }
{
    push_bytes(out, b"Currently on cpu ")?;
    push_dec(out, number)?;
    push_newline(out)?;
    Ok(())
}

/// Appends the line of the processors in the session.
#[tactic(auto, unfolding(crate::specs::Processors::available_line))]
fn push_available(
    alloc: Global,
    out: &mut Vec<u8>,
    gathered: u64,
    ctxs: &[Context],
) -> Result<(), OutOfMemory>
    requires { gathered < 2 ^ length ctxs.now }
    ensures { OnOk result (out.new.items ≡ out.old.items ++ available_line gathered (length ctxs.now)) }
{
    let numbers = numbers(alloc, gathered, processor_count(gathered, ctxs))?;
    push_bytes(out, b"Available cpus: ")?;
    push_bytes(out, numbers.as_slice())?;
    push_newline(out)?;
    Ok(())
}

/// `cpu`: the current processor, and those in the session.
#[tactic(auto, unfolding(crate::specs::Processors::cpu_text))]
pub fn cpu_list<P: Peek>(alloc: Global, view: &View<P>, gathered: u64) -> Result<Text, OutOfMemory>
    requires { gathered < 2 ^ length view.now.harts }
    ensures { IfOk result (λ text. text ≡ cpu_text gathered view.now) }
{
    let mut out = Vec::new(alloc);
    push_current(&mut out, u64::from(view.kdb.current))?;
    push_available(alloc, &mut out, gathered, view.ctxs)?;
    Ok(Text::from_vec(out))
}

/// The processor that the argument of `cpu N` names; it is in the session.
#[tactic(auto, unfolding(crate::specs::Processors::processor_wanted))]
fn processor_wanted(gathered: u64, word: &[u8]) -> Result<u8, Diagnostic>
    ensures value { result ≡ processor_wanted gathered word.now }
    ensures gathered { IfOk result (λ number. has_bit gathered number ≡ true) }
{
    match parse_number(word, 10) {
        Ok(number) => {
            if is_gathered(gathered, number) {
                Ok(number as u8)
            } else {
                Err(Diagnostic::BadProcessor(number))
            }
        }
        Err(_) => Err(Diagnostic::BadNumber(1)),
    }
}

/// What `cpu` prints, and the processor that is current after it.
#[derive(Debug, Drop)]
pub struct CpuAnswer {
    pub text: Text,
    pub current: u8,
}

/// `cpu N`, where these processors are in the session.
#[tactic(auto, unfolding(crate::specs::Processors::cpu_answer))]
pub fn cpu(alloc: Global, gathered: u64, word: &[u8]) -> Result<CpuAnswer, Refusal>
    ensures answer { Answers result (cpu_answer gathered word.now) }
    ensures gathered { IfOk result (λ answer. has_bit gathered answer.current ≡ true) }
{
    let number = processor_wanted(gathered, word)?;
    let mut out = Vec::new(alloc);
    push_current(&mut out, u64::from(number))?;
    Ok(CpuAnswer {
        text: Text::from_vec(out),
        current: number,
    })
}

/// `bt`: the frames of the current processor.
pub fn bt<P: Peek>(alloc: Global, view: &View<P>) -> Result<Text, OutOfMemory>
    ensures { IfOk result (λ text. text ≡ bt_text view.now) }
{
    let mut out = Vec::new(alloc);
    show_frames(view.mem, view.names, view.context(), &mut out)?;
    Ok(Text::from_vec(out))
}

/// A processor's number, and its frames.
#[tactic(auto, unfolding(crate::specs::Processors::processor_frames))]
fn push_frames<P: Peek>(out: &mut Vec<u8>, view: &View<P>, number: u8) -> Result<(), OutOfMemory>
    requires { number < length view.now.harts }
    ensures { OnOk result (out.new.items ≡ out.old.items ++ processor_frames view.now number) }
{
    push_bytes(out, b"cpu ")?;
    push_dec(out, u64::from(number))?;
    push_newline(out)?;
    let context = &view.ctxs[usize::from(number)];
    show_frames(view.mem, view.names, context, out)?;
    Ok(())
}

/// The frames of each processor in the session, all of which are below this number.
#[tactic(auto, using(crate::proofs::Gathered::gathered_there))]
fn all_frames<P: Peek>(
    alloc: Global,
    view: &View<P>,
    gathered: u64,
    harts: u8,
) -> Result<Text, OutOfMemory>
    requires few { harts ≤ 64 }
    requires gathered { gathered < 2 ^ length view.now.harts }
    ensures { IfOk result (λ text. text ≡ frames_below gathered view.now harts) }
{
    let mut out = Vec::new(alloc);
    for number in 0..harts {
        if has_bit(gathered, number) {
            push_frames(&mut out, view, number)?;
        }
    }
    Ok(Text::from_vec(out))
}

/// `btc`: the frames of each processor in the session.
#[tactic(auto, using(crate::proofs::Gathered::all_frames_there), unfolding(crate::specs::Processors::btc_text))]
pub fn btc<P: Peek>(alloc: Global, view: &View<P>, gathered: u64) -> Result<Text, OutOfMemory>
    requires { gathered < 2 ^ length view.now.harts }
    ensures { IfOk result (λ text. text ≡ btc_text gathered view.now) }
{
    all_frames(alloc, view, gathered, processor_count(gathered, view.ctxs))
}

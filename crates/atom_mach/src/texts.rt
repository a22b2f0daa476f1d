//! Banners, prompts and the last line of a transcript. A `put_` function writes into room that is there and can't fail; a
//! `push_` function makes room first, and a refusal leaves `out` as it was.
ghost use Rattle.std.specs.Prelude.{◌≡◌, ◌+◌, ◌<◌, ◌≤◌, ◌++◌, ◌&&◌, [], not, unwrap_or, codes, OnOk, OnErr, if◌then◌else◌, length, vec_len, vec_capacity};
ghost use Rattle.mach_base.specs.Texts.{newline, address_text};
ghost use Rattle.mach_base.specs.Masks.{has_bit};
ghost use Rattle.mach_base.specs.declared.limits.TheConstants.{MASK_HARTS};
ghost use Rattle.mach_base.specs.Number.{dec_text};
ghost use Rattle.mach_base.specs.declared.event.Reason.TheVariants.{Breakpoint, Fault as FaultReason};
ghost use Rattle.kdb_env.specs.Variables.{value_of};
ghost use Rattle.atom_mach.specs.Texts.{cause_text, reason_text, number_text, numbers_text, harts_in, late_text, entering_text, banner_text, begins_with_d, with_number, prompt_template, prompt_by, ending_text, ending_line};

use kdb_env::Env;
use mach_base::{
    Cause, Ending, Fault, Hart, MASK_HARTS, OutOfMemory, Reason, has_bit, put_address, put_bytes,
    put_dec,
};

/// The bytes of a banner, at most, for up to 32 harts.
pub const BANNER_BYTES: usize = 240;

/// The bytes that the current processor adds to the template of a prompt, at most.
const NUMBER_BYTES: usize = 20;

/// The bytes of the last line of a transcript, at most.
const ENDING_BYTES: usize = 64;

#[tactic(auto, unfolding(crate::specs::Texts::cause_text))]
fn put_cause(out: &mut Vec<u8>, cause: Cause)
    requires room { vec_len out.old + 11 ≤ vec_capacity out.old }
    ensures text { out.new.items ≡ out.old.items ++ cause_text cause }
    ensures capacity { vec_capacity out.new ≡ vec_capacity out.old }
    ensures most { vec_len out.new ≤ vec_len out.old + 11 }
{
    match cause {
        Cause::Unmapped => put_bytes(out, b"unmapped"),
        Cause::NoRight => put_bytes(out, b"no right"),
        Cause::Misaligned => put_bytes(out, b"misaligned"),
        Cause::Illegal => put_bytes(out, b"illegal"),
        Cause::BadService => put_bytes(out, b"bad service"),
    }
}

/// The number in decimal, of which a byte has three digits at most.
fn put_number(out: &mut Vec<u8>, number: u8)
    requires room { vec_len out.old + 20 ≤ vec_capacity out.old }
    ensures text { out.new.items ≡ out.old.items ++ dec_text number }
    ensures capacity { vec_capacity out.new ≡ vec_capacity out.old }
    ensures most { vec_len out.new ≤ vec_len out.old + 3 }
{
    put_dec(out, u64::from(number));
}

/// An address, of 18 bytes.
fn put_place(out: &mut Vec<u8>, addr: u64)
    requires room { vec_len out.old + 18 ≤ vec_capacity out.old }
    ensures text { out.new.items ≡ out.old.items ++ address_text addr }
    ensures capacity { vec_capacity out.new ≡ vec_capacity out.old }
    ensures most { vec_len out.new ≤ vec_len out.old + 18 }
{
    put_address(out, addr);
}

/// The number of a hart in decimal, two digits at most.
fn put_hart(out: &mut Vec<u8>, number: u8)
    requires number { number < MASK_HARTS }
    requires room { vec_len out.old + 20 ≤ vec_capacity out.old }
    ensures text { out.new.items ≡ out.old.items ++ dec_text number }
    ensures capacity { vec_capacity out.new ≡ vec_capacity out.old }
    ensures most { vec_len out.new ≤ vec_len out.old + 2 }
{
    put_dec(out, u64::from(number));
}

#[tactic(auto, unfolding(crate::specs::Texts::reason_text))]
fn put_fault(out: &mut Vec<u8>, fault: Fault)
    requires room { vec_len out.old + 36 ≤ vec_capacity out.old }
    ensures text { out.new.items ≡ out.old.items ++ reason_text (FaultReason fault) }
    ensures capacity { vec_capacity out.new ≡ vec_capacity out.old }
    ensures most { vec_len out.new ≤ vec_len out.old + 36 }
{
    put_bytes(out, b"Fault ");
    put_cause(out, fault.cause);
    put_bytes(out, b" ");
    put_place(out, fault.addr);
}

#[tactic(auto, unfolding(crate::specs::Texts::reason_text))]
fn put_breakpoint(out: &mut Vec<u8>, place: u8)
    requires room { vec_len out.old + 36 ≤ vec_capacity out.old }
    ensures text { out.new.items ≡ out.old.items ++ reason_text (Breakpoint place) }
    ensures capacity { vec_capacity out.new ≡ vec_capacity out.old }
    ensures most { vec_len out.new ≤ vec_len out.old + 36 }
{
    put_bytes(out, b"Breakpoint ");
    put_number(out, place);
}

#[tactic(auto, unfolding(crate::specs::Texts::reason_text))]
fn put_reason(out: &mut Vec<u8>, reason: Reason)
    requires room { vec_len out.old + 36 ≤ vec_capacity out.old }
    ensures text { out.new.items ≡ out.old.items ++ reason_text reason }
    ensures capacity { vec_capacity out.new ≡ vec_capacity out.old }
    ensures most { vec_len out.new ≤ vec_len out.old + 36 }
{
    match reason {
        Reason::Start => put_bytes(out, b"Start"),
        Reason::Breakpoint(place) => put_breakpoint(out, place),
        Reason::Compiled => put_bytes(out, b"Compiled breakpoint"),
        Reason::Step => put_bytes(out, b"Step"),
        Reason::Fault(fault) => put_fault(out, fault),
    }
}

/// Appends the number of a hart, with a blank before it where it isn't the first.
fn put_next_number(out: &mut Vec<u8>, first: bool, number: u8)
    requires number { number < MASK_HARTS }
    requires room { vec_len out.old + 21 ≤ vec_capacity out.old }
    ensures text { out.new.items ≡ out.old.items ++ number_text first number }
    ensures capacity { vec_capacity out.new ≡ vec_capacity out.old }
    ensures most { vec_len out.new ≤ vec_len out.old + 3 }
{
    if !first {
        put_bytes(out, b" ");
    }
    put_hart(out, number);
}

/// Appends a number where the mask has it; the answer is whether the next one is still the first.
fn put_if_in(out: &mut Vec<u8>, first: bool, mask: u64, number: u8) -> bool
    requires number { number < MASK_HARTS }
    requires room { vec_len out.old + 21 ≤ vec_capacity out.old }
    ensures text { out.new.items ≡ out.old.items ++ (if has_bit mask number then number_text first number else []) }
    ensures first { result ≡ (first && not (has_bit mask number)) }
    ensures capacity { vec_capacity out.new ≡ vec_capacity out.old }
    ensures most { vec_len out.new ≤ vec_len out.old + 3 }
{
    if has_bit(mask, number) {
        put_next_number(out, first, number);
        return false;
    }
    first
}

/// Appends the numbers of a mask's harts, joined by one blank.
fn put_numbers(out: &mut Vec<u8>, mask: u64)
    requires room { vec_len out.old + 117 ≤ vec_capacity out.old }
    ensures text { out.new.items ≡ out.old.items ++ numbers_text (harts_in mask) }
    ensures capacity { vec_capacity out.new ≡ vec_capacity out.old }
    ensures most { vec_len out.new ≤ vec_len out.old + 96 }
{
    let mut first = true;
    for number in 0..MASK_HARTS {
        first = put_if_in(out, first, mask, number);
    }
}

/// Appends the line that names the late harts, where there are any.
#[tactic(auto, unfolding(crate::specs::Texts::late_text))]
fn put_late(out: &mut Vec<u8>, late: u64)
    requires room { vec_len out.old + 160 ≤ vec_capacity out.old }
    ensures text { out.new.items ≡ out.old.items ++ late_text late }
    ensures capacity { vec_capacity out.new ≡ vec_capacity out.old }
    ensures most { vec_len out.new ≤ vec_len out.old + 135 }
{
    if late != 0 {
        put_bytes(out, b"Timed out waiting for secondary CPUs: ");
        put_numbers(out, late);
        put_bytes(out, b"\n");
    }
}

/// Appends the line that says who entered, why and at which pc.
#[tactic(auto, unfolding(crate::specs::Texts::entering_text))]
fn put_entering(out: &mut Vec<u8>, hart: Hart, reason: Reason, pc: u64)
    requires room { vec_len out.old + 100 ≤ vec_capacity out.old }
    ensures text { out.new.items ≡ out.old.items ++ entering_text hart.0 reason pc }
    ensures capacity { vec_capacity out.new ≡ vec_capacity out.old }
{
    put_bytes(out, b"Entering kdb on processor ");
    put_number(out, hart.0);
    put_bytes(out, b" due to ");
    put_reason(out, reason);
    put_bytes(out, b" @ ");
    put_place(out, pc);
    put_bytes(out, b"\n");
}

/// Appends the banner of a session, into room that is there: who is late, a mask, then who entered, why and at which pc.
#[tactic(auto, unfolding(crate::specs::Texts::banner_text))]
pub fn put_banner(out: &mut Vec<u8>, late: u64, hart: Hart, reason: Reason, pc: u64)
    requires room { vec_len out.old + BANNER_BYTES ≤ vec_capacity out.old }
    ensures text { out.new.items ≡ out.old.items ++ banner_text late hart.0 reason pc }
    ensures capacity { vec_capacity out.new ≡ vec_capacity out.old }
{
    put_late(out, late);
    put_entering(out, hart, reason, pc);
}

/// Appends the banner of a session.
pub fn push_banner(
    out: &mut Vec<u8>,
    late: u64,
    hart: Hart,
    reason: Reason,
    pc: u64,
) -> Result<(), OutOfMemory>
    ensures ok { OnOk result (out.new.items ≡ out.old.items ++ banner_text late hart.0 reason pc) }
    ensures err { OnErr result (out.new.items ≡ out.old.items) }
{
    out.reserve(BANNER_BYTES)?;
    put_banner(out, late, hart, reason, pc);
    Ok(())
}

fn begins_with_d(bytes: &[u8]) -> bool
    ensures { result ≡ begins_with_d bytes.now }
{
    match bytes {
        [b'd', ..] => true,
        _ => false,
    }
}

/// Appends the template with its first `%d` replaced by the number.
fn put_with_number(out: &mut Vec<u8>, template: &[u8], number: u8)
    requires room { vec_len out.old + length template.now + NUMBER_BYTES ≤ vec_capacity out.old }
    ensures text { out.new.items ≡ out.old.items ++ with_number number template.now }
    ensures capacity { vec_capacity out.new ≡ vec_capacity out.old }
    ensures most { vec_len out.new ≤ vec_len out.old + length template.now + 3 }
{
    let mut left = template;
    while let Some((first, rest)) = left.split_first() {
        if *first == b'%' && begins_with_d(rest) {
            put_number(out, number);
            put_bytes(out, &rest[1..]);
            return;
        }
        out.push_reserved(*first);
        left = rest;
    }
}

/// The template of the prompt: the variable PROMPT, or nothing.
fn prompt_template(env: &Env) -> &[u8]
    ensures { result.now ≡ prompt_template env.now }
{
    match env.get(b"PROMPT") {
        Some(template) => template,
        None => b"",
    }
}

/// Appends the prompt into room that is there: the variable PROMPT with its first `%d` replaced by the current processor.
pub fn put_prompt(out: &mut Vec<u8>, env: &Env, current: u8)
    requires room { vec_len out.old + length (prompt_template env.now) + NUMBER_BYTES ≤ vec_capacity out.old }
    ensures text { out.new.items ≡ out.old.items ++ prompt_by env.now current }
    ensures capacity { vec_capacity out.new ≡ vec_capacity out.old }
    ensures most { vec_len out.new ≤ vec_len out.old + length (prompt_template env.now) + 3 }
{
    put_with_number(out, prompt_template(env), current);
}

/// Appends the prompt that finds no line, and the end of the line, into room that is there.
pub fn put_last_prompt(out: &mut Vec<u8>, env: &Env, current: u8)
    requires room { vec_len out.old + length (prompt_template env.now) + NUMBER_BYTES ≤ vec_capacity out.old }
    ensures text { out.new.items ≡ out.old.items ++ (prompt_by env.now current ++ newline) }
    ensures capacity { vec_capacity out.new ≡ vec_capacity out.old }
{
    put_prompt(out, env, current);
    put_bytes(out, b"\n");
}

/// Appends the prompt.
pub fn push_prompt(out: &mut Vec<u8>, env: &Env, current: u8) -> Result<(), OutOfMemory>
    ensures ok { OnOk result (out.new.items ≡ out.old.items ++ prompt_by env.now current) }
    ensures err { OnErr result (out.new.items ≡ out.old.items) }
{
    out.reserve(prompt_template(env).len() + NUMBER_BYTES)?;
    put_prompt(out, env, current);
    Ok(())
}

/// Appends the prompt that finds no line, and the end of the line.
pub fn push_last_prompt(out: &mut Vec<u8>, env: &Env, current: u8) -> Result<(), OutOfMemory>
    ensures ok { OnOk result (out.new.items ≡ out.old.items ++ (prompt_by env.now current ++ newline)) }
    ensures err { OnErr result (out.new.items ≡ out.old.items) }
{
    out.reserve(prompt_template(env).len() + NUMBER_BYTES)?;
    put_last_prompt(out, env, current);
    Ok(())
}

#[tactic(auto, unfolding(crate::specs::Texts::ending_text))]
fn put_ending(out: &mut Vec<u8>, ending: Ending)
    requires room { vec_len out.old + 11 ≤ vec_capacity out.old }
    ensures text { out.new.items ≡ out.old.items ++ ending_text ending }
    ensures capacity { vec_capacity out.new ≡ vec_capacity out.old }
    ensures most { vec_len out.new ≤ vec_len out.old + 11 }
{
    match ending {
        Ending::ScriptEnd => put_bytes(out, b"script end"),
        Ending::AllHalted => put_bytes(out, b"all halted"),
        Ending::StepLimit => put_bytes(out, b"step limit"),
        Ending::PlanEnd => put_bytes(out, b"plan end"),
    }
}

/// The number in decimal, 20 digits at most.
fn put_count(out: &mut Vec<u8>, number: u64)
    requires room { vec_len out.old + 20 ≤ vec_capacity out.old }
    ensures text { out.new.items ≡ out.old.items ++ dec_text number }
    ensures capacity { vec_capacity out.new ≡ vec_capacity out.old }
    ensures most { vec_len out.new ≤ vec_len out.old + 20 }
{
    put_dec(out, number);
}

#[tactic(auto, unfolding(crate::specs::Texts::ending_line))]
fn put_ending_line(out: &mut Vec<u8>, ending: Ending, steps: u64)
    requires room { vec_len out.old + ENDING_BYTES ≤ vec_capacity out.old }
    ensures { out.new.items ≡ out.old.items ++ ending_line ending steps }
{
    put_bytes(out, b"kdbsim: ");
    put_ending(out, ending);
    put_bytes(out, b" after ");
    put_count(out, steps);
    put_bytes(out, b" steps\n");
}

/// Appends the last line of a transcript: how the run ended, after how many steps. A refusal leaves `out` as it was.
pub fn push_ending_line(out: &mut Vec<u8>, ending: Ending, steps: u64) -> Result<(), OutOfMemory>
    ensures ok { OnOk result (out.new.items ≡ out.old.items ++ ending_line ending steps) }
    ensures err { OnErr result (out.new.items ≡ out.old.items) }
{
    out.reserve(ENDING_BYTES)?;
    put_ending_line(out, ending, steps);
    Ok(())
}

ghost use Rattle.std.specs.Prelude.{◌≡◌, ◌++◌, unwrap_or, OnOk, IfOk};
ghost use Rattle.mach_base.specs.declared.limits.TheConstants.{PLACES};
ghost use Rattle.kdb_table.specs.Refused.{Answers};
ghost use Rattle.kdb_view.specs.Breakpoints.{state_word, breakpoint_line, place_line, first_lines, lines_or_none, bl_text, fault_diagnostic, bp_answer, change_word, change_line, changed_at, line_of_change, changed_first, changed_lines, all_changed, one_changed, change_answer};

use crate::view::View;
use kdb_bp::{BpFault, Breaks, Place};
use kdb_table::{BreakpointChange, Diagnostic, Refusal};
use mach_base::{
    OutOfMemory, PLACES, Peek, Text, parse_number, push_bytes, push_dec, push_newline,
};
use std::alloc::Global;
use sym_map::{Symbols, push_place};

/// What a command about breakpoints prints, and the places that it leaves.
#[derive(Debug, Drop)]
pub struct BreakpointAnswer {
    pub text: Text,
    pub breaks: Breaks,
}

/// Appends the line of a place that is set.
#[tactic(auto, unfolding(crate::specs::Breakpoints::breakpoint_line))]
fn push_breakpoint(
    out: &mut Vec<u8>,
    names: &Symbols,
    number: u8,
    place: Place,
) -> Result<(), OutOfMemory>
    ensures { OnOk result (out.new.items ≡ out.old.items ++ breakpoint_line names.now number place) }
{
    push_bytes(out, b"BP #")?;
    push_dec(out, u64::from(number))?;
    push_bytes(out, b" at ")?;
    push_place(out, names, place.addr)?;
    push_bytes(out, state_word(place.enabled).as_bytes())?;
    push_newline(out)?;
    Ok(())
}

/// Whether a place is enabled, as it is printed.
fn state_word(enabled: bool) -> &'static str
    ensures { result.now ≡ state_word enabled }
{
    if enabled { " enabled" } else { " disabled" }
}

/// The line of a place that is set, and nothing for one that is empty.
fn push_if_set(
    out: &mut Vec<u8>,
    names: &Symbols,
    number: u8,
    place: Option<Place>,
) -> Result<(), OutOfMemory>
    ensures { OnOk result (out.new.items ≡ out.old.items ++ place_line names.now number place) }
{
    if let Some(place) = place {
        push_breakpoint(out, names, number, place)?;
    }
    Ok(())
}

/// Appends the lines of all places.
fn push_places(out: &mut Vec<u8>, names: &Symbols, breaks: Breaks) -> Result<(), OutOfMemory>
    ensures { OnOk result (out.new.items ≡ out.old.items ++ first_lines names.now breaks PLACES) }
{
    for number in 0..PLACES {
        push_if_set(out, names, number, breaks.at(number))?;
    }
    Ok(())
}

/// These lines; where there are none, the one that says so.
#[tactic(auto, unfolding(crate::specs::Breakpoints::lines_or_none))]
fn or_none_set(mut lines: Vec<u8>) -> Result<Text, OutOfMemory>
    ensures { IfOk result (λ text. text ≡ lines_or_none lines.items) }
{
    if lines.is_empty() {
        push_bytes(&mut lines, b"No breakpoints are set")?;
        push_newline(&mut lines)?;
    }
    Ok(Text::from_vec(lines))
}

/// `bp`, `bl`: the places that are set.
#[tactic(auto, unfolding(crate::specs::Breakpoints::bl_text))]
pub fn bl(alloc: Global, names: &Symbols, breaks: Breaks) -> Result<Text, OutOfMemory>
    ensures { IfOk result (λ text. text ≡ bl_text names.now breaks) }
{
    let mut out = Vec::new(alloc);
    push_places(&mut out, names, breaks)?;
    or_none_set(out)
}

/// The diagnostic of a breakpoint that isn't set at this address.
fn fault_diagnostic(fault: BpFault, addr: u64) -> Diagnostic
    ensures { result ≡ fault_diagnostic addr fault }
{
    match fault {
        BpFault::BadAddr => Diagnostic::BadAddress(addr),
        BpFault::NotText => Diagnostic::NotText(addr),
        BpFault::Duplicate => Diagnostic::Duplicate,
        BpFault::TooMany | BpFault::NotFound => Diagnostic::TooManyBreakpoints,
    }
}

/// `bp E`: a breakpoint more, at this address.
#[tactic(auto, unfolding(crate::specs::Breakpoints::bp_answer))]
pub fn bp<P: Peek>(alloc: Global, view: &View<P>, addr: u64) -> Result<BreakpointAnswer, Refusal>
    ensures { Answers result (bp_answer view.now addr) }
{
    let mut breaks = view.kdb.breaks;
    match breaks.add(view.mem, addr) {
        Ok(number) => {
            let mut out = Vec::new(alloc);
            let place = Place {
                addr,
                enabled: true,
            };
            push_breakpoint(&mut out, view.names, number, place)?;
            Ok(BreakpointAnswer {
                text: Text::from_vec(out),
                breaks,
            })
        }
        Err(fault) => Err(Refusal::Diagnosed(fault_diagnostic(fault, addr))),
    }
}

/// What was done to a place, as it is printed.
fn change_word(change: BreakpointChange) -> &'static str
    ensures { result.now ≡ change_word change }
{
    match change {
        BreakpointChange::Clear => " cleared",
        BreakpointChange::Disable => " disabled",
        BreakpointChange::Enable => " enabled",
    }
}

/// Appends the line that says how the place of a number was changed.
#[tactic(auto, unfolding(crate::specs::Breakpoints::change_line))]
fn push_change(out: &mut Vec<u8>, change: BreakpointChange, number: u8) -> Result<(), OutOfMemory>
    ensures { OnOk result (out.new.items ≡ out.old.items ++ change_line change number) }
{
    push_bytes(out, b"BP #")?;
    push_dec(out, u64::from(number))?;
    push_bytes(out, change_word(change).as_bytes())?;
    push_newline(out)?;
    Ok(())
}

/// The places once the one of a number is changed; None exactly where it is empty.
#[tactic(auto, using(crate::proofs::Places::is_none_not))]
fn changed_at(mut breaks: Breaks, change: BreakpointChange, number: u8) -> Option<Breaks>
    ensures { result ≡ changed_at change breaks number }
{
    let done = match change {
        BreakpointChange::Clear => breaks.clear(number),
        BreakpointChange::Disable => breaks.enable(number, false),
        BreakpointChange::Enable => breaks.enable(number, true),
    };
    match done {
        Ok(()) => Some(breaks),
        Err(_) => None,
    }
}

/// Changes the place of a number and appends its line, if it is set.
fn change_if_set(
    out: &mut Vec<u8>,
    breaks: &mut Breaks,
    change: BreakpointChange,
    number: u8,
) -> Result<(), OutOfMemory>
    ensures text { OnOk result (out.new.items ≡ out.old.items ++ line_of_change change number (changed_at change breaks.old number)) }
    ensures places { OnOk result (breaks.new ≡ unwrap_or (changed_at change breaks.old number) breaks.old) }
{
    if let Some(changed) = changed_at(*breaks, change, number) {
        push_change(out, change, number)?;
        *breaks = changed;
    }
    Ok(())
}

/// Changes each place that is set.
fn all_changed(
    alloc: Global,
    breaks: Breaks,
    change: BreakpointChange,
) -> Result<BreakpointAnswer, OutOfMemory>
    ensures { IfOk result (λ answer. answer ≡ all_changed breaks change) }
{
    let mut out = Vec::new(alloc);
    let mut changed = breaks;
    for number in 0..PLACES {
        change_if_set(&mut out, &mut changed, change, number)?;
    }
    let text = or_none_set(out)?;
    Ok(BreakpointAnswer {
        text,
        breaks: changed,
    })
}

/// Changes the place of a number.
fn one_changed(
    alloc: Global,
    breaks: Breaks,
    change: BreakpointChange,
    number: u64,
) -> Result<BreakpointAnswer, Refusal>
    ensures { Answers result (one_changed breaks change number) }
{
    if number >= u64::from(PLACES) {
        return Err(Refusal::Diagnosed(Diagnostic::NoBreakpoint(number)));
    }
    match changed_at(breaks, change, number as u8) {
        Some(changed) => {
            let mut out = Vec::new(alloc);
            push_change(&mut out, change, number as u8)?;
            Ok(BreakpointAnswer {
                text: Text::from_vec(out),
                breaks: changed,
            })
        }
        None => Err(Refusal::Diagnosed(Diagnostic::NoBreakpoint(number))),
    }
}

/// `bc N`, `bd N`, `be N`: the places that a word names, `*` or a number, are changed.
#[tactic(auto, unfolding(crate::specs::Breakpoints::change_answer))]
pub fn change_answer(
    alloc: Global,
    breaks: Breaks,
    change: BreakpointChange,
    word: &[u8],
) -> Result<BreakpointAnswer, Refusal>
    ensures { Answers result (change_answer breaks change word.now) }
{
    if word == b"*".as_slice() {
        let answer = all_changed(alloc, breaks, change)?;
        return Ok(answer);
    }
    match parse_number(word, 10) {
        Ok(number) => one_changed(alloc, breaks, change, number),
        Err(_) => Err(Refusal::Diagnosed(Diagnostic::BadNumber(1))),
    }
}

//! The spelling of first lines and of entries.

ghost use Rattle.std.specs.Prelude.{◌≡◌, [], ◌∷◌, ◌++◌, OnOk, if◌then◌else◌};
ghost use Rattle.mach_base.specs.Texts.{newline};
ghost use Rattle.mach_base.specs.Number.{dec_text};
ghost use Rattle.jrn_text.specs.Entries.{numbers_in, list_text, late_text, short_address, ending_word, lettered, entry_text, entry_line};
ghost use Rattle.jrn_text.specs.Journal.{header_text};

use mach_base::{
    Ending, Entry, Hart, MOST_HARTS, OutOfMemory, has_bit, push_bytes, push_dec, push_newline,
};

/// Appends the first line.
#[tactic(auto, unfolding(crate::specs::Journal::header_text))]
pub fn push_header(out: &mut Vec<u8>, harts: u8, limit: u64) -> Result<(), OutOfMemory>
    ensures { OnOk result (out.new.items ≡ out.old.items ++ header_text harts limit) }
{
    push_bytes(out, b"kjrn 1 harts ")?;
    push_dec(out, u64::from(harts))?;
    push_bytes(out, b" steps ")?;
    push_dec(out, limit)?;
    push_newline(out)?;
    Ok(())
}

/// Appends an entry's line.
pub fn push_entry(out: &mut Vec<u8>, entry: Entry) -> Result<(), OutOfMemory>
    ensures { OnOk result (out.new.items ≡ out.old.items ++ entry_line entry) }
{
    push_entry_text(out, entry)?;
    push_newline(out)?;
    Ok(())
}

/// Appends an entry's line without its line feed.
#[tactic(auto, unfolding(crate::specs::Entries::entry_text))]
fn push_entry_text(out: &mut Vec<u8>, entry: Entry) -> Result<(), OutOfMemory>
    ensures { OnOk result (out.new.items ≡ out.old.items ++ entry_text entry) }
{
    match entry {
        Entry::Step(Hart(h)) => push_number(out, b'S', h),
        Entry::Intr(Hart(h)) => push_number(out, b'I', h),
        Entry::Send(Hart(h)) => push_number(out, b'C', h),
        Entry::Take(Hart(h)) => push_number(out, b'T', h),
        Entry::Open(Hart(h), late) => push_opening(out, h, late),
        Entry::Pull(place) => push_number(out, b'U', place),
        Entry::Line(Hart(h)) => push_number(out, b'L', h),
        Entry::Plant(place) => push_number(out, b'P', place),
        Entry::PlantStep(addr) => push_planted(out, addr),
        Entry::PullStep => push_bytes(out, b"B"),
        Entry::Close(Hart(h)) => push_number(out, b'E', h),
        Entry::Off(ending) => push_ending(out, ending),
    }
}

/// Appends a letter, a blank and a number.
fn push_number(out: &mut Vec<u8>, letter: u8, number: u8) -> Result<(), OutOfMemory>
    ensures { OnOk result (out.new.items ≡ out.old.items ++ lettered letter (dec_text number)) }
{
    push_bytes(out, &[letter, b' '])?;
    push_dec(out, u64::from(number))?;
    Ok(())
}

/// Appends the opening of a session.
fn push_opening(out: &mut Vec<u8>, hart: u8, late: u64) -> Result<(), OutOfMemory>
    ensures { OnOk result (out.new.items ≡ out.old.items ++ lettered 79 (dec_text hart ++ (32 ∷ late_text late))) }
{
    push_number(out, b'O', hart)?;
    push_bytes(out, b" ")?;
    push_late(out, late)?;
    Ok(())
}

/// Appends a mask of late harts.
#[tactic(auto, unfolding(crate::specs::Entries::late_text))]
fn push_late(out: &mut Vec<u8>, late: u64) -> Result<(), OutOfMemory>
    ensures { OnOk result (out.new.items ≡ out.old.items ++ late_text late) }
{
    if late == 0 {
        push_bytes(out, b"-")?;
        return Ok(());
    }
    push_harts(out, late)?;
    Ok(())
}

/// Appends the harts of a mask, joined by commas.
fn push_harts(out: &mut Vec<u8>, mask: u64) -> Result<(), OutOfMemory>
    ensures { OnOk result (out.new.items ≡ out.old.items ++ list_text (numbers_in MOST_HARTS mask)) }
{
    let mut first = true;
    for hart in 0..MOST_HARTS {
        if has_bit(mask, hart) {
            push_next(out, first, hart)?;
            first = false;
        }
    }
    Ok(())
}

/// Appends a number, after a comma unless it is the first.
fn push_next(out: &mut Vec<u8>, first: bool, number: u8) -> Result<(), OutOfMemory>
    ensures { OnOk result (out.new.items ≡ (if first then out.old.items else out.old.items ++ 44 ∷ []) ++ dec_text number) }
{
    if !first {
        push_bytes(out, b",")?;
    }
    push_dec(out, u64::from(number))?;
    Ok(())
}

/// Appends a planted step word: its address in hexadecimal digits without leading zeros.
#[tactic(auto, unfolding(crate::specs::Entries::short_address))]
fn push_planted(out: &mut Vec<u8>, addr: u64) -> Result<(), OutOfMemory>
    ensures { OnOk result (out.new.items ≡ out.old.items ++ lettered 65 (short_address addr)) }
{
    push_bytes(out, b"A 0x")?;
    let digits = format!(in *out.allocator(); "{addr:x}")?;
    push_bytes(out, digits.as_bytes())?;
    Ok(())
}

/// Appends an ending.
fn push_ending(out: &mut Vec<u8>, ending: Ending) -> Result<(), OutOfMemory>
    ensures { OnOk result (out.new.items ≡ out.old.items ++ lettered 70 (ending_word ending)) }
{
    push_bytes(out, b"F ")?;
    match ending {
        Ending::ScriptEnd => push_bytes(out, b"script")?,
        Ending::AllHalted => push_bytes(out, b"halted")?,
        Ending::StepLimit => push_bytes(out, b"limit")?,
        Ending::PlanEnd => {}
    }
    Ok(())
}

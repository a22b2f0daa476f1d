ghost use Rattle.std.specs.Prelude.{◌≡◌, ◌++◌, [], IfOk, OnOk, codes};
ghost use Rattle.mach_base.specs.Number.{dec_text};
ghost use Rattle.kdbsim_files.specs.Report.{file_name, why_name, elf_why_name, what_name, words_of_status, line_of, code_of};

use crate::status::{File, Status};
use elf_img::ElfWhy;
use img_text::Why;
use mach_base::{OutOfMemory, Text, What, push_dec};
use std::alloc::Global;

/// The number with which the program ends.
pub fn status_code(status: &Status) -> u8
    ensures { result ≡ code_of status.now }
{
    match status {
        Status::Done(_) | Status::Made => 0,
        Status::Usage => 2,
        Status::ReadFault(_) => 3,
        Status::BadImage { .. } => 4,
        Status::BadMap { .. } => 5,
        Status::BadScript { .. } => 6,
        Status::BadPlan { .. } => 7,
        Status::BadJournal { .. } => 8,
        Status::TooLarge { .. } => 9,
        Status::BadStep { .. } => 10,
        Status::WriteFault => 11,
        Status::OutOfMemory => 12,
        Status::BadSource { .. } => 14,
        Status::BadElf { .. } => 15,
    }
}

/// The line that the program prints for a status other than Done, without its end; empty for Done and Made.
pub fn status_line(alloc: Global, status: &Status) -> Result<Text, OutOfMemory>
    ensures { IfOk result (λ line. line ≡ line_of status.now) }
{
    let mut out = Vec::new(alloc);
    push_line(&mut out, *status)?;
    Ok(Text::from_vec(out))
}

fn push(out: &mut Vec<u8>, text: &str) -> Result<(), OutOfMemory>
    ensures { OnOk result (out.new.items ≡ out.old.items ++ text.now) }
{
    out.extend_from_slice(text.as_bytes())?;
    Ok(())
}

#[tactic(auto, unfolding(crate::specs::Report::line_of))]
fn push_line(out: &mut Vec<u8>, status: Status) -> Result<(), OutOfMemory>
    requires { out.old.items ≡ [] }
    ensures { OnOk result (out.new.items ≡ line_of status) }
{
    if matches!(status, Status::Done(_) | Status::Made) {
        return Ok(());
    }
    push(out, "kdbsim: ")?;
    push_words(out, status)?;
    Ok(())
}

#[tactic(auto, unfolding(crate::specs::Report::words_of_status))]
fn push_words(out: &mut Vec<u8>, status: Status) -> Result<(), OutOfMemory>
    ensures { OnOk result (out.new.items ≡ out.old.items ++ words_of_status status) }
{
    match status {
        Status::Done(_) | Status::Made => Ok(()),
        Status::Usage => push(out, "usage"),
        Status::ReadFault(file) => push_two(out, "cannot read ", file_name(file)),
        Status::BadImage { line, why } => push_numbered(
            out,
            "bad image, line ",
            line,
            why_name(why),
        ),
        Status::BadMap { line } => push_number(out, "bad map, line ", line),
        Status::BadScript { line } => push_number(out, "bad script, line ", line),
        Status::BadPlan { line } => push_number(out, "bad plan, line ", line),
        Status::BadJournal { line } => push_number(out, "bad journal, line ", line),
        Status::BadSource { line } => push_number(out, "bad source, line ", line),
        Status::BadElf { why } => push_two(out, "bad elf, ", elf_why_name(why)),
        Status::TooLarge { what, size } => push_sized(out, what_name(what), size),
        Status::BadStep { index } => push_number(out, "bad step ", index),
        Status::WriteFault => push(out, "cannot write"),
        Status::OutOfMemory => push(out, "out of memory"),
    }
}

fn push_two(out: &mut Vec<u8>, first: &str, second: &str) -> Result<(), OutOfMemory>
    ensures { OnOk result (out.new.items ≡ out.old.items ++ (first.now ++ second.now)) }
{
    push(out, first)?;
    push(out, second)?;
    Ok(())
}

fn push_number(out: &mut Vec<u8>, text: &str, number: u64) -> Result<(), OutOfMemory>
    ensures { OnOk result (out.new.items ≡ out.old.items ++ (text.now ++ dec_text number)) }
{
    push(out, text)?;
    push_dec(out, number)?;
    Ok(())
}

fn push_numbered(
    out: &mut Vec<u8>,
    text: &str,
    number: u64,
    reason: &str,
) -> Result<(), OutOfMemory>
    ensures { OnOk result (out.new.items ≡ out.old.items ++ (text.now ++ (dec_text number ++ (codes ": " ++ reason.now)))) }
{
    push(out, text)?;
    push_dec(out, number)?;
    push(out, ": ")?;
    push(out, reason)?;
    Ok(())
}

fn push_sized(out: &mut Vec<u8>, what: &str, size: u64) -> Result<(), OutOfMemory>
    ensures { OnOk result (out.new.items ≡ out.old.items ++ (codes "too large: " ++ (what.now ++ (codes " " ++ dec_text size)))) }
{
    push(out, "too large: ")?;
    push(out, what)?;
    push(out, " ")?;
    push_dec(out, size)?;
    Ok(())
}

fn file_name(file: File) -> &'static str
    ensures { result.now ≡ file_name file }
{
    match file {
        File::Image => "image",
        File::Map => "map",
        File::Script => "script",
        File::Plan => "plan",
        File::Journal => "journal",
        File::Source => "source",
        File::Elf => "elf",
    }
}

fn why_name(why: Why) -> &'static str
    ensures { result.now ≡ why_name why }
{
    match why {
        Why::Header => "header",
        Why::Word => "word",
        Why::Number => "number",
        Why::Bounds => "bounds",
        Why::Order => "order",
        Why::Overrun => "overrun",
        Why::Hart => "hart",
        Why::NoText => "notext",
    }
}

fn elf_why_name(why: ElfWhy) -> &'static str
    ensures { result.now ≡ elf_why_name why }
{
    match why {
        ElfWhy::Short => "short",
        ElfWhy::Magic => "magic",
        ElfWhy::FileType => "filetype",
        ElfWhy::Machine => "machine",
        ElfWhy::Compressed => "compressed",
        ElfWhy::HeaderSize => "headersize",
        ElfWhy::Dynamic => "dynamic",
        ElfWhy::Bounds => "bounds",
        ElfWhy::WriteExec => "writeexec",
        ElfWhy::Order => "order",
        ElfWhy::NoText => "notext",
    }
}

fn what_name(what: What) -> &'static str
    ensures { result.now ≡ what_name what }
{
    match what {
        What::ImageBytes => "imagebytes",
        What::Segments => "segments",
        What::Memory => "memory",
        What::MapBytes => "mapbytes",
        What::Symbols => "symbols",
        What::ScriptBytes => "scriptbytes",
        What::Lines => "lines",
        What::PlanBytes => "planbytes",
        What::Ticks => "ticks",
        What::JournalBytes => "journalbytes",
        What::Entries => "entries",
        What::SourceBytes => "sourcebytes",
        What::ElfBytes => "elfbytes",
        What::FileBytes => "filebytes",
    }
}

//! What is told of a run, and its line.
ghost use Rattle.std.specs.Prelude.{◌≡◌, ◌++◌, IfOk, OnOk, OnErr, []};
ghost use Rattle.atom_mach.specs.Texts.{ending_text};
ghost use Rattle.kdbsim_load.specs.Counts.{counted, load_line};

use mach_base::{Ending, OutOfMemory, push_bytes, push_dec};

/// The rounds of looks after which a gathering ends.
pub const ROUNDS: u32 = 1_000;

/// What is told of a run: how it ended, and how many steps it made, how many sessions it opened, how many entries its
/// journal has, and how many harts were late, summed over the sessions.
#[derive(Clone, Copy, Debug, PartialEq, Eq)]
pub struct LoadTold {
    pub ending: Ending,
    pub steps: u64,
    pub sessions: u64,
    pub entries: u64,
    pub late: u64,
}

/// Appends the line of the command with this number. A refusal leaves `out` as it was.
pub fn push_load_line(out: &mut Vec<u8>, number: u32, told: LoadTold) -> Result<(), OutOfMemory>
    ensures ok { OnOk result (out.new.items ≡ out.old.items ++ load_line number told) }
    ensures err { OnErr result (out.new.items ≡ out.old.items) }
{
    let mut line = Vec::new(*out.allocator());
    put_line(&mut line, number, told)?;
    push_bytes(out, line.as_slice())?;
    Ok(())
}

/// Writes the line of the command into an empty list.
#[tactic(auto, unfolding(crate::specs::Counts::load_line))]
fn put_line(line: &mut Vec<u8>, number: u32, told: LoadTold) -> Result<(), OutOfMemory>
    requires { line.old.items ≡ [] }
    ensures { IfOk result (λ _. line.new.items ≡ load_line number told) }
{
    push_bytes(line, b"load ")?;
    push_counted(line, u64::from(number), b": ")?;
    push_bytes(line, ending_text(told.ending))?;
    push_bytes(line, b" after ")?;
    push_counted(line, told.steps, b" steps, ")?;
    push_counted(line, told.sessions, b" sessions, ")?;
    push_counted(line, told.entries, b" entries, ")?;
    push_counted(line, told.late, b" late\n")?;
    Ok(())
}

/// Appends a number and what is counted.
fn push_counted(out: &mut Vec<u8>, number: u64, what: &[u8]) -> Result<(), OutOfMemory>
    ensures { IfOk result (λ _. out.new.items ≡ out.old.items ++ counted number what.now) }
{
    push_dec(out, number)?;
    push_bytes(out, what)?;
    Ok(())
}

/// How a run ends, in words.
#[tactic(auto, unfolding(atom_mach::specs::Texts::ending_text))]
fn ending_text(ending: Ending) -> &'static [u8]
    ensures { result.now ≡ ending_text ending }
{
    match ending {
        Ending::ScriptEnd => b"script end",
        Ending::AllHalted => b"all halted",
        Ending::StepLimit => b"step limit",
        Ending::PlanEnd => b"plan end",
    }
}

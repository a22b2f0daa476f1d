ghost use Rattle.std.specs.Prelude.{◌≡◌, IfOk};
ghost use Rattle.hart_ctx.specs.RegisterName.{IsRegister};
ghost use Rattle.kdb_reg.specs.Registers.{registers_text};
ghost use Rattle.kdb_cmd.specs.Desk.{IsReady, IsSameDesk, Changes};
ghost use Rattle.kdb_view.specs.State.{current_context};
ghost use Rattle.kdb_cmd.specs.command.Registers.{register_argument, rm_wanted, rm_answer};

use crate::Said;
use crate::desk::Desk;
use crate::outcomes::stay;
use hart_ctx::{RegName, reg_of};
use kdb_reg::{RegFault, set_reg, show_regs};
use kdb_table::{Diagnostic, Refusal, word_at};
use kdb_view::{View, argument};
use mach_base::{OutOfMemory, Peek, Text};
use std::alloc::Global;

/// `rd`: the registers of the current processor.
pub fn rd<P: Peek>(alloc: Global, view: &View<P>) -> Result<Text, OutOfMemory>
    ensures { IfOk result (λ text. text ≡ registers_text (current_context view.now)) }
{
    let mut out = Vec::new(alloc);
    show_regs(view.context(), &mut out)?;
    Ok(Text::from_vec(out))
}

/// A register, and the value that it is to have.
#[derive(Clone, Copy, Debug, PartialEq, Eq)]
pub struct RegisterWrite {
    pub reg: RegName,
    pub value: u64,
}

/// The register that the word at a place of the line names.
#[tactic(auto, unfolding(crate::specs::command::Registers::register_argument))]
fn register_argument(words: &[Text], place: usize) -> Result<RegName, Diagnostic>
    ensures value { result ≡ register_argument words.now place }
    ensures register { IfOk result IsRegister }
{
    match reg_of(word_at(words, place)) {
        Ok(reg) => Ok(reg),
        Err(_) => Err(Diagnostic::BadRegister(place)),
    }
}

/// The register that `rm` names, and its value.
#[tactic(auto, unfolding(crate::specs::command::Registers::rm_wanted))]
fn rm_wanted<P: Peek>(view: &View<P>, words: &[Text]) -> Result<RegisterWrite, Diagnostic>
    ensures value { result ≡ rm_wanted view.now words.now }
    ensures register { IfOk result (λ w. IsRegister w.reg) }
{
    let reg = register_argument(words, 1)?;
    let value = argument(view, words, 2)?;
    Ok(RegisterWrite { reg, value })
}

/// `rm REG E`.
#[tactic(auto, unfolding(crate::specs::command::Registers::rm_answer))]
pub fn rm<P: Peek>(desk: &mut Desk<P>, words: &[Text]) -> Result<Said, Refusal>
    requires { IsReady P.memory desk.old }
    ensures answer { Changes P.memory result desk.old desk.new (λ _. rm_answer words.now) }
    ensures same { IsSameDesk P.rest desk.old desk.new }
    ensures kdb { desk.new.kdb.now ≡ desk.old.kdb.now }
{
    let view = desk.view();
    let wanted = rm_wanted(&view, words)?;
    let mut context = *view.context();
    let mut out = Vec::new(desk.alloc);
    match set_reg(&mut context, &mut out, wanted.reg, wanted.value) {
        Ok(()) => {
            desk.ctxs[usize::from(desk.kdb.current)] = context;
            Ok(stay(Text::from_vec(out)))
        }
        Err(RegFault::ReadOnly) => Err(Refusal::Diagnosed(Diagnostic::BadRegister(1))),
        Err(RegFault::OutOfMemory) => Err(Refusal::OutOfMemory),
    }
}

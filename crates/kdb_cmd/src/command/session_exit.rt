ghost use Rattle.std.specs.Prelude.{◌≡◌};
ghost use Rattle.kdb_cmd.specs.Desk.{IsReady, IsSameDesk, Changes};
ghost use Rattle.kdb_cmd.specs.command.SessionExit.{go_answer, ss_refusal};

use crate::desk::Desk;
use crate::outcomes::silent;
use crate::{Outcome, Said};
use kdb_table::{Diagnostic, Refusal};
use kdb_view::View;
use mach_base::{Hart, Peek};

/// `go [E]`.
#[tactic(auto, using(crate::proofs::Gathered::gathered_there), unfolding(crate::specs::command::SessionExit::go_answer))]
pub fn go<P: Peek>(desk: &mut Desk<P>, pc: Option<u64>) -> Result<Said, Refusal>
    requires { IsReady P.memory desk.old }
    ensures answer { Changes P.memory result desk.old desk.new (λ g. go_answer pc g.entry) }
    ensures same { IsSameDesk P.rest desk.old desk.new }
    ensures kdb { desk.new.kdb.now ≡ desk.old.kdb.now }
{
    let entry = desk.gathering.entry;
    if desk.kdb.current != entry {
        return Err(Refusal::Diagnosed(Diagnostic::EnteredOn(entry)));
    }
    if let Some(pc) = pc {
        let mut context = desk.ctxs[usize::from(desk.kdb.current)];
        context.pc = pc;
        desk.ctxs[usize::from(desk.kdb.current)] = context;
    }
    Ok(silent(desk.alloc, Outcome::Go))
}

/// Why `ss` is refused.
#[tactic(auto, unfolding(crate::specs::command::SessionExit::ss_refusal))]
pub fn ss_refusal<P: Peek>(view: &View<P>, entry: Hart) -> Option<Diagnostic>
    ensures { result ≡ ss_refusal entry.0 view.now }
{
    if view.kdb.current != entry.0 {
        return Some(Diagnostic::EnteredOn(entry.0));
    }
    if view.context().halted {
        return Some(Diagnostic::IsHalted(view.kdb.current));
    }
    None
}

//! Laws of execution, as contracts of calls that do nothing: whoever needs one calls it.
ghost use Rattle.hart_step.specs.Laws.{ExecutionLeadsToNext, ExecutionKeepsOthers, UnmovedContextsAgree, ExecutionKeepsShape, ExecutionKeepsFaults, ExecutionKeepsText, ExecutionKeepsFaultsOfOthers, InterruptKeepsOthers};

/// Where a word doesn't fault, the pc after executing it is the next pc: stepping and executing agree.
pub fn execution_leads_to_next()
    ensures { ExecutionLeadsToNext }
{}

/// The execution of a word by one hart leaves every other hart: its context but for the pending interrupt and the
/// reservation, which no fault and no next pc depend on, and so the fault and the next pc of every word.
pub fn execution_keeps_others()
    ensures contexts { ExecutionKeepsOthers }
    ensures agree { UnmovedContextsAgree }
    ensures faults { ExecutionKeepsFaultsOfOthers }
{}

/// The execution of a word keeps the number of harts and the segments; where it doesn't fault, each access faults after it
/// as before it, and each fetch gives what it gave before.
pub fn execution_keeps_text()
    ensures shape { ExecutionKeepsShape }
    ensures faults { ExecutionKeepsFaults }
    ensures text { ExecutionKeepsText }
{}

/// An interrupt that one hart takes leaves every other hart.
pub fn interrupt_keeps_others()
    ensures { InterruptKeepsOthers }
{}

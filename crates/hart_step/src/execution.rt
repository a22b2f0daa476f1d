ghost use Rattle.std.specs.Prelude.{◌≡◌, ℕ, ◌<◌, Option, Some, None, IsTrue, true, false, length, OnOk, OnErr, IfOk};
ghost use Rattle.std.specs.Result.{result_err};
ghost use Rattle.mach_base.specs.Machine.{Memory};
ghost use Rattle.hart_ctx.specs.Context.{context_of};
ghost use Rattle.hart_ctx.specs.Reservation.{granule_of};
ghost use Rattle.rv_alu.specs.Results.{is_alu, is_branch, is_amo};
ghost use Rattle.mach_base.specs.Bytes.{IsWidth, number_in};
ghost use Rattle.mem_map.specs.Access.{access_fault, store_fault, after_store};
ghost use Rattle.mem_map.specs.Pages.{KeepsUnmarked};
ghost use Rattle.rv_decode.specs.Instruction.{fields_of};
ghost use Rattle.hart_step.specs.Operands.{class_of, HasWidth, register, address, extension};
ghost use Rattle.mem_map.specs.declared.rights.Access.TheVariants as access;
ghost use Rattle.trap_ipi.specs.Service.{after_service, answer};
ghost use Rattle.hart_step.specs.Control.{target};
ghost use Rattle.hart_step.specs.Faults.{target_fault, service_fault};
ghost use Rattle.hart_step.specs.Execution.{IsLocal, with_result, context_after, served_byte, holds_reservation, contexts_after_store, contexts_in, memory_in, byte_in, contexts_after, memory_after, byte_sent, did_by, fault_for, own_fault_for, own_memory_after, unless_faulted};
ghost use Rattle.hart_step.specs.declared.execution.Did.TheVariants as did;
ghost use Rattle.hart_step.specs.declared.class.Class.TheVariants.{Immediate, Registers, Branch, Load, Store, Reserve, Conditional, Atomic};

use crate::class::{Class, class_of};
use crate::control::{following_pc, target};
use crate::fault::{illegal, target_fault};
use crate::operands::{address, extension, first, immediate, second};
use hart_ctx::{Context, end_reservations, granule_of, is_among};
use mach_base::{Cause, Fault, Hart};
use mem_map::Map;
use rv_alu::{alu, amo};
use rv_decode::{Insn, decode};
use trap_ipi::{Served, service};

/// What the execution of a word did.
#[derive(Clone, Copy, Debug, PartialEq, Eq)]
pub enum Did {
    /// The instruction is executed; a byte goes to the console where a service sent one.
    Done(Option<u8>),
    /// The word faults, and nothing is changed.
    Fault(Fault),
}

/// Executes the word for hart h, one of the contexts, at whose pc it is; nothing is fetched. Fault comes exactly where
/// `fault_of` gives that fault.
#[tactic(auto, unfolding(crate::specs::Faults::word_fault, crate::specs::Execution::contexts_after, crate::specs::Execution::memory_after, crate::specs::Execution::byte_sent))]
pub fn exec(ctxs: &mut [Context], map: &mut Map, h: Hart, word: u32) -> Did
    requires { h.0 < length ctxs.old }
    ensures answer { result ≡ did_by (fault_for ctxs.old map.old.memory h.0 word) (byte_sent ctxs.old h.0 word) }
    ensures contexts { ctxs.new ≡ unless_faulted (fault_for ctxs.old map.old.memory h.0 word) ctxs.old (contexts_after ctxs.old map.old.memory h.0 word) }
    ensures memory { map.new.memory ≡ unless_faulted (fault_for ctxs.old map.old.memory h.0 word) map.old.memory (memory_after map.old.memory (context_of ctxs.old h.0) word) }
    ensures pages { KeepsUnmarked map.old map.new }
    ensures faulted { (fault : Fault) → result ≡ did.Fault fault → map.new ≡ map.old }
{
    let Some(insn) = decode(word) else {
        return Did::Fault(illegal(word));
    };
    execute(ctxs, map, h, class_of(insn.op), &insn)
}

#[tactic(auto, unfolding(crate::specs::Faults::own_fault, crate::specs::Execution::contexts_in, crate::specs::Execution::memory_in, crate::specs::Execution::byte_in))]
fn execute(ctxs: &mut [Context], map: &mut Map, h: Hart, class: Class, insn: &Insn) -> Did
    requires hart { h.0 < length ctxs.old }
    requires class { class ≡ class_of insn.now.op }
    requires width { HasWidth class }
    requires immediate { class ≡ Immediate → IsTrue (is_alu insn.now.op) }
    requires registers { class ≡ Registers → IsTrue (is_alu insn.now.op) }
    requires branch { class ≡ Branch → IsTrue (is_branch insn.now.op) }
    requires atomic { (width : ℕ) → class ≡ Atomic width → IsTrue (is_amo insn.now.op) }
    ensures answer { result ≡ did_by (own_fault_for class ctxs.old map.old.memory h.0 (fields_of insn.now)) (byte_in class ctxs.old h.0) }
    ensures contexts { ctxs.new ≡ unless_faulted (own_fault_for class ctxs.old map.old.memory h.0 (fields_of insn.now)) ctxs.old (contexts_in class ctxs.old map.old.memory h.0 (fields_of insn.now)) }
    ensures memory { map.new.memory ≡ own_memory_after class ctxs.old map.old.memory h.0 (fields_of insn.now) }
    ensures pages { KeepsUnmarked map.old map.new }
    ensures faulted { (fault : Fault) → result ≡ did.Fault fault → map.new ≡ map.old }
{
    match class {
        Class::Service => call_service(ctxs, h),
        Class::Load { width, signed } => answered(load(ctxs, map, h, insn, width, signed)),
        Class::Reserve { width } => answered(reserve(ctxs, map, h, insn, width)),
        Class::Store { width } => answered(store(ctxs, map, h, insn, width)),
        Class::Conditional { width } => answered(store_conditional(ctxs, map, h, insn, width)),
        Class::Atomic { width } => answered(atomic(ctxs, map, h, insn, width)),
        _ => local_step(ctxs, h, class, insn),
    }
}

/// What was done, where no service was asked for.
fn answered(done: Result<(), Fault>) -> Did
    ensures { result ≡ did_by (result_err done) None }
{
    match done {
        Ok(()) => Did::Done(None),
        Err(fault) => Did::Fault(fault),
    }
}

/// Asks the firmware for the service of hart h.
#[tactic(auto, unfolding(crate::specs::Execution::byte_in, trap_ipi::specs::Service::answer, trap_ipi::specs::Service::after_service))]
fn call_service(ctxs: &mut [Context], h: Hart) -> Did
    requires { h.0 < length ctxs.old }
    ensures answer { result ≡ did_by (service_fault (context_of ctxs.old h.0) (length ctxs.old)) (served_byte (answer ctxs.old h.0)) }
    ensures contexts { ctxs.new ≡ unless_faulted (service_fault (context_of ctxs.old h.0) (length ctxs.old)) ctxs.old (after_service ctxs.old h.0) }
{
    match service(ctxs, h) {
        Served::Plain => Did::Done(None),
        Served::Byte(byte) => Did::Done(Some(byte)),
        Served::Unknown(number) => Did::Fault(Fault {
            cause: Cause::BadService,
            addr: number,
        }),
    }
}

/// An instruction that touches the hart's registers and pc alone.
fn local_step(ctxs: &mut [Context], h: Hart, class: Class, insn: &Insn) -> Did
    requires hart { h.0 < length ctxs.old }
    requires local { IsLocal class }
    requires immediate { class ≡ Immediate → IsTrue (is_alu insn.now.op) }
    requires registers { class ≡ Registers → IsTrue (is_alu insn.now.op) }
    requires branch { class ≡ Branch → IsTrue (is_branch insn.now.op) }
    ensures answer { (m : Memory) → result ≡ did_by (own_fault_for class ctxs.old m h.0 (fields_of insn.now)) (byte_in class ctxs.old h.0) }
    ensures contexts { (m : Memory) → ctxs.new ≡ unless_faulted (own_fault_for class ctxs.old m h.0 (fields_of insn.now)) ctxs.old (contexts_in class ctxs.old m h.0 (fields_of insn.now)) }
    ensures memory { (m : Memory) (fault : Option Fault) → unless_faulted fault m (memory_in class m (context_of ctxs.old h.0) (fields_of insn.now)) ≡ m }
{
    let ctx = &ctxs[usize::from(h.0)];
    let target = target(class, ctx, insn);
    if let Some(fault) = target_fault(target) {
        return Did::Fault(fault);
    }
    advance(&mut ctxs[usize::from(h.0)], class, insn, target);
    Did::Done(None)
}

/// Writes the destination register and goes on, at the target or after the instruction.
fn advance(ctx: &mut Context, class: Class, insn: &Insn, to: Option<u64>)
    requires local { IsLocal class }
    requires immediate { class ≡ Immediate → IsTrue (is_alu insn.now.op) }
    requires registers { class ≡ Registers → IsTrue (is_alu insn.now.op) }
    requires target { to ≡ target class ctx.old (fields_of insn.now) }
    ensures { (m : Memory) → ctx.new ≡ context_after class m ctx.old (fields_of insn.now) }
{
    let pc = to.unwrap_or(following_pc(ctx));
    write(ctx, class, insn);
    ctx.pc = pc;
}

/// Writes the destination register of an instruction that doesn't touch memory.
#[tactic(auto, unfolding(crate::specs::Execution::with_result))]
fn write(ctx: &mut Context, class: Class, insn: &Insn)
    requires local { IsLocal class }
    requires immediate { class ≡ Immediate → IsTrue (is_alu insn.now.op) }
    requires registers { class ≡ Registers → IsTrue (is_alu insn.now.op) }
    ensures { (m : Memory) → ctx.new ≡ with_result class m ctx.old (fields_of insn.now) }
{
    let rd = insn.rd;
    match class {
        Class::Upper => ctx.set(rd, immediate(insn)),
        Class::UpperPc => {
            let sum = ctx.pc.wrapping_add(immediate(insn));
            ctx.set(rd, sum);
        }
        Class::Jump | Class::JumpRegister => {
            let link = following_pc(ctx);
            ctx.set(rd, link);
        }
        Class::Immediate => {
            let value = alu(insn.op, first(ctx, insn), immediate(insn));
            ctx.set(rd, value);
        }
        Class::Registers => {
            let value = alu(insn.op, first(ctx, insn), second(ctx, insn));
            ctx.set(rd, value);
        }
        _ => {}
    }
}

#[tactic(auto, unfolding(crate::specs::Execution::with_result, crate::specs::Execution::contexts_in, crate::specs::Execution::stored_granule, crate::specs::Control::target, mem_map::specs::Access::load_result))]
fn load(
    ctxs: &mut [Context],
    map: &Map,
    h: Hart,
    insn: &Insn,
    width: u8,
    signed: bool,
) -> Result<(), Fault>
    requires hart { h.0 < length ctxs.old }
    requires width { IsWidth width }
    ensures fault { result_err result ≡ access_fault map.now.memory access.Load (address (context_of ctxs.old h.0) (fields_of insn.now)) width }
    ensures contexts { OnOk result (ctxs.new ≡ contexts_in (Load width signed) ctxs.old map.now.memory h.0 (fields_of insn.now)) }
    ensures err { OnErr result (ctxs.new ≡ ctxs.old) }
{
    let ctx = &ctxs[usize::from(h.0)];
    let value = map.load(address(ctx, insn), width)?;
    let ctx = &mut ctxs[usize::from(h.0)];
    let pc = following_pc(ctx);
    ctx.set(insn.rd, extension(value, width, signed));
    ctx.pc = pc;
    Ok(())
}

/// The bytes of an access that needs the right to store, as a number with its sign carried on.
#[tactic(auto, using(crate::proofs::Rights::load_where_stored), unfolding(mem_map::specs::Access::load_result))]
fn old_value(map: &Map, addr: u64, width: u8) -> Result<u64, Fault>
    requires { IsWidth width }
    ensures fault { result_err result ≡ store_fault map.now.memory addr width }
    ensures value { IfOk result (λ value. value ≡ extension width true (number_in map.now.memory addr width)) }
{
    map.storable(addr, width)?;
    match map.load(addr, width) {
        Ok(value) => Ok(extension(value, width, true)),
        Err(_) => unreachable!(),
    }
}

#[tactic(auto, unfolding(crate::specs::Execution::with_result, crate::specs::Execution::contexts_in, crate::specs::Execution::stored_granule, crate::specs::Control::target))]
fn reserve(ctxs: &mut [Context], map: &Map, h: Hart, insn: &Insn, width: u8) -> Result<(), Fault>
    requires hart { h.0 < length ctxs.old }
    requires width { IsWidth width }
    ensures fault { result_err result ≡ store_fault map.now.memory (register (context_of ctxs.old h.0) insn.now.rs1) width }
    ensures contexts { OnOk result (ctxs.new ≡ contexts_in (Reserve width) ctxs.old map.now.memory h.0 (fields_of insn.now)) }
    ensures err { OnErr result (ctxs.new ≡ ctxs.old) }
{
    let ctx = &ctxs[usize::from(h.0)];
    let addr = first(ctx, insn);
    let value = old_value(map, addr, width)?;
    let ctx = &mut ctxs[usize::from(h.0)];
    let pc = following_pc(ctx);
    ctx.set(insn.rd, value);
    ctx.reservation = Some(granule_of(addr));
    ctx.pc = pc;
    Ok(())
}

#[tactic(auto, unfolding(crate::specs::Execution::with_result, crate::specs::Execution::contexts_in, crate::specs::Execution::memory_in, crate::specs::Execution::stored_granule, crate::specs::Control::target))]
fn store(ctxs: &mut [Context], map: &mut Map, h: Hart, insn: &Insn, width: u8) -> Result<(), Fault>
    requires hart { h.0 < length ctxs.old }
    requires width { IsWidth width }
    ensures fault { result_err result ≡ store_fault map.old.memory (address (context_of ctxs.old h.0) (fields_of insn.now)) width }
    ensures contexts { OnOk result (ctxs.new ≡ contexts_in (Store width) ctxs.old map.old.memory h.0 (fields_of insn.now)) }
    ensures memory { OnOk result (map.new.memory ≡ memory_in (Store width) map.old.memory (context_of ctxs.old h.0) (fields_of insn.now)) }
    ensures pages { KeepsUnmarked map.old map.new }
    ensures err { OnErr result ((ctxs.new ≡ ctxs.old) × (map.new ≡ map.old)) }
{
    let mut ctx = ctxs[usize::from(h.0)];
    let addr = address(&ctx, insn);
    map.store(addr, width, second(&ctx, insn))?;
    ctx.pc = following_pc(&ctx);
    end_on_granule(ctxs, addr);
    ctxs[usize::from(h.0)] = ctx;
    Ok(())
}

#[tactic(auto, unfolding(crate::specs::Execution::with_result, crate::specs::Execution::contexts_in, crate::specs::Execution::memory_in, crate::specs::Execution::stored_granule, crate::specs::Control::target))]
fn atomic(ctxs: &mut [Context], map: &mut Map, h: Hart, insn: &Insn, width: u8) -> Result<(), Fault>
    requires hart { h.0 < length ctxs.old }
    requires width { IsWidth width }
    requires atomic { IsTrue (is_amo insn.now.op) }
    ensures fault { result_err result ≡ store_fault map.old.memory (register (context_of ctxs.old h.0) insn.now.rs1) width }
    ensures contexts { OnOk result (ctxs.new ≡ contexts_in (Atomic width) ctxs.old map.old.memory h.0 (fields_of insn.now)) }
    ensures memory { OnOk result (map.new.memory ≡ memory_in (Atomic width) map.old.memory (context_of ctxs.old h.0) (fields_of insn.now)) }
    ensures pages { KeepsUnmarked map.old map.new }
    ensures err { OnErr result ((ctxs.new ≡ ctxs.old) × (map.new ≡ map.old)) }
{
    let mut ctx = ctxs[usize::from(h.0)];
    let addr = first(&ctx, insn);
    let old = old_value(map, addr, width)?;
    put(map, addr, width, amo(insn.op, old, second(&ctx, insn)));
    ctx.set(insn.rd, old);
    ctx.pc = following_pc(&ctx);
    end_on_granule(ctxs, addr);
    ctxs[usize::from(h.0)] = ctx;
    Ok(())
}

/// Ends the reservations on the granule of an address that is stored to.
fn end_on_granule(ctxs: &mut [Context], addr: u64)
    ensures { ctxs.new ≡ contexts_after_store (Some (granule_of addr)) ctxs.old }
{
    let granule = granule_of(addr);
    end_reservations(ctxs, granule, granule);
}

/// A store where it is known not to fault.
fn put(map: &mut Map, addr: u64, width: u8, value: u64)
    requires width { IsWidth width }
    requires right { store_fault map.old.memory addr width ≡ None }
    ensures memory { map.new.memory ≡ after_store map.old.memory addr width value }
    ensures pages { KeepsUnmarked map.old map.new }
{
    match map.store(addr, width, value) {
        Ok(()) => {}
        Err(_) => unreachable!(),
    }
}

#[tactic(auto, unfolding(crate::specs::Execution::contexts_in, crate::specs::Execution::memory_in, crate::specs::Execution::stored_granule))]
fn store_conditional(
    ctxs: &mut [Context],
    map: &mut Map,
    h: Hart,
    insn: &Insn,
    width: u8,
) -> Result<(), Fault>
    requires hart { h.0 < length ctxs.old }
    requires width { IsWidth width }
    ensures fault { result_err result ≡ store_fault map.old.memory (register (context_of ctxs.old h.0) insn.now.rs1) width }
    ensures contexts { OnOk result (ctxs.new ≡ contexts_in (Conditional width) ctxs.old map.old.memory h.0 (fields_of insn.now)) }
    ensures memory { OnOk result (map.new.memory ≡ memory_in (Conditional width) map.old.memory (context_of ctxs.old h.0) (fields_of insn.now)) }
    ensures pages { KeepsUnmarked map.old map.new }
    ensures err { OnErr result ((ctxs.new ≡ ctxs.old) × (map.new ≡ map.old)) }
{
    let ctx = &ctxs[usize::from(h.0)];
    let addr = first(ctx, insn);
    let granule = granule_of(addr);
    let held = is_among(granule, granule, ctx.reservation);
    map.storable(addr, width)?;
    if held {
        succeed(ctxs, map, h, insn, width);
    } else {
        fail(&mut ctxs[usize::from(h.0)], insn);
    }
    Ok(())
}

/// A store-conditional that succeeds.
#[tactic(auto, unfolding(crate::specs::Execution::with_result, crate::specs::Execution::contexts_in, crate::specs::Execution::memory_in, crate::specs::Execution::stored_granule, crate::specs::Control::target))]
fn succeed(ctxs: &mut [Context], map: &mut Map, h: Hart, insn: &Insn, width: u8)
    requires hart { h.0 < length ctxs.old }
    requires width { IsWidth width }
    requires right { store_fault map.old.memory (register (context_of ctxs.old h.0) insn.now.rs1) width ≡ None }
    requires holds { IsTrue (holds_reservation (context_of ctxs.old h.0) (fields_of insn.now)) }
    ensures contexts { ctxs.new ≡ contexts_in (Conditional width) ctxs.old map.old.memory h.0 (fields_of insn.now) }
    ensures memory { map.new.memory ≡ memory_in (Conditional width) map.old.memory (context_of ctxs.old h.0) (fields_of insn.now) }
    ensures pages { KeepsUnmarked map.old map.new }
{
    let mut ctx = ctxs[usize::from(h.0)];
    let addr = first(&ctx, insn);
    put(map, addr, width, second(&ctx, insn));
    ctx.set(insn.rd, 0);
    ctx.reservation = None;
    ctx.pc = following_pc(&ctx);
    end_on_granule(ctxs, addr);
    ctxs[usize::from(h.0)] = ctx;
}

/// A store-conditional that fails: nothing is stored, and the reservation is gone.
#[tactic(auto, unfolding(crate::specs::Execution::with_result, crate::specs::Control::target))]
fn fail(ctx: &mut Context, insn: &Insn)
    requires { holds_reservation ctx.old (fields_of insn.now) ≡ false }
    ensures { (width : ℕ) (m : Memory) → ctx.new ≡ context_after (Conditional width) m ctx.old (fields_of insn.now) }
{
    ctx.set(insn.rd, 1);
    ctx.reservation = None;
    ctx.pc = following_pc(ctx);
}

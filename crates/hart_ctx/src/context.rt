ghost use Rattle.std.specs.Prelude.{◌≡◌, ◌<◌, ◌^◌, slice_index};
ghost use Rattle.hart_ctx.specs.Context.{start_context, with_register};

use std::marker::Model;

/// A hart's context. Register 0 is always 0. The fields are those of docs/machine.md, "Harts".
#[derive(Clone, Copy, Debug, PartialEq, Eq)]
pub struct Context {
    registers: [u64; 32],
    /// The address of the next instruction.
    pub pc: u64,
    /// The pc at which the last interrupt was taken.
    pub epc: u64,
    /// The address of the interrupt handler; 0 means none.
    pub vector: u64,
    /// Whether interrupts are masked.
    pub masked: bool,
    /// Whether an interrupt is pending.
    pub pending: bool,
    /// Whether the hart is halted, for good.
    pub halted: bool,
    /// The number of the granule of 8 bytes that the hart has reserved.
    pub reservation: Option<u64>,
}

impl Model for Context {
    ghost use Rattle.std.specs.Prelude.{◌≡◌, ℕ, slice_index};
    ghost use Rattle.mach_base.specs.Machine.{Context as ContextRecord};

    ghost Value = { ContextRecord };

    ghost view = { λ c. record {
      registers = c.registers;
      pc = c.pc;
      epc = c.epc;
      vector = c.vector;
      masked = c.masked;
      pending = c.pending;
      halted = c.halted;
      reservation = c.reservation;
    } };

    ghost invariant = { λ c. slice_index c.registers 0 ≡ 0 };

    ghost inverse = { λ c. record {
      registers = c.registers;
      pc = c.pc;
      epc = c.epc;
      vector = c.vector;
      masked = c.masked;
      pending = c.pending;
      halted = c.halted;
      reservation = c.reservation;
    } };
}

impl Context {
    /// The context at the start: this pc, `sp` in x2, and 0 in all other registers; not masked, pending or halted, no
    /// vector, no reservation.
    pub fn new(pc: u64, sp: u64) -> Context
        ensures { result ≡ start_context pc sp }
    {
        let mut registers = [0; 32];
        registers[2] = sp;
        Context {
            registers,
            pc,
            epc: 0,
            vector: 0,
            masked: false,
            pending: false,
            halted: false,
            reservation: None,
        }
    }

    /// The value of register `reg`, 0 to 31.
    pub fn get(&self, reg: u8) -> u64
        requires { reg < 32 }
        ensures { result ≡ slice_index self.now.registers reg }
    {
        self.registers[usize::from(reg)]
    }

    /// Writes register `reg`, 0 to 31; a write to register 0 changes nothing (RISC-V unprivileged specification,
    /// "Programmers' Model for Base Integer ISA").
    pub fn set(&mut self, reg: u8, value: u64)
        requires { reg < 32 }
        ensures { self.new ≡ with_register self.old reg value }
    {
        if reg != 0 {
            self.registers[usize::from(reg)] = value;
        }
    }
}

#[cfg(test)]
mod tests {
    use super::*;

    #[test]
    fn writes_registers_but_not_zero(rt: HostRuntime) {
        let mut context = Context::new(0x1000, 0x8000);
        assert_eq!(rt;
            (context.pc, context.get(2), context.get(1)),
            (0x1000, 0x8000, 0)
        );
        context.set(10, 5);
        context.set(0, 7);
        assert_eq!(rt; (context.get(10), context.get(0)), (5, 0));
    }
}

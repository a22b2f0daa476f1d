use crate::Kdb;
use hart_ctx::{Context, RegName, reg_of};
use mach_base::{Names, Peek};
use std::marker::Model;
use sym_map::Symbols;

/// What a command sees. Contracts see it as the state of a line.
#[derive(Drop)]
pub struct View<'a, P: Peek> {
    pub mem: &'a P,
    pub ctxs: &'a [Context],
    pub kdb: &'a Kdb,
    pub names: &'a Symbols,
}

impl<'a, P: Peek> Model for View<'a, P> {
    ghost use Rattle.std.specs.Prelude.{◌<◌, length};
    ghost use Rattle.std.specs.Coded.{codes};
    ghost use Rattle.mach_base.specs.Codes.{memory_code};
    ghost use Rattle.mach_base.specs.Machine.{LineState};
    ghost use Rattle.kdb_view.specs.State.{state_of};

    ghost Value = { LineState };

    ghost view = { λ v. state_of v.ctxs.now (P.memory v.mem.now) v.kdb.now v.names.now };

    ghost coded = { Prim.hlevel (codes, memory_code) };

    ghost invariant = { λ v. v.kdb.now.current < length v.ctxs.now };
}

impl<'a, P: Peek> View<'a, P> {
    ghost use Rattle.std.specs.Prelude.{◌≡◌, ◌<◌, ◌≤◌, length};
    ghost use Rattle.kdb_view.specs.State.{state_of};
    ghost use Rattle.mach_base.specs.Bytes.{IsWidth};
    ghost use Rattle.kdb_view.specs.Scope.{line_count_in, width_in};
    ghost use Rattle.hart_ctx.specs.Context.{context_of};

    /// What a command sees of these.
    pub fn new(mem: &'a P, ctxs: &'a [Context], kdb: &'a Kdb, names: &'a Symbols) -> View<'a, P>
        requires { kdb.now.current < length ctxs.now }
        ensures { result ≡ state_of ctxs.now (P.memory mem.now) kdb.now names.now }
    {
        View {
            mem,
            ctxs,
            kdb,
            names,
        }
    }

    /// The context of the current processor.
    pub fn context(&self) -> &Context
        ensures { result.now ≡ context_of self.now.harts self.now.current }
    {
        &self.ctxs[usize::from(self.kdb.current)]
    }

    /// The lines that `md` shows, where it isn't said: 1 to 256.
    pub fn line_count(&self) -> u32
        ensures value { result ≡ line_count_in self.now.variables }
        ensures few { result ≤ 256 }
    {
        self.kdb.env.count()
    }

    /// The bytes of a word, where it isn't said: BYTESPERWORD.
    pub fn width(&self) -> u8
        ensures value { result ≡ width_in self.now.variables }
        ensures width { IsWidth result }
    {
        self.kdb.env.width()
    }
}

impl<P: Peek> Names for View<'_, P> {
    ghost use Rattle.hart_ctx.specs.Context.{context_of};
    ghost use Rattle.sym_map.specs.Lookups.{addr_of};
    ghost use Rattle.kdb_env.specs.Variables.{value_of};
    ghost use Rattle.kdb_view.specs.Scope.{register_in, radix_in};

    ghost symbols = { λ s. addr_of s.symbols };

    ghost registers = { λ s. register_in (context_of s.harts s.current) };

    ghost variables = { λ s. value_of s.variables };

    ghost base = { λ s. radix_in s.variables };

    fn symbol(&self, name: &[u8]) -> Option<u64> {
        self.names.addr_of(name)
    }

    fn register(&self, name: &[u8]) -> Option<u64> {
        match reg_of(name) {
            Ok(RegName::X(number)) => Some(self.context().get(number)),
            Ok(RegName::Pc) => Some(self.context().pc),
            Err(_) => None,
        }
    }

    fn variable(&self, name: &[u8]) -> Option<&[u8]> {
        self.kdb.env.get(name)
    }

    fn radix(&self) -> u8 {
        self.kdb.env.radix()
    }
}

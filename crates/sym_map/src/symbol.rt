use std::marker::Model;

/// A symbol that keeps its name.
#[derive(Debug, Drop)]
pub struct Symbol {
    pub addr: u64,
    pub name: Vec<u8>,
}

impl Model for Symbol {
    ghost use Rattle.mach_base.specs.Machine.{Symbol as SymbolRecord};

    ghost Value = { SymbolRecord };

    ghost view = { λ s. record { addr = s.addr; name = s.name.items } };
}

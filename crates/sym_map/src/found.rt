use std::marker::Model;

/// A symbol whose name is a part of the text of a line.
#[derive(Debug, Drop)]
pub struct Found<'a> {
    pub addr: u64,
    pub name: &'a [u8],
}

impl<'a> Model for Found<'a> {
    ghost use Rattle.mach_base.specs.Machine.{Symbol as SymbolRecord};

    ghost Value = { SymbolRecord };

    ghost view = { λ f. record { addr = f.addr; name = f.name.now } };
}

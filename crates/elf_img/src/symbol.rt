use std::marker::Model;

/// A symbol that goes into a map: its address, whether it is a function, and its name.
#[derive(Debug, Drop)]
pub struct MapSymbol<'a> {
    pub address: u64,
    pub is_function: bool,
    pub name: &'a [u8],
}

impl<'a> Model for MapSymbol<'a> {
    ghost use Rattle.elf_img.specs.MapText.{MapSymbol as SymbolRecord};

    ghost Value = { SymbolRecord };

    ghost view = { λ s. record { address = s.address; is_function = s.is_function; name = s.name.now } };
}

use std::marker::Model;

/// The bytes of a symbol table, and of the section with its names.
#[derive(Debug, Drop)]
pub struct SymbolTable<'a> {
    pub entries: &'a [u8],
    pub names: &'a [u8],
}

impl<'a> Model for SymbolTable<'a> {
    ghost use Rattle.elf_img.specs.Sections.{SymbolTable as TableRecord};

    ghost Value = { TableRecord };

    ghost view = { λ t. record { entries = t.entries.now; names = t.names.now } };
}

// The symbol table of a library.
use fields::load_command::SymtabCommand;

// A source and the command that says where in it the symbols and their strings are.
#[derive_where(Clone, Copy)]
pub struct SymbolTable<'a, S> {
    pub source: &'a S,
    pub symtab: SymtabCommand,
}

// Load commands, `load_command` and `symtab_command` of `loader.h`.
ghost use Rattle.std.specs.Prelude.{◌≡◌};
ghost use Rattle.fields.specs.Records.{load_command_at, symtab_at};

use crate::number::Fields;
use source::source::Source;

// What every command begins with.
#[derive(Clone, Copy, PartialEq, Eq, Debug)]
pub struct LoadCommand {
    pub cmd: u32,
    pub cmdsize: u32,
}

impl LoadCommand {
    pub const SIZE: u64 = 8;

    // The first fields of the command at p, exactly when they are there.
    pub fn read<S: Source>(f: Fields<S>, p: u64) -> Option<LoadCommand>
        ensures { result ≡ load_command_at (S.Source.bytes f.entry.source.now) p f.entry.endian }
    {
        if !f.source.has(p, LoadCommand::SIZE) {
            return None;
        }
        Some(LoadCommand {
            cmd: f.u32_at(p)?,
            cmdsize: f.u32_at(p + 4)?,
        })
    }
}

// Where the symbols and their strings are.
#[derive(Clone, Copy, PartialEq, Eq, Debug)]
pub struct SymtabCommand {
    pub symoff: u32,
    pub nsyms: u32,
    pub stroff: u32,
    pub strsize: u32,
}

impl SymtabCommand {
    pub const SIZE: u64 = 24;

    // The command at p, exactly when all of its record is there.
    pub fn read<S: Source>(f: Fields<S>, p: u64) -> Option<SymtabCommand>
        ensures { result ≡ symtab_at (S.Source.bytes f.entry.source.now) p f.entry.endian }
    {
        if !f.source.has(p, SymtabCommand::SIZE) {
            return None;
        }
        Some(SymtabCommand {
            symoff: f.u32_at(p + 8)?,
            nsyms: f.u32_at(p + 12)?,
            stroff: f.u32_at(p + 16)?,
            strsize: f.u32_at(p + 20)?,
        })
    }
}

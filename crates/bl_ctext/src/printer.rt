//! How a file is spelled: one statement a line, indented, with an empty line before each struct and each function.

mod expr;
mod item;
mod literal;
mod name;
mod stmt;

ghost use Rattle.std.specs.Prelude.{IfOk};
ghost use Rattle.bl_ctext.specs.SpellsC.{SpellsC};

use crate::file::CFile;
use crate::writer::Writer;
use bl_tree::NoMemory;
use std::alloc::Global;

/// One spelling of the file, laid out to be read.
pub fn print(alloc: Global, file: &CFile) -> Result<Vec<u8>, NoMemory>
    ensures { IfOk result (λ bytes. SpellsC file.now bytes.items) }
{
    let mut out = Writer::new(alloc)?;
    item::structs(&mut out, &file.structs)?;
    item::funcs(&mut out, &file.funcs)?;
    Ok(out.finish())
}

//! Names, each under the test of the grammar that it passes.

ghost use Rattle.std.specs.Prelude.{◌≡◌, [], ◌∷◌, ◌++◌, IsTrue, OnOk};
ghost use Rattle.bl_ctext.specs.Names.{is_name, is_struct_name, is_function_name, is_callee, is_turn_name};

use crate::writer::Writer;
use bl_tree::NoMemory;

pub fn name(out: &mut Writer, word: &str) -> Result<(), NoMemory>
    requires { IsTrue (is_name word.now) }
    ensures { OnOk result (out.new ≡ out.old ++ word.now ∷ []) }
{
    out.token(word)
}

pub fn struct_name(out: &mut Writer, word: &str) -> Result<(), NoMemory>
    requires { IsTrue (is_struct_name word.now) }
    ensures { OnOk result (out.new ≡ out.old ++ word.now ∷ []) }
{
    out.token(word)
}

pub fn function_name(out: &mut Writer, word: &str) -> Result<(), NoMemory>
    requires { IsTrue (is_function_name word.now) }
    ensures { OnOk result (out.new ≡ out.old ++ word.now ∷ []) }
{
    out.token(word)
}

pub fn callee(out: &mut Writer, word: &str) -> Result<(), NoMemory>
    requires { IsTrue (is_callee word.now) }
    ensures { OnOk result (out.new ≡ out.old ++ word.now ∷ []) }
{
    out.token(word)
}

pub fn turn_name(out: &mut Writer, word: &str) -> Result<(), NoMemory>
    requires { IsTrue (is_turn_name word.now) }
    ensures { OnOk result (out.new ≡ out.old ++ word.now ∷ []) }
{
    out.token(word)
}

//! Parts of C trees that only the function of an activity, its structs and the interface have.

ghost use Rattle.std.specs.Prelude.{◌≡◌, IfOk};
ghost use Rattle.bl_tree.specs.declared.scalar.Op.TheVariants.{Eq};
ghost use Rattle.bl_emit_acts.specs.Trees.{c_two};
ghost use Rattle.bl_emit_spec.specs.Activities.{scalar_local, struct_member, pointer_param};

use bl_emit_acts::parts::two;
use bl_tree::c::{CExpr, CLocal, CMember, CParam, CType};
use bl_tree::{NoMemory, Op, Scalar, Text};
use std::alloc::Global;

/// Whether two values are one.
pub fn equal(alloc: Global, left: CExpr, right: CExpr) -> Result<CExpr, NoMemory>
    ensures { IfOk result (λ e. e ≡ c_two Eq left right) }
{
    two(alloc, Op::Eq, left, right)
}

/// A local that is a number or a bool.
pub fn local(ty: Scalar, name: Text) -> CLocal
    ensures { result ≡ scalar_local ty name }
{
    CLocal {
        ty: CType::Scalar(ty),
        name,
    }
}

/// A member that is a struct.
pub fn member(name: Text, of: Text) -> CMember
    ensures { result ≡ struct_member name of }
{
    CMember {
        ty: CType::Struct(of),
        name,
        length: None,
    }
}

/// A pointer to a struct.
pub fn pointer(alloc: Global, name: &str, of: Text) -> Result<CParam, NoMemory>
    ensures { IfOk result (λ param. param ≡ pointer_param name.now of) }
{
    let name = Text::copy_of(alloc, name)?;
    Ok(CParam {
        ty: CType::Struct(of),
        pointer: true,
        name,
    })
}

//! The lines of the generated program that there are more of, appended to a text.

ghost use Rattle.std.specs.Prelude.{◌≡◌, ◌++◌, ◌+◌, ◌<◌, ◌^◌, OnOk};
ghost use Rattle.bl_gen.specs.Text.{branch, declaration, declarations, last_branch, writing_branches};

use itoa::Buffer;
use std::alloc::AllocError;

/// Appends the declarations of the variables 1 to `last`.
pub fn append_declarations(last: u32, text: &mut Vec<u8>) -> Result<(), AllocError>
    requires { last + 1 < 2 ^ 32 }
    ensures { OnOk result (text.new.items ≡ text.old.items ++ declarations last) }
{
    'variables: for before in 0..last {
        append_declaration(before + 1, text)?;
    }
    Ok(())
}

#[tactic(auto, unfolding(crate::specs::Text::declaration))]
fn append_declaration(number: u32, text: &mut Vec<u8>) -> Result<(), AllocError>
    ensures { OnOk result (text.new.items ≡ text.old.items ++ declaration number) }
{
    let mut buffer = Buffer::new();
    text.extend_from_slice(b"var x")?;
    text.extend_from_slice(buffer.format(number).as_bytes())?;
    text.extend_from_slice(b": int32\n")?;
    Ok(())
}

/// Appends the branch of the last stage, which reads the variable `last`.
#[tactic(auto, unfolding(crate::specs::Text::last_branch))]
pub fn append_last_branch(last: u32, text: &mut Vec<u8>) -> Result<(), AllocError>
    ensures { OnOk result (text.new.items ≡ text.old.items ++ last_branch last) }
{
    let mut buffer = Buffer::new();
    text.extend_from_slice(b"run Stage(x")?;
    text.extend_from_slice(buffer.format(last).as_bytes())?;
    text.extend_from_slice(b")(o)\n")?;
    Ok(())
}

/// Appends the branches that write the variables `last` to 1, in this order.
pub fn append_branches(last: u32, text: &mut Vec<u8>) -> Result<(), AllocError>
    requires { last + 1 < 2 ^ 32 }
    ensures { OnOk result (text.new.items ≡ text.old.items ++ writing_branches last) }
{
    let mut left = last;
    'branches: while left > 0 {
        left -= 1;
        append_branch(left, text)?;
    }
    Ok(())
}

/// Appends a branch behind its word: the one that reads the variable of this number, and writes the next.
#[tactic(auto, unfolding(crate::specs::Text::branch))]
fn append_branch(number: u32, text: &mut Vec<u8>) -> Result<(), AllocError>
    requires { number + 1 < 2 ^ 32 }
    ensures { OnOk result (text.new.items ≡ text.old.items ++ branch number) }
{
    let mut buffer = Buffer::new();
    text.extend_from_slice(b"with\nrun Stage(x")?;
    text.extend_from_slice(buffer.format(number).as_bytes())?;
    text.extend_from_slice(b")(x")?;
    text.extend_from_slice(buffer.format(number + 1).as_bytes())?;
    text.extend_from_slice(b")\n")?;
    Ok(())
}

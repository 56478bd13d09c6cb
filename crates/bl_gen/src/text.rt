//! The text of the generated program.

ghost use Rattle.std.specs.Prelude.{◌≡◌, ◌++◌, ◌+◌, ◌-◌, ◌<◌, ◌≤◌, ◌^◌, IfOk, MatchResult, OnOk};
ghost use Rattle.bl_gen.specs.Text.{IsRefused, body_text, most_stages, program_text, text_with};

use crate::append::{append_branches, append_declarations, append_last_branch};
use crate::fault::GenFault;
use std::alloc::{AllocError, Global};

/// The most stages that a program is made of.
const MOST: u32 = 2_000;

/// The source text of the program of so many stages, which are at least one. Fails where there are more than 2,000, and else
/// only for want of memory.
pub fn program(alloc: Global, stages: u32) -> Result<Vec<u8>, GenFault>
    requires { 1 ≤ stages }
    ensures { MatchResult result (λ text. (stages ≤ most_stages) × (text.items ≡ program_text stages)) (IsRefused stages) }
{
    if stages > MOST {
        return Err(GenFault::TooLarge { n: stages });
    }
    match text_of(alloc, stages - 1) {
        Ok(text) => Ok(text),
        Err(_) => Err(GenFault::NoMemory),
    }
}

/// The whole text, of which the entry declares so many variables.
#[tactic(auto, unfolding(crate::specs::Text::text_with, crate::specs::Text::stage_line, crate::specs::Text::entry_line))]
fn text_of(alloc: Global, variables: u32) -> Result<Vec<u8>, AllocError>
    requires { variables + 1 < 2 ^ 32 }
    ensures { IfOk result (λ text. text.items ≡ text_with variables) }
{
    let mut text = Vec::from_slice(
        alloc,
        b"activity Stage (i: int32)(o: int32) repeat o = i % 1000 + 1 await true end end\n",
    )?;
    text.extend_from_slice(b"@[EntryPoint] activity Main (x0: int32)(o: int32)\n")?;
    append_declarations(variables, &mut text)?;
    append_body(variables, &mut text)?;
    Ok(text)
}

/// Appends what stands behind the declarations of so many variables.
#[tactic(auto, unfolding(crate::specs::Text::body_text))]
fn append_body(variables: u32, text: &mut Vec<u8>) -> Result<(), AllocError>
    requires { variables + 1 < 2 ^ 32 }
    ensures { OnOk result (text.new.items ≡ text.old.items ++ body_text variables) }
{
    text.extend_from_slice(b"cobegin\n")?;
    append_last_branch(variables, text)?;
    append_branches(variables, text)?;
    text.extend_from_slice(b"end\nend\n")?;
    Ok(())
}

//! A state that is divided by each input, loaded: the number 5, and a run that ends at 0.

use bl_cparse::parse;
use bl_crun::Runner;
use bl_ctext::{CFile, PRELUDE};
use std::alloc::{AllocError, Global};
use std::test::Fail;

const TEXT: &str = "struct bl_state { int32_t n; };
struct bl_in { uint8_t pad; int32_t i_d; };
struct bl_out { uint8_t pad; int32_t o_n; };
void bl_init(struct bl_state *s) { (*s).n = INT32_C(5); }
uint32_t bl_tick(struct bl_state *s, struct bl_in *i, struct bl_out *o) {
(*s).n = bl_div_i32((*s).n, (*i).i_d); (*o).o_n = (*s).n;
if (((*s).n == INT32_C(0))) { return UINT32_C(1); } return UINT32_C(0); }
";

/// The longest text that is read.
const LONGEST: usize = 67_108_864;

// By itself, since each function in which these thousands of bytes stand takes long to prove.
fn prelude(alloc: Global) -> Result<Vec<u8>, AllocError> {
    Vec::from_slice(alloc, PRELUDE)
}

fn file(alloc: Global) -> Result<CFile, Fail> {
    let mut text = prelude(alloc)?;
    text.extend_from_slice(TEXT.as_bytes())?;
    if text.len() > LONGEST {
        return Err(Fail::new("too long"));
    }
    Ok(parse(alloc, &text)?)
}

/// The runner before its first tick.
pub fn hand(alloc: Global) -> Result<Runner, Fail> {
    match Runner::load(alloc, file(alloc)?) {
        Ok(runner) => Ok(runner),
        Err((_, fault)) => Err(Fail::new(format_args!("{fault:?}"))),
    }
}

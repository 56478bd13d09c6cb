//! What is printed of a text that is read: each form, on lines of its own.

use bl_cparse::parse;
use bl_ctext::{PRELUDE, print};
use std::alloc::{AllocError, Global};
use std::test::Fail;

/// The longest text that is read.
const LONGEST: usize = 67_108_864;

const LINES: &str = "
struct r {
    uint8_t a[3];
};

static int32_t f(struct r *p, int32_t x) {
    struct r z = {0};
    bool b = 0;
    {
        uint32_t t1 = 0;
        while ((!false)) {
            t1 = bl_turn(t1);
            (*p).a[bl_ix_s(x, 3)] = UINT8_C(255);
            break;
        }
    }
    if ((x <= INT32_MIN)) {
        return (-INT32_C(7));
    } else {
        z = (struct r){0};
    }
    g(&z, INT32_C(0));
}
";

/// The same with as little between the words as may be.
const CLOSE: &str =
    "struct r{uint8_t a[3];};static int32_t f(struct r*p,int32_t x){struct r z={0};bool b=0;{uint32_t t1=0;while((!false)){t1=bl_turn(t1);(*p).a[bl_ix_s(x,3)]=UINT8_C(255);break;}}if((x<=INT32_MIN)){return(-INT32_C(7));}else{z=(struct r){0};}g(&z,INT32_C(0));}";

// By itself, since each function in which these thousands of bytes stand takes long to prove.
fn prelude(alloc: Global) -> Result<Vec<u8>, AllocError> {
    Vec::from_slice(alloc, PRELUDE)
}

/// The prelude, and this behind it.
fn c_text(alloc: Global, behind: &str) -> Result<Vec<u8>, AllocError> {
    let mut text = prelude(alloc)?;
    text.extend_from_slice(behind.as_bytes())?;
    Ok(text)
}

/// What is printed of the file that a text spells.
fn printed(alloc: Global, text: &[u8]) -> Result<Vec<u8>, Fail> {
    if text.len() > LONGEST {
        return Err(Fail::new("too long"));
    }
    let file = parse(alloc, text)?;
    match print(alloc, &file) {
        Ok(text) => Ok(text),
        Err(_) => Err(Fail::new("memory")),
    }
}

#[test]
fn each_form_has_its_lines(rt: HostRuntime) -> Result<(), Fail> {
    let lines = c_text(rt.alloc(), LINES)?;
    let again = printed(rt.alloc(), &lines)?;
    assert!(rt; again.as_slice() == lines.as_slice());
    let close = c_text(rt.alloc(), CLOSE)?;
    let apart = printed(rt.alloc(), &close)?;
    assert!(rt; apart.as_slice() == lines.as_slice());
    Ok(())
}

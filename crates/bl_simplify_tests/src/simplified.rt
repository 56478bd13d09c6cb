//! Files before and after they are simplified.

use bl_cparse::parse;
use bl_ctext::{CFile, PRELUDE, print};
use bl_ctext_semantics::check::check;
use bl_simplify::simplified;
use std::alloc::{AllocError, Global};
use std::test::Fail;

/// The longest text that is read.
const LONGEST: usize = 67_108_864;

/// What stands before and behind the function of an activity.
const FRONT: &str = "
struct f_A {
    uint8_t c0;
};

struct bl_state {
    uint8_t pad;
    struct f_A f;
};

struct bl_in {
    uint8_t pad;
    bool i_x;
};

struct bl_out {
    uint8_t pad;
    uint8_t o_y;
};

static void a_A(struct f_A *f, bool *v0_x, uint8_t *v1_y) {
";

const BEHIND: &str = "}

void bl_init(struct bl_state *s) {
    (*s) = (struct bl_state){0};
}

uint32_t bl_tick(struct bl_state *s, struct bl_in *i, struct bl_out *o) {
    a_A(&(*s).f, &(*i).i_x, &(*o).o_y);
    return UINT32_C(0);
}
";

// By itself, since each function in which these thousands of bytes stand takes long to prove.
fn prelude(alloc: Global) -> Result<Vec<u8>, AllocError> {
    Vec::from_slice(alloc, PRELUDE)
}

/// A text with this body of the activity.
fn c_text(alloc: Global, body: &str) -> Result<Vec<u8>, AllocError> {
    let mut text = prelude(alloc)?;
    text.extend_from_slice(FRONT.as_bytes())?;
    text.extend_from_slice(body.as_bytes())?;
    text.extend_from_slice(BEHIND.as_bytes())?;
    Ok(text)
}

/// The file that a text spells, simplified.
fn simplified_file(alloc: Global, text: &[u8]) -> Result<CFile, Fail> {
    if text.len() > LONGEST {
        return Err(Fail::new("too long"));
    }
    let file = parse(alloc, text)?;
    match check(alloc, &file) {
        Ok(()) => match simplified(alloc, file) {
            Ok(new) => Ok(new),
            Err(_) => Err(Fail::new("memory")),
        },
        Err(_) => Err(Fail::new("not well formed")),
    }
}

/// What is printed of the file with this body, simplified.
fn printed(alloc: Global, body: &str) -> Result<Vec<u8>, Fail> {
    let text = c_text(alloc, body)?;
    let new = simplified_file(alloc, &text)?;
    match print(alloc, &new) {
        Ok(text) => Ok(text),
        Err(_) => Err(Fail::new("memory")),
    }
}

#[test]
fn a_flag_goes_where_its_test_is_decided(rt: HostRuntime) -> Result<(), Fail> {
    let new = printed(
        rt.alloc(),
        "    bool g1_when = 0;
    if ((*v0_x)) {
        g1_when = true;
    }
    if (g1_when) {
        (*v1_y) = UINT8_C(7);
    }
",
    )?;
    let aim = c_text(
        rt.alloc(),
        "    if ((*v0_x)) {
        (*v1_y) = UINT8_C(7);
    }
",
    )?;
    assert!(rt; new.as_slice() == aim.as_slice());
    Ok(())
}

#[test]
fn a_state_that_is_left_is_not_asked_again(rt: HostRuntime) -> Result<(), Fail> {
    let new = printed(
        rt.alloc(),
        "    uint8_t w0 = 0;
    w0 = (*f).c0;
    if ((w0 == UINT8_C(0))) {
        (*f).c0 = UINT8_C(1);
    }
    if ((w0 == UINT8_C(1))) {
        (*v1_y) = UINT8_C(3);
        (*f).c0 = UINT8_C(2);
    }
    if ((w0 >= UINT8_C(2))) {
        (*f).c0 = UINT8_C(0);
    }
",
    )?;
    let aim = c_text(
        rt.alloc(),
        "    if (((*f).c0 == UINT8_C(0))) {
        (*f).c0 = UINT8_C(1);
    } else { if (((*f).c0 == UINT8_C(1))) {
        (*v1_y) = UINT8_C(3);
        (*f).c0 = UINT8_C(2);
    } else {
        (*f).c0 = UINT8_C(0);
    }}
",
    )?;
    assert!(rt; new.as_slice() == aim.as_slice());
    Ok(())
}

#[test]
fn a_local_goes_that_only_a_dropped_assignment_reads(rt: HostRuntime) -> Result<(), Fail> {
    let new = printed(
        rt.alloc(),
        "    bool g1_when = 0;
    uint8_t w0 = 0;
    w0 = (*f).c0;
    g1_when = (w0 == UINT8_C(1));
    (*v1_y) = UINT8_C(7);
",
    )?;
    let aim = c_text(
        rt.alloc(),
        "    (*v1_y) = UINT8_C(7);
",
    )?;
    assert!(rt; new.as_slice() == aim.as_slice());
    Ok(())
}

#[test]
fn a_state_that_no_tick_leaves_is_not_asked_for(rt: HostRuntime) -> Result<(), Fail> {
    let new = printed(
        rt.alloc(),
        "    uint8_t w0 = 0;
    bool g1_repeat = 0;
    w0 = (*f).c0;
    g1_repeat = (w0 == UINT8_C(0));
    if ((w0 >= UINT8_C(2))) {
        g1_repeat = true;
    }
    if (g1_repeat) {
        (*v1_y) = UINT8_C(3);
        (*f).c0 = UINT8_C(1);
    }
",
    )?;
    let aim = c_text(
        rt.alloc(),
        "    if (((*f).c0 == UINT8_C(0))) {
        (*v1_y) = UINT8_C(3);
        (*f).c0 = UINT8_C(1);
    }
",
    )?;
    assert!(rt; new.as_slice() == aim.as_slice());
    Ok(())
}

#[test]
fn what_both_branches_end_with_stands_behind_them(rt: HostRuntime) -> Result<(), Fail> {
    let new = printed(
        rt.alloc(),
        "    bool g1_when = 0;
    if ((*v0_x)) {
        g1_when = true;
    }
    if (g1_when) {
        (*v1_y) = UINT8_C(7);
    }
    (*f).c0 = UINT8_C(1);
",
    )?;
    let aim = c_text(
        rt.alloc(),
        "    if ((*v0_x)) {
        (*v1_y) = UINT8_C(7);
    }
    (*f).c0 = UINT8_C(1);
",
    )?;
    assert!(rt; new.as_slice() == aim.as_slice());
    Ok(())
}

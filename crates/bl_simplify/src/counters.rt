//! Which counters functions name.

ghost use Rattle.std.specs.Prelude.{◌≡◌, IfOk, map, true};
ghost use Rattle.std.specs.Char.{is_ascii_digit};
ghost use Rattle.std.specs.List.{list_all, list_any};
ghost use Rattle.bl_ctext_places.specs.Counters.{is_counter_name as counter_name, is_digit_run as digit_run, names_counter as names_one};
ghost use Rattle.bl_ctext_places.specs.Lists.{path_of};
ghost use Rattle.bl_simplify.specs.Counters.{AreOwn, CountersKept, IsOwn};

use bl_ctext_places::in_block;
use bl_tree::NoMemory;
use bl_tree::c::{CFunc, CPlace};
use std::alloc::Global;

fn are_digits(bytes: &[u8]) -> bool
    ensures { result ≡ list_all is_ascii_digit bytes.now }
{
    let mut digits = true;
    for byte in bytes {
        digits &= byte.is_ascii_digit();
    }
    digits
}

/// Whether bytes are decimal digits, one at least.
fn is_digit_run(bytes: &[u8]) -> bool
    ensures { result ≡ digit_run bytes.now }
{
    match bytes {
        [first, rest @ ..] => first.is_ascii_digit() && are_digits(rest),
        [] => false,
    }
}

/// Whether a member has the name of a counter.
fn is_counter_name(name: &[u8]) -> bool
    ensures { result ≡ counter_name name.now }
{
    match name {
        [first, digits @ ..] => *first == b'c' && is_digit_run(digits),
        [] => false,
    }
}

/// Whether a place goes through a member that has the name of a counter.
fn names_counter(place: &CPlace) -> bool
    ensures { result ≡ names_one (path_of place.now) }
{
    let mut names = false;
    for step in place.steps.as_slice() {
        names |= is_counter_name(step.member.as_str().as_bytes());
    }
    names
}

/// Whether a place is a member of `(*f)`.
fn is_own(place: &CPlace) -> bool
    ensures { result ≡ true → IsOwn (path_of place.now) }
{
    match place.steps.as_slice() {
        [_] => place.through && place.name.as_str() == "f",
        _ => false,
    }
}

/// Whether each of the places that name counters is a member of `(*f)`.
fn are_own(places: &[&CPlace]) -> bool
    ensures { result ≡ true → AreOwn (map (λ p. path_of p.now) places.now) }
{
    let mut own = true;
    for place in places {
        own &= !names_counter(place) | is_own(place);
    }
    own
}

/// Whether one of the places names a counter.
fn name_some(places: &[&CPlace]) -> bool
    ensures { result ≡ list_any names_one (map (λ p. path_of p.now) places.now) }
{
    let mut some = false;
    for place in places {
        some |= names_counter(place);
    }
    some
}

/// Whether a function surely names counters only where another one does, and only those of its own frame.
pub fn are_kept(alloc: Global, old: &CFunc, new: &CFunc) -> Result<bool, NoMemory>
    ensures { IfOk result (λ kept. kept ≡ true → CountersKept old.now new.now) }
{
    let mut before = Vec::new(alloc);
    in_block(&mut before, &old.body)?;
    let mut after = Vec::new(alloc);
    in_block(&mut after, &new.body)?;
    Ok(are_own(&after) & (name_some(&before) | !name_some(&after)))
}

//! The functions that a file is called by.
#![tactic(auto, using(crate::proofs::FirstLemmas::places))]

ghost use Rattle.std.specs.Prelude.{◌≡◌, ◌∷◌};
ghost use Rattle.bl_tree.specs.declared.scalar.Scalar.TheVariants.{Nat};
ghost use Rattle.bl_tree.specs.declared.scalar.Width.TheVariants.{W32};
ghost use Rattle.bl_ctext_semantics.specs.Faults.{faults_of_two, first_place, gives as gives_c, init_faults, init_params as init_c_params, interface_faults};
ghost use Rattle.bl_ctext_semantics.specs.Faults.{last_place as last_c_place, last_two as last_two_of, place_of_two as place_of_two_c};
ghost use Rattle.bl_ctext_semantics.specs.Faults.{points_to as points_to_c, tick_faults, tick_params as tick_c_params};

use crate::check::first::{both, earlier, unless};
use crate::check::types::{Ty, same_type};
use bl_tree::c::{CFunc, CParam};
use bl_tree::{Place, Scalar, Width};

/// A file without functions has no place.
const NO_PLACE: Place = Place { start: 0, end: 0 };

/// Whether a parameter is a pointer of this name to the struct.
fn points_to(owner: &str, name: &str, param: &CParam) -> bool
    ensures { result ≡ points_to_c owner.now name.now param.now }
{
    let named = param.name.as_str() == name;
    both(
        param.pointer,
        both(named, same_type(Ty::of(&param.ty), Ty::Struct(owner))),
    )
}

fn init_params(params: &[CParam]) -> bool
    ensures { result ≡ init_c_params params.now }
{
    match params {
        [state] => points_to("bl_state", "s", state),
        _ => false,
    }
}

fn tick_params(params: &[CParam]) -> bool
    ensures { result ≡ tick_c_params params.now }
{
    match params {
        [state, input, output] => {
            let rest = both(
                points_to("bl_in", "i", input),
                points_to("bl_out", "o", output),
            );
            both(points_to("bl_state", "s", state), rest)
        }
        _ => false,
    }
}

/// Whether a function's result is a number of 32 bits without a sign.
fn gives_count(of: &CFunc) -> bool
    ensures { result ≡ gives_c of.now.result (Nat W32) }
{
    match of.result {
        Some(scalar) => scalar == Scalar::Nat(Width::W32),
        None => false,
    }
}

/// Where the function before the last one fails: at itself where it is `bl_init`, and else at the last one.
fn judge_init(of: &CFunc, last: Place) -> Option<Place>
    ensures { result ≡ first_place (init_faults of.now last) }
{
    if of.name.as_str() == "bl_init" {
        unless(both(of.result.is_none(), init_params(&of.params)), of.place)
    } else {
        Some(last)
    }
}

fn judge_tick(of: &CFunc) -> Option<Place>
    ensures { result ≡ first_place (tick_faults of.now) }
{
    let named = of.name.as_str() == "bl_tick";
    unless(
        both(named, both(gives_count(of), tick_params(&of.params))),
        of.place,
    )
}

/// The last two functions, or all where there are fewer.
fn last_two(list: &[CFunc]) -> &[CFunc]
    ensures { result.now ≡ last_two_of list.now }
{
    &list[list.len().saturating_sub(2)..]
}

/// Where a function, which is the last one or has the last one behind it, and that one fail first.
fn judge_two(first: &CFunc, behind: &[CFunc]) -> Option<Place>
    ensures { result ≡ first_place (faults_of_two (first.now ∷ behind.now)) }
{
    match behind {
        [] => earlier(Some(first.place), judge_tick(first)),
        [last, _rest @ ..] => earlier(judge_init(first, last.place), judge_tick(last)),
    }
}

/// Where the two functions that a file is called by fail first.
pub fn judge_interface(list: &[CFunc]) -> Option<Place>
    ensures { result ≡ first_place (interface_faults list.now) }
{
    match last_two(list) {
        [] => Some(NO_PLACE),
        [first, behind @ ..] => judge_two(first, behind),
    }
}

fn place_of_two(first: &CFunc, behind: &[CFunc]) -> Place
    ensures { result ≡ place_of_two_c (first.now ∷ behind.now) }
{
    match behind {
        [] => first.place,
        [last, _rest @ ..] => last.place,
    }
}

/// The place of the last function.
pub fn last_place(list: &[CFunc]) -> Place
    ensures { result ≡ last_c_place list.now }
{
    match last_two(list) {
        [] => NO_PLACE,
        [first, behind @ ..] => place_of_two(first, behind),
    }
}

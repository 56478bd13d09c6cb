//! Whether frames are as they have to be: facts of their structs' scalars, one of which holds where all is 0, and parts that are frames.

ghost use Rattle.std.specs.Prelude.{◌≡◌, Some, map, option_map};
ghost use Rattle.std.specs.List.{list_all, list_any};
ghost use Rattle.bl_ctext_semantics.specs.Faults.{member_table, struct_table};
ghost use Rattle.bl_ctext_semantics.specs.Tables.{found};
ghost use Rattle.bl_simplify_laws_frames.specs.Reached.{entry_fits as fits_entry, frame_fits as fits_frame, frame_for as laws_frame, holds_of_zero as is_fact_of_zero};
ghost use Rattle.bl_simplify_laws_frames.specs.Reached.{is_of_number as is_number_fact, is_scalar_type, is_struct_type, leads_to_scalar as to_scalar, member_type as type_of_member, single_type as type_of_single};
ghost use Rattle.bl_simplify_facts.specs.Entries.{facts_of, valuation};
ghost use Rattle.bl_simplify_frames.specs.Told.{as_frame, as_frames};

use crate::frames::{OwnFrame, Part, frame_for};
use crate::keeps::is_own;
use bl_simplify_facts::entries::{Case, Entry};
use bl_simplify_laws::facts::Fact;
use bl_tree::Text;
use bl_tree::c::{CMember, CStruct, CType};

/// The struct of a name.
fn struct_named<'a>(structs: &'a [CStruct], name: &str) -> Option<&'a CStruct>
    ensures { option_map (λ s. member_table s.now) result ≡ struct_table structs.now name.now }
{
    for of in structs {
        if of.name.as_str() == name {
            return Some(of);
        }
    }
    None
}

/// The member of a name.
fn member_named<'a>(members: &'a [CMember], name: &str) -> Option<&'a CMember>
    ensures { option_map (λ m. m.now) result ≡ found name.now (map (λ m. (m.name, m)) members.now) }
{
    for member in members {
        if member.name.as_str() == name {
            return Some(member);
        }
    }
    None
}

/// The type of a member that is no array.
fn single_type(member: &CMember) -> Option<&CType>
    ensures { option_map (λ t. t.now) result ≡ type_of_single (Some member.now) }
{
    match &member.length {
        None => Some(&member.ty),
        Some(_) => None,
    }
}

/// The type of a struct's member that is no array.
fn member_type<'a>(structs: &'a [CStruct], of: &str, name: &str) -> Option<&'a CType>
    ensures { option_map (λ t. t.now) result ≡ type_of_member structs.now of.now name.now }
{
    match struct_named(structs, of) {
        None => None,
        Some(found) => match member_named(&found.members, name) {
            None => None,
            Some(member) => single_type(member),
        },
    }
}

/// Whether a member is a scalar.
fn is_scalar(structs: &[CStruct], of: &str, name: &str) -> bool
    ensures { result ≡ is_scalar_type (type_of_member structs.now of.now name.now) }
{
    match member_type(structs, of, name) {
        Some(CType::Scalar(_)) => true,
        _ => false,
    }
}

/// Whether a member is the struct of this name.
fn is_struct(structs: &[CStruct], of: &str, name: &str, named: &str) -> bool
    ensures { result ≡ is_struct_type named.now (type_of_member structs.now of.now name.now) }
{
    match member_type(structs, of, name) {
        Some(CType::Struct(other)) => other.as_str() == named,
        _ => false,
    }
}

/// Whether the first member is a scalar of a struct.
fn leads_to_scalar(structs: &[CStruct], of: &str, first: &Option<Text>) -> bool
    ensures { result ≡ to_scalar structs.now of.now first.now }
{
    match first {
        Some(member) => is_scalar(structs, of, member),
        None => false,
    }
}

/// Whether a fact is one of a number alone.
fn is_of_number(fact: Fact) -> bool
    ensures { result ≡ is_number_fact fact }
{
    match fact {
        Fact::Is(_) => false,
        Fact::Number(_) | Fact::AtMost(_) | Fact::AtLeast(_) => true,
    }
}

/// Whether a fact holds of 0.
fn holds_of_zero(fact: Fact) -> bool
    ensures { result ≡ is_fact_of_zero fact }
{
    match fact {
        Fact::Is(n) => n == 0,
        Fact::Number(n) => n == 0,
        Fact::AtMost(n) => 0 <= n,
        Fact::AtLeast(n) => n <= 0,
    }
}

fn entry_fits(structs: &[CStruct], frame: &OwnFrame, entry: &Entry) -> bool
    ensures { result ≡ fits_entry structs.now (as_frame frame.now) (entry.now.spot, entry.now.fact) }
{
    entry.spot.through
        && (entry.spot.name.as_str() == frame.pointer.as_str()
            && (leads_to_scalar(structs, &frame.of, &entry.spot.first) && is_of_number(entry.fact)))
}

fn case_fits(structs: &[CStruct], frame: &OwnFrame, case: &[Entry]) -> bool
    ensures { result ≡ list_all (fits_entry structs.now (as_frame frame.now)) (valuation case.now) }
{
    let mut fits = true;
    for entry in case {
        fits &= entry_fits(structs, frame, entry);
    }
    fits
}

fn cases_fit(structs: &[CStruct], frame: &OwnFrame, cases: &[Case]) -> bool
    ensures { result ≡ list_all (list_all (fits_entry structs.now (as_frame frame.now))) (facts_of cases.now) }
{
    let mut fit = true;
    for case in cases {
        fit &= case_fits(structs, frame, case);
    }
    fit
}

fn is_of_zero(case: &[Entry]) -> bool
    ensures { result ≡ list_all (λ entry. is_fact_of_zero entry.1) (valuation case.now) }
{
    let mut holds = true;
    for entry in case {
        holds &= holds_of_zero(entry.fact);
    }
    holds
}

fn has_zero(cases: &[Case]) -> bool
    ensures { result ≡ list_any (list_all (λ entry. is_fact_of_zero entry.1)) (facts_of cases.now) }
{
    let mut some = false;
    for case in cases {
        some |= is_of_zero(case);
    }
    some
}

/// The struct of the frame of the function of a name.
fn struct_of<'a>(frames: &'a [OwnFrame], name: &str) -> &'a str
    ensures { result.now ≡ (laws_frame (as_frames frames.now) name.now).struct }
{
    match frame_for(frames, name) {
        Some(frame) => &frame.of,
        None => "",
    }
}

fn part_fits(structs: &[CStruct], frames: &[OwnFrame], frame: &OwnFrame, part: &Part) -> bool
    ensures { result ≡ is_struct_type (laws_frame (as_frames frames.now) part.now.function).struct (type_of_member structs.now frame.now.of part.now.member) }
{
    is_struct(
        structs,
        &frame.of,
        &part.member,
        struct_of(frames, &part.function),
    )
}

fn parts_fit(structs: &[CStruct], frames: &[OwnFrame], frame: &OwnFrame) -> bool
    ensures { result ≡ list_all (λ part. is_struct_type (laws_frame (as_frames frames.now) part.1).struct (type_of_member structs.now frame.now.of part.0)) (as_frame frame.now).parts }
{
    let mut fit = true;
    for part in frame.parts.as_slice() {
        fit &= part_fits(structs, frames, frame, part);
    }
    fit
}

fn frame_fits(structs: &[CStruct], frames: &[OwnFrame], frame: &OwnFrame) -> bool
    ensures { result ≡ fits_frame structs.now (as_frames frames.now) (as_frame frame.now) }
{
    is_own(&frame.pointer)
        && (cases_fit(structs, frame, &frame.reached)
            && (has_zero(&frame.reached) && parts_fit(structs, frames, frame)))
}

/// Whether each frame is as it has to be.
pub fn all_fit(structs: &[CStruct], frames: &[OwnFrame]) -> bool
    ensures { result ≡ list_all (fits_frame structs.now (as_frames frames.now)) (as_frames frames.now) }
{
    let mut fit = true;
    for frame in frames {
        fit &= frame_fits(structs, frames, frame);
    }
    fit
}

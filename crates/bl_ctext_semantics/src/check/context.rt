//! What is known of a file where an expression or statement stands.

ghost use Rattle.std.specs.Prelude.{◌≡◌, is_some, map, option_map, slice_get, length};
ghost use Rattle.bl_ctext_semantics.specs.Builtin.{builtin_params, builtin_result, in_c as c_spelled, widest as widest_of};
ghost use Rattle.bl_ctext_semantics.specs.inner.Checked.{context_of, param_of, signature_for, type_of};
ghost use Rattle.bl_ctext_semantics.specs.Faults.{by_value, member_of, signature_in, signature_of};

use crate::check::types::Ty;
use crate::maps::find;
use crate::prelude::Builtins;
use bl_ctext::Builtin;
use bl_tree::c::{CFunc, CMember, CType};
use bl_tree::{Scalar, Width};
use std::collections::HashMap;

/// The members of a struct by name.
pub type Members<'a> = HashMap<&'a str, &'a CMember>;

/// The structs by name.
pub type Structs<'a> = HashMap<&'a str, Members<'a>>;

/// A parameter or local.
#[derive(Clone, Copy)]
pub struct Variable<'a> {
    pub pointer: bool,
    pub ty: &'a CType,
}

/// What is declared where an expression or statement stands.
#[derive(Clone, Copy)]
pub struct Context<'c, 'a> {
    pub builtins: &'c Builtins,
    pub structs: &'c Structs<'a>,
    /// The earlier functions.
    pub functions: &'c HashMap<&'a str, &'a CFunc>,
    pub variables: &'c HashMap<&'a str, Variable<'a>>,
    /// The running function's result.
    pub result: Option<Scalar>,
    /// Whether the running function may change nothing through a pointer.
    pub is_read_only: bool,
}

/// A function that is called.
#[derive(Clone, Copy)]
pub enum Callee<'a> {
    Builtin(Builtin),
    Own(&'a CFunc),
}

/// A parameter of a function that is called.
#[derive(Clone, Copy)]
pub struct Param<'a> {
    pub pointer: bool,
    pub ty: Ty<'a>,
}

impl<'c, 'a> Context<'c, 'a> {
    /// The function of this name, where it may be called.
    pub fn callee(&self, name: &str) -> Option<Callee<'a>>
        ensures { option_map signature_for result ≡ signature_of (context_of self.now) name.now }
    {
        match self.builtins.find(name) {
            Some(Builtin::Stop) => None,
            Some(builtin) => Some(Callee::Builtin(builtin)),
            None => find(self.functions, name).map(Callee::Own),
        }
    }

    pub fn is_struct(&self, name: &str) -> bool
        ensures { result ≡ is_some ((context_of self.now).structs name.now) }
    {
        self.structs.contains_key(&name)
    }

    /// The member of this name, where the type is a struct that has one.
    pub fn member(&self, ty: Ty<'_>, name: &str) -> Option<&'a CMember>
        ensures { option_map (λ member. member.now) result ≡ member_of (context_of self.now) (type_of ty.entry) name.now }
    {
        match ty {
            Ty::Scalar(_) => None,
            Ty::Struct(owner) => match self.structs.get(&owner) {
                Some(members) => find(members, name),
                None => None,
            },
        }
    }
}

impl<'a> Callee<'a> {
    pub fn widens(&self) -> bool
        ensures { result ≡ (signature_for self.now).widens }
    {
        match self {
            Callee::Builtin(_) => true,
            Callee::Own(_) => false,
        }
    }

    pub fn result(&self) -> Option<Scalar>
        ensures { result ≡ (signature_for self.now).result }
    {
        match self {
            Callee::Builtin(builtin) => builtin_result_of(*builtin),
            Callee::Own(function) => function.result,
        }
    }

    /// How many parameters it has.
    pub fn arity(&self) -> usize
        ensures { result ≡ length (signature_for self.now).params }
    {
        match self {
            Callee::Builtin(builtin) => builtin_arity(*builtin),
            Callee::Own(function) => function.params.len(),
        }
    }

    pub fn param(&self, k: usize) -> Option<Param<'a>>
        ensures { option_map param_of result ≡ slice_get (signature_for self.now).params k }
    {
        match self {
            Callee::Builtin(builtin) => builtin_param(*builtin, k),
            Callee::Own(function) => own_param(function, k),
        }
    }
}

fn builtin_result_of(builtin: Builtin) -> Option<Scalar>
    ensures { result ≡ builtin_result builtin }
{
    match builtin {
        Builtin::Two(_, ty) | Builtin::One(_, ty) | Builtin::Cast(_, ty) => Some(in_c(ty)),
        Builtin::Index(_) | Builtin::Turn => Some(Scalar::Nat(Width::W32)),
        Builtin::Stop => None,
    }
}

fn builtin_arity(builtin: Builtin) -> usize
    ensures { result ≡ length (builtin_params builtin) }
{
    match builtin {
        Builtin::Two(_, _) | Builtin::Index(_) => 2,
        Builtin::One(_, _) | Builtin::Cast(_, _) | Builtin::Turn => 1,
        Builtin::Stop => 0,
    }
}

/// The type of a parameter of a function of the prelude.
fn builtin_param<'a>(builtin: Builtin, k: usize) -> Option<Param<'a>>
    ensures { option_map param_of result ≡ slice_get (map by_value (builtin_params builtin)) k }
{
    let ty = match (builtin, k) {
        (Builtin::Two(_, ty), 0 | 1) | (Builtin::One(_, ty), 0) => in_c(ty),
        (Builtin::Cast(signed, _) | Builtin::Index(signed), 0) => widest(signed),
        (Builtin::Index(_), 1) | (Builtin::Turn, 0) => Scalar::Nat(Width::W32),
        _ => return None,
    };
    Some(Param {
        pointer: false,
        ty: Ty::Scalar(ty),
    })
}

/// A parameter of a function of the file.
fn own_param(function: &CFunc, k: usize) -> Option<Param<'_>>
    ensures { option_map param_of result ≡ slice_get (signature_in function.now).params k }
{
    match function.params.get(k) {
        Some(param) => Some(Param {
            pointer: param.pointer,
            ty: Ty::of(&param.ty),
        }),
        None => None,
    }
}

/// A type as C spells it.
fn in_c(ty: Scalar) -> Scalar
    ensures { result ≡ c_spelled ty }
{
    match ty {
        Scalar::Bits(width) => Scalar::Nat(width),
        other => other,
    }
}

/// The type of 64 bits from which a cast or an index takes its number.
fn widest(signed: bool) -> Scalar
    ensures { result ≡ widest_of signed }
{
    if signed {
        Scalar::Int(Width::W64)
    } else {
        Scalar::Nat(Width::W64)
    }
}

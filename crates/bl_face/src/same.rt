//! Whether two faces are one.

ghost use Rattle.std.specs.Prelude.{◌≡◌, ◌↔◌, IsTrue};

use crate::face::Face;
use crate::item::{FaceBase, FaceField, FaceItem, FaceType};

impl Face {
    /// Both have the same items in the same order.
    pub fn is_same(&self, other: &Face) -> bool
        ensures { IsTrue result ↔ (self.now.items ≡ other.now.items) }
    {
        are_same_items(&self.items, &other.items)
    }
}

fn are_same_items(ones: &[FaceItem], others: &[FaceItem]) -> bool
    ensures { IsTrue result ↔ (ones.now ≡ others.now) }
{
    if ones.len() != others.len() {
        return false;
    }
    for k in 0..ones.len() {
        if !is_same_item(&ones[k], &others[k]) {
            return false;
        }
    }
    true
}

fn is_same_item(one: &FaceItem, other: &FaceItem) -> bool
    ensures { IsTrue result ↔ (one.now ≡ other.now) }
{
    match (one, other) {
        (FaceItem::Struct(name, fields), FaceItem::Struct(named, others)) => {
            name.as_str() == named.as_str() && are_same_fields(fields, others)
        }
        (FaceItem::Constant(name, scalar, value), FaceItem::Constant(named, of, number)) => {
            name.as_str() == named.as_str() && *scalar == *of && *value == *number
        }
        (
            FaceItem::Head(kind, name, inputs, outputs, result),
            FaceItem::Head(of, named, ins, outs, given),
        ) => {
            *kind == *of
                && name.as_str() == named.as_str()
                && are_same_fields(inputs, ins)
                && are_same_fields(outputs, outs)
                && *result == *given
        }
        _ => false,
    }
}

fn are_same_fields(ones: &[FaceField], others: &[FaceField]) -> bool
    ensures { IsTrue result ↔ (ones.now ≡ others.now) }
{
    if ones.len() != others.len() {
        return false;
    }
    for k in 0..ones.len() {
        if !is_same_field(&ones[k], &others[k]) {
            return false;
        }
    }
    true
}

fn is_same_field(one: &FaceField, other: &FaceField) -> bool
    ensures { IsTrue result ↔ (one.now ≡ other.now) }
{
    one.name.as_str() == other.name.as_str() && is_same_type(&one.ty, &other.ty)
}

fn is_same_type(one: &FaceType, other: &FaceType) -> bool
    ensures { IsTrue result ↔ (one.now ≡ other.now) }
{
    one.lengths.as_slice() == other.lengths.as_slice() && is_same_base(&one.base, &other.base)
}

fn is_same_base(one: &FaceBase, other: &FaceBase) -> bool
    ensures { IsTrue result ↔ (one.now ≡ other.now) }
{
    match (one, other) {
        (FaceBase::Scalar(scalar), FaceBase::Scalar(of)) => *scalar == *of,
        (FaceBase::Struct(name), FaceBase::Struct(named)) => name.as_str() == named.as_str(),
        _ => false,
    }
}

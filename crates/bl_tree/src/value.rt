//! Values of variables.

use crate::List;

/// A value of a type: the number of a scalar (a bool is 1 or 0), else the values of the fields or elements in order.
#[cycle(values)]
#[derive(Drop)]
pub enum Value {
    Number(i128),
    Parts(List<Value>),
}

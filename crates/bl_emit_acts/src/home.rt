//! Where variables stand.

/// Where a variable of a unit stands in C.
#[derive(Clone, Copy, PartialEq, Eq, Debug)]
pub enum Home {
    /// A member of the struct `m`, which has what the unit declares.
    Held,
    /// A local of the C function: a parameter by value, or a variable that it declares.
    Local,
    /// What a parameter points to.
    Lent,
}

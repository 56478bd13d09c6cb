//! The room that lists take. The tree of a text holds many, and most of them are short.

ghost use Rattle.std.specs.Prelude.{◌≡◌, [], ◌∷◌, ◌++◌, OnOk, OnErr};

use bl_tree::List;
use std::alloc::{AllocError, Global};
use std::mem;

/// `List::push`, where an empty list gets room for `first` elements, and one that has no more for as many again.
pub fn push<T: Drop>(
    alloc: Global,
    list: &mut List<T>,
    element: T,
    first: usize,
) -> Result<(), AllocError>
    ensures ok { OnOk result (list.new ≡ list.old ++ element ∷ []) }
    ensures err { OnErr result (list.new ≡ list.old) }
{
    if list.is_empty() {
        *list = List::from_vec(Vec::with_capacity(alloc, first)?);
    } else if list.len() == first {
        widen(alloc, list, first)?;
    }
    list.push(element)
}

/// Gives a list room for so many further elements.
fn widen<T: Drop>(alloc: Global, list: &mut List<T>, more: usize) -> Result<(), AllocError>
    ensures { list.new ≡ list.old }
{
    let mut elements = mem::replace(list, List::new(alloc)).into_vec();
    let outcome = elements.reserve_exact(more);
    *list = List::from_vec(elements);
    outcome
}

/// A whole list, which keeps room for no further element.
pub fn fitted<T>(list: List<T>) -> List<T>
    ensures { result ≡ list }
{
    let mut elements = list.into_vec();
    elements.shrink_to_fit();
    List::from_vec(elements)
}

//! Static field paths: what effects name.

ghost use Rattle.std.specs.Prelude.{◌≡◌, ◌++◌, IfOk, OnOk};
ghost use Rattle.std.specs.Cmp.{partial_equiv_from_equiv, eq_by_cmp_equiv, partial_order_from_total};
ghost use Rattle.std.specs.Ordering.{as_partial_cmp, eq_by_cmp};
ghost use Rattle.std.proofs.Common.{refl};
ghost use Rattle.bl_tree.specs.Order.{static_cmp, static_cmp_total};

use crate::{List, NoMemory};
use std::alloc::Global;
use std::cmp::Ordering;

/// A variable of a unit with its fields up to the first index.
#[derive(Drop)]
pub struct Static {
    pub root: u32,
    /// Positions of fields, from the outermost inwards.
    pub fields: List<u32>,
}

impl PartialEq for Static {
    ghost eq = { eq_by_cmp static_cmp };

    ghost laws = { partial_equiv_from_equiv (eq_by_cmp_equiv static_cmp_total) };

    fn eq(&self, other: &Static) -> bool {
        self.cmp(other).is_eq()
    }
}

impl Eq for Static {
    ghost laws = { eq_by_cmp_equiv static_cmp_total };
}

impl PartialOrd for Static {
    ghost partial_cmp = { as_partial_cmp static_cmp };

    ghost laws = { partial_order_from_total static_cmp_total };

    fn partial_cmp(&self, other: &Static) -> Option<Ordering> {
        Some(self.cmp(other))
    }
}

impl Ord for Static {
    ghost cmp = { static_cmp };

    ghost total = { static_cmp_total };

    ghost matches_partial_cmp = { λ a b. refl };

    ghost matches_eq = { λ a b. refl };

    fn cmp(&self, other: &Static) -> Ordering {
        match self.root.cmp(&other.root) {
            Ordering::Equal => self.fields.as_slice().cmp(&other.fields.as_slice()),
            order => order,
        }
    }
}

/// The same static path once more. Fails only for want of memory.
pub fn copy_of(alloc: Global, path: &Static) -> Result<Static, NoMemory>
    ensures { IfOk result (λ made. made ≡ path.now) }
{
    let mut fields = List::new(alloc);
    for k in path.fields.iter() {
        fields.push(*k)?;
    }
    Ok(Static {
        root: path.root,
        fields,
    })
}

/// Appends copies of the paths.
pub fn append_copies(
    alloc: Global,
    paths: &[Static],
    into: &mut List<Static>,
) -> Result<(), NoMemory>
    ensures { OnOk result (into.new ≡ into.old ++ paths.now) }
{
    for path in paths {
        into.push(copy_of(alloc, path)?)?;
    }
    Ok(())
}

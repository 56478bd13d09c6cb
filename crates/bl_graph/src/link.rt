//! Control edges by the numbers of nodes.

ghost use Rattle.std.specs.Prelude.{◌≡◌, ◌∷◌, [], ◌++◌, OnOk};
ghost use Rattle.bl_graph.specs.inner.Parts.{depth_links, into_block, link_if, links_all, links_each, links_from, number_if, surface_links};

use crate::part::Out;
use bl_tree::graph::Edge;
use bl_tree::{List, NoMemory};

/// Appends an edge, where the test is true.
pub fn link_if(test: bool, from: u32, to: u32, control: &mut List<Edge>) -> Result<(), NoMemory>
    ensures { OnOk result (control.new ≡ control.old ++ link_if test from to) }
{
    if test {
        control.push(Edge {
            from,
            to,
            by_data: false,
        })?;
    }
    Ok(())
}

/// Appends the edges from a node to these.
pub fn link_from(from: u32, to: &[u32], control: &mut List<Edge>) -> Result<(), NoMemory>
    ensures { OnOk result (control.new ≡ control.old ++ links_from from to.now) }
{
    for k in to {
        control.push(Edge {
            from,
            to: *k,
            by_data: false,
        })?;
    }
    Ok(())
}

/// Appends the edges from these to a node.
pub fn link_each(outs: &[Out], to: u32, control: &mut List<Edge>) -> Result<(), NoMemory>
    ensures { OnOk result (control.new ≡ control.old ++ links_each outs.now to) }
{
    for out in outs {
        control.push(Edge {
            from: out.node,
            to,
            by_data: false,
        })?;
    }
    Ok(())
}

/// Appends the edges from these to those.
pub fn link_all(outs: &[Out], to: &[u32], control: &mut List<Edge>) -> Result<(), NoMemory>
    ensures { OnOk result (control.new ≡ control.old ++ links_all outs.now to.now) }
{
    for k in to {
        link_each(outs, *k, control)?;
    }
    Ok(())
}

/// Appends the edges from those of these to a node that are in the surface.
pub fn link_surface(outs: &[Out], to: u32, control: &mut List<Edge>) -> Result<(), NoMemory>
    ensures { OnOk result (control.new ≡ control.old ++ surface_links outs.now to) }
{
    for out in outs {
        link_if(out.mark.surface, out.node, to, control)?;
    }
    Ok(())
}

/// Appends the edges from those of these to a node that are in the depth.
pub fn link_depth(outs: &[Out], to: u32, control: &mut List<Edge>) -> Result<(), NoMemory>
    ensures { OnOk result (control.new ≡ control.old ++ depth_links outs.now to) }
{
    for out in outs {
        link_if(out.mark.depth, out.node, to, control)?;
    }
    Ok(())
}

/// Appends the edges from a node to a block: to its first node or, where it is empty, to what follows it.
pub fn link_into(
    from: u32,
    empty: bool,
    first: u32,
    next: &[u32],
    control: &mut List<Edge>,
) -> Result<(), NoMemory>
    ensures { OnOk result (control.new ≡ control.old ++ links_from from (into_block empty first next.now)) }
{
    if empty {
        link_from(from, next, control)
    } else {
        link_if(true, from, first, control)
    }
}

/// Appends the edge from a node to a block, or to the one that follows it.
pub fn link_lead(
    from: u32,
    empty: bool,
    first: u32,
    next: u32,
    control: &mut List<Edge>,
) -> Result<(), NoMemory>
    ensures { OnOk result (control.new ≡ control.old ++ links_from from (into_block empty first (next ∷ []))) }
{
    if empty {
        link_if(true, from, next, control)
    } else {
        link_if(true, from, first, control)
    }
}

/// Appends a number, where the test is true.
pub fn push_if(test: bool, number: u32, into: &mut List<u32>) -> Result<(), NoMemory>
    ensures { OnOk result (into.new ≡ into.old ++ number_if test number) }
{
    if test {
        into.push(number)?;
    }
    Ok(())
}

//! Label and sort distinguish the nodes of a body (`specs/Keys.antt`, `NodesHaveKeys`). Lemmas only.

ghost use Rattle.bl_machine_pass_laws.specs.Keys.{NodesHaveKeys};

/// Label and sort tell the nodes of a body apart, and none stands twice.
pub fn nodes_have_keys()
    ensures { NodesHaveKeys }
{}

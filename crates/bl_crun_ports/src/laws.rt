//! Where the cells of a file's ports stand.

ghost use Rattle.bl_ctext_semantics.specs.Parts.{parts_of};
ghost use Rattle.bl_crun_ports.specs.Ports.{PortsStand};

use bl_ctext::CFile;

/// In a well-formed file the cells of the inputs stand one by one behind the cells of the state and `pad`, and those of
/// the outputs behind the cells of the state, those of the input object and `pad`.
pub fn ports_stand(_file: &CFile)
    ensures { PortsStand (parts_of _file.now) }
{}

//! Files of a program, compiled one after another.

ghost use Rattle.std.specs.Prelude.{◌≡◌, ◌+◌, ◌<◌, ◌≤◌, [], ◌∷◌, ◌++◌, length, nat_eq, IfErr, IfOk};

use crate::fault::LinkFault;
use crate::linked::link;
use bl_face::Face;
use bl_module::{Part, PartFault, compile};
use bl_module_laws_faces::faces::faces_declare;
use bl_rules::AcceptedSource;
use bl_tree::{List, NoMemory};
use std::alloc::Global;
use std::marker::Model;

/// The first files of a program, each compiled behind the faces of those before it.
#[derive(Drop)]
pub struct FirstFiles {
    /// How many files the program has.
    count: usize,
    parts: List<Part>,
    /// Those of the parts.
    faces: List<Face>,
}

impl Model for FirstFiles {
    ghost use Rattle.bl_link.specs.Files.{SeenFiles};
    ghost use Rattle.bl_link.specs.Fits.{part_texts};
    ghost use Rattle.bl_link.specs.inner.Whole.{AreFirst};

    ghost Value = { SeenFiles };

    ghost view = { λ files. record { count = files.count; texts = part_texts files.parts; faces = files.faces } };

    ghost invariant = { λ files. AreFirst files.count files.parts files.faces };
}

impl FirstFiles {
    ghost use Rattle.bl_link.specs.Files.{AreFilesOf, NextStops, JoinedStops, SeenFiles, files_with};
    ghost use Rattle.bl_link.specs.inner.Whole.{AreFirst};
    ghost use Rattle.bl_module.specs.Faces.{items_of};
    ghost use Rattle.bl_module.specs.Parts.{SeenPart};
    ghost use Rattle.bl_module_laws.specs.Files.{AreGoodFiles};
    ghost use Rattle.bl_rules_laws_sizes.specs.Small.{IsOfSmallTree};

    /// No file yet, of so many.
    pub fn new(alloc: Global, count: usize) -> FirstFiles
        requires some { 1 ≤ count }
        requires few { count ≤ 64 }
        ensures { result ≡ files_with count [] [] }
    {
        FirstFiles {
            count,
            parts: List::new(alloc),
            faces: List::new(alloc),
        }
    }

    /// Compiles the next file behind the faces of those before it. Else the first rule that fails for it.
    pub fn with(self, alloc: Global, text: &[u8]) -> Result<FirstFiles, PartFault>
        requires room { length self.texts < self.count }
        ensures count { IfOk result (λ files. files.count ≡ self.count) }
        ensures texts { IfOk result (λ files. files.texts ≡ self.texts ++ text.now ∷ []) }
        ensures fault { IfErr result (NextStops self.count self.texts text.now) }
    {
        let last = self.parts.len() + 1 == self.count;
        let part = match compile(alloc, text, &self.faces, last) {
            Ok(part) => part,
            Err(fault) => return Err(fault),
        };
        match self.with_part(alloc, part) {
            Ok(files) => Ok(files),
            Err(NoMemory) => Err(PartFault::NoMemory),
        }
    }

    /// The files with a part behind them. The face of the part stands behind those before it, as `faces_declare` says.
    fn with_part(self, alloc: Global, part: Part) -> Result<FirstFiles, NoMemory>
        requires room { length self.texts < self.count }
        requires uses { items_of part.uses ≡ items_of self.faces }
        requires last { part.last ≡ nat_eq (length self.texts + 1) self.count }
        ensures count { IfOk result (λ files. files.count ≡ self.count) }
        ensures texts { IfOk result (λ files. files.texts ≡ self.texts ++ part.text ∷ []) }
    {
        faces_declare();
        part.is_part();
        let face = part.face().copy(alloc)?;
        let FirstFiles {
            count,
            mut parts,
            mut faces,
        } = self;
        faces.push(face)?;
        parts.push(part)?;
        Ok(FirstFiles {
            count,
            parts,
            faces,
        })
    }

    /// The program of all files. Else the first rule that fails for the joined texts.
    pub fn link(&self, alloc: Global) -> Result<AcceptedSource, LinkFault>
        requires all { length self.now.texts ≡ self.now.count }
        ensures accepted { IfOk result (λ accepted. AreFilesOf self.now.texts accepted.program) }
        ensures of_small_tree { IfOk result (λ accepted. IsOfSmallTree accepted.program) }
        ensures fault { IfErr result (JoinedStops self.now.texts) }
    {
        match link(alloc, &self.parts) {
            Ok(accepted) => Ok(accepted),
            Err(fault) => Err(fault),
        }
    }

    /// Each file is good behind the faces of those before it.
    pub fn are_good(&self)
        ensures { AreGoodFiles self.now.count self.now.texts self.now.faces }
    {
        let _ = &self.parts;
    }
}

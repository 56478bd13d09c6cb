//! The command `face P FACE..`.

ghost use Rattle.std.specs.Prelude.{◌≡◌, ◌≤◌, map, string_bytes, IfOk, Some};
ghost use Rattle.bl_face.specs.Text.{face_text};
ghost use Rattle.bl_io.specs.Count.{NeverFell};
ghost use Rattle.bl_top_args.specs.Jobs.{face};
ghost use Rattle.bl_top_commands.specs.Calls.{Output, call_of, output_of};
ghost use Rattle.bl_top_commands.specs.Face.{FaceEnds};
ghost use Rattle.bl_top_commands.specs.inner.Outcomes.{IsEndAtFiles, IsEndAtPart, IsTold, line_in};
ghost use Rattle.bl_top_commands.specs.Notes.{bad_face_line, line_of, no_face_line};
ghost use Rattle.bl_top_commands.specs.Reads.{Reads, files_read};
ghost use Rattle.bl_top_commands.specs.Results.{WritesResult};

use crate::outcome::Outcome;
use crate::source::refused_by;
use crate::status::Status;
use crate::write::write_result;
use bl_face::{Face, print_face};
use bl_io::{Files, Sink};
use bl_module::PartFault;
use bl_module_files::{FilesFault, face_of_file};
use itoa::Buffer;
use std::alloc::{AllocError, Global};

/// Judges the source file of this name behind the interface files, and writes its interface.
pub fn face<F: Files, O: Sink>(
    alloc: Global,
    source: &str,
    faces: &[String],
    files: &mut F,
    out: &mut O,
) -> Outcome
    ensures ends { (notes : Output) → FaceEnds
        (call_of (F.left files.old) (F.left files.new) (F.faults files.old) (F.faults files.new)
        (output_of (O.faults out.old) (O.faults out.new) (O.held out.old) (O.held out.new)) notes)
        source.now (map string_bytes faces.now) result.status (line_in result) }
    ensures reads { Reads (files_read (Some (face source.now (map string_bytes faces.now)))) (F.left files.old) (F.left files.new) }
    ensures file_counts { NeverFell (F.faults files.old) (F.faults files.new) }
    ensures out_count { O.faults out.old ≤ O.faults out.new }
{
    match face_of_file(alloc, source, faces, files) {
        Ok(face) => write_face(alloc, &face, out),
        Err(fault) => end_at_files(alloc, &fault),
    }
}

fn write_face<O: Sink>(alloc: Global, face: &Face, out: &mut O) -> Outcome
    ensures writes { WritesResult (λ text. text ≡ face_text face.now)
        (output_of (O.faults out.old) (O.faults out.new) (O.held out.old) (O.held out.new)) result.status }
    ensures line { line_in result ≡ line_of result.status }
    ensures out_count { O.faults out.old ≤ O.faults out.new }
{
    match print_face(alloc, face) {
        Ok(text) => write_result(alloc, &text, out),
        Err(_) => Outcome::plain(alloc, Status::NoMemory),
    }
}

/// How the job ends of a source that has no face behind the interface files.
fn end_at_files(alloc: Global, fault: &FilesFault) -> Outcome
    ensures { IsEndAtFiles fault.now result }
{
    match fault {
        FilesFault::Unread => Outcome::plain(alloc, Status::ReadFault),
        FilesFault::NotFace { file, at } => no_face(alloc, *file, *at),
        FilesFault::NoPart(fault) => end_at_part(alloc, fault),
        FilesFault::NoMemory => Outcome::plain(alloc, Status::NoMemory),
    }
}

/// How the job ends of a source that has no part behind the faces.
fn end_at_part(alloc: Global, fault: &PartFault) -> Outcome
    ensures { IsEndAtPart fault.now result }
{
    match fault {
        PartFault::BadFace { face } => bad_face(alloc, *face),
        PartFault::Rule { rule, place, also } => refused_by(alloc, *rule, *place, also),
        PartFault::NoMemory => Outcome::plain(alloc, Status::NoMemory),
    }
}

fn bad_face(alloc: Global, file: usize) -> Outcome
    ensures { IsTold Status.NotFace (bad_face_line file) result }
{
    Outcome::numbered(alloc, Status::NotFace, "not face: file ", file as u64)
}

fn no_face(alloc: Global, file: usize, at: u32) -> Outcome
    ensures { IsTold Status.NotFace (no_face_line file at) result }
{
    match no_face_line(alloc, file, at) {
        Ok(line) => Outcome {
            status: Status::NotFace,
            line,
        },
        Err(_) => Outcome::plain(alloc, Status::NoMemory),
    }
}

fn no_face_line(alloc: Global, file: usize, at: u32) -> Result<Vec<u8>, AllocError>
    ensures { IfOk result (λ line. line.items ≡ no_face_line file at) }
{
    let mut line = Vec::from_slice(alloc, b"not face: file ")?;
    let mut buffer = Buffer::new();
    line.extend_from_slice(buffer.format(file).as_bytes())?;
    line.extend_from_slice(b" at ")?;
    line.extend_from_slice(buffer.format(at).as_bytes())?;
    line.extend_from_slice(b"\n")?;
    Ok(line)
}

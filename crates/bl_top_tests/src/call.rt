//! One call of the program over memory.

use bl_io::{MemFiles, MemSink};
use bl_plant::Plant;
use bl_top::blechc;
use std::alloc::Global;
use std::test::Fail;

/// What is asked of the program.
#[derive(Clone, Copy)]
pub enum Command {
    Build,
    Run,
    /// By seed 0.
    Walk,
    /// By all these words.
    Drive(&'static [&'static str]),
}

impl Command {
    fn words(self) -> &'static [&'static str] {
        match self {
            Command::Build => &["build", "text"],
            Command::Run => &["run", "text", "rows"],
            Command::Walk => &["walk", "text", "rows", "0"],
            Command::Drive(words) => words,
        }
    }
}

/// How the files or the sink of a call move bytes.
#[derive(Clone, Copy)]
pub struct Course {
    /// Whether a call moves a byte at most.
    pub is_narrow: bool,
    /// The call that fails, counted from 1; none at 0.
    pub failing: u32,
}

/// All that is asked for is moved at once.
pub const SMOOTH: Course = Course {
    is_narrow: false,
    failing: 0,
};

/// A call on the files `text` and `rows`. A file is absent where nothing is said of its bytes.
#[derive(Clone, Copy)]
pub struct Case<'a> {
    pub command: Command,
    pub text: Option<&'a [u8]>,
    pub rows: Option<&'a [u8]>,
    pub reads: Course,
    pub writes: Course,
    pub notes: Course,
}

/// A call on two files that are there.
pub fn smooth<'a>(command: Command, text: &'a [u8], rows: &'a str) -> Case<'a> {
    Case {
        command,
        text: Some(text),
        rows: Some(rows.as_bytes()),
        reads: SMOOTH,
        writes: SMOOTH,
        notes: SMOOTH,
    }
}

/// What comes of a call.
#[derive(Drop)]
pub struct Answer {
    pub status: u8,
    pub files: MemFiles,
    pub notes: MemSink,
    pub out: MemSink,
}

fn words_of(alloc: Global, command: Command) -> Result<Vec<String>, Fail> {
    let mut words = Vec::new(alloc);
    for word in command.words().iter() {
        words.push(String::from_str(alloc, word)?)?;
    }
    Ok(words)
}

fn add(alloc: Global, files: &mut MemFiles, name: &str, bytes: Option<&[u8]>) -> Result<(), Fail> {
    if let Some(bytes) = bytes {
        files.add(name, bytes.to_vec(alloc)?)?;
    }
    Ok(())
}

fn files_of(alloc: Global, case: &Case) -> Result<MemFiles, Fail> {
    let mut files = MemFiles::new(alloc);
    if case.reads.is_narrow {
        files.narrow(1);
    }
    files.fail_at(case.reads.failing)?;
    add(alloc, &mut files, "text", case.text)?;
    add(alloc, &mut files, "rows", case.rows)?;
    Ok(files)
}

fn sink_of(alloc: Global, course: Course) -> Result<MemSink, Fail> {
    let mut sink = MemSink::new(alloc);
    if course.is_narrow {
        sink.narrow(1);
    }
    sink.fail_at(course.failing)?;
    Ok(sink)
}

/// The status that the program ends with.
fn status_of(
    alloc: Global,
    words: &[String],
    files: &mut MemFiles,
    out: &mut MemSink,
    notes: &mut MemSink,
    plants: &mut Vec<Box<dyn Plant>>,
) -> u8 {
    blechc(alloc, words, files, out, notes, plants).code()
}

/// Calls the program with no plants.
pub fn answer_of(alloc: Global, case: &Case) -> Result<Answer, Fail> {
    let mut plants: Vec<Box<dyn Plant>> = Vec::new(alloc);
    answer_among(alloc, case, &mut plants)
}

/// Calls the program with these plants.
pub fn answer_among(
    alloc: Global,
    case: &Case,
    plants: &mut Vec<Box<dyn Plant>>,
) -> Result<Answer, Fail> {
    let words = words_of(alloc, case.command)?;
    let mut files = files_of(alloc, case)?;
    let mut out = sink_of(alloc, case.writes)?;
    let mut notes = sink_of(alloc, case.notes)?;
    let status = status_of(alloc, &words, &mut files, &mut out, &mut notes, plants);
    Ok(Answer {
        status,
        files,
        notes,
        out,
    })
}

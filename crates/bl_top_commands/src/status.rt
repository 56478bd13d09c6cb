//! Statuses of calls.

ghost use Rattle.std.specs.Prelude.{◌≡◌};
ghost use Rattle.bl_top_commands.specs.Notes.{exit_code_of};

/// How a call of the program ended (docs/FORMATS.md, "Notes").
#[derive(Clone, Copy, PartialEq, Eq, Debug)]
pub enum Status {
    Ok,
    /// A rule refuses the source (docs/LANGUAGE.md, "Rules").
    Refused,
    /// The words ask for no job.
    Usage,
    /// A read of a file that the words name failed.
    ReadFault,
    /// A write on one of the two sinks failed.
    WriteFault,
    /// A line of the file of rows is bad (docs/FORMATS.md, "Rows").
    BadRows,
    /// A tick trapped.
    Trapped,
    NoMemory,
    /// The text spells no C file of the subset, or one that isn't well formed (docs/C_SUBSET.md).
    NotSubset,
    /// A plant that the words name has failed.
    PlantFault,
    /// A plant that the words name isn't there or was named before, the plants have more or fewer columns than the
    /// source has inputs, or a number of theirs is outside its type.
    PlantShape,
    /// The C text is too long, its file needs too many cells, or a program would have too many stages.
    TooLarge,
    /// A run whose state was to be saved has ended, so it has none to go on from.
    SaveEnded,
    /// A file holds no saved state of the C text (docs/FORMATS.md, "Saved states").
    BadState,
    /// A file is no interface, or one that can't stand behind those before it (docs/FORMATS.md, "Interfaces").
    NotFace,
}

impl Status {
    /// The number that the process ends with.
    pub fn code(self) -> u8
        ensures { result ≡ exit_code_of self }
    {
        match self {
            Status::Ok => 0,
            Status::Refused => 1,
            Status::Usage => 2,
            Status::ReadFault => 3,
            Status::WriteFault => 4,
            Status::BadRows => 5,
            Status::Trapped => 6,
            Status::NoMemory => 7,
            Status::NotSubset => 8,
            Status::PlantFault => 9,
            Status::PlantShape => 10,
            Status::TooLarge => 11,
            Status::SaveEnded => 14,
            Status::BadState => 15,
            Status::NotFace => 13,
        }
    }
}

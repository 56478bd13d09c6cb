//! Laws of the files that jobs read, and of what they run.

ghost use Rattle.bl_top_commands.specs.Laws.{FaultsCountFromBefore, KeptFilesAreWithinLimits, ProgramsRunAsTheirSource};

/// Files that are left as they are keep the limits within which a job reads them.
pub fn kept_files_are_within_limits()
    ensures { KeptFilesAreWithinLimits }
{}

/// What runs the program of a source runs the source.
pub fn programs_run_as_their_source()
    ensures { ProgramsRunAsTheirSource }
{}

/// How a run over rows ends holds too where the faults of their file are counted from before it.
pub fn faults_count_from_before()
    ensures { FaultsCountFromBefore }
{}

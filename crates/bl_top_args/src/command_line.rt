//! The commands as the parser of words is told of them, and what it read.
ghost use Rattle.std.specs.Prelude.{◌≡◌, IfOk, codes, false, option_map};
ghost use Rattle.clap.specs.Words.{app_of, first_value, found_of, subcommand_rows_of};
ghost use Rattle.clap.specs.declared.builder.command.Command.TheViews.{out-Command};
ghost use Rattle.bl_top_args.specs.inner.CommandLine.{command_line, job_read, one_command, one_if_read, one_read, three_command};
ghost use Rattle.bl_top_args.specs.inner.CommandLine.{three_read, two_command, two_read};
ghost use Rattle.bl_top_args.specs.inner.CommandLine.{two_or_three_command, two_or_three_read};
ghost use Rattle.bl_top_args.specs.Jobs.{bound, build, check, count, exec, resumed, run, save, save_from, seeded, spec_of, staged};

use crate::job::Job;
use crate::seed::seed_of;
use crate::stages::stages_of;
use clap::{Arg, ArgMatches, Command};
use std::alloc::{AllocError, Global};

/// All commands. A first word that names none of them, too few and too many words are errors, and no word
/// asks for help or a version.
pub(crate) fn command_line<'a>(alloc: Global) -> Result<Command<'a>, AllocError>
    ensures { IfOk result (λ command. app_of command ≡ command_line) }
{
    Command::new(alloc, "blechc")
        .no_binary_name(true)
        .disable_help_flag(true)
        .disable_help_subcommand(true)
        .disable_version_flag(true)
        .subcommand_required(true)
        .subcommand(one_command(alloc, "check")?)?
        .subcommand(one_command(alloc, "build")?)?
        .subcommand(two_command(alloc, "run")?)?
        .subcommand(three_command(alloc, "walk")?)?
        .subcommand(two_command(alloc, "exec")?)?
        .subcommand(one_command(alloc, "gen")?)?
        .subcommand(one_command(alloc, "bound")?)?
        .subcommand(two_command(alloc, "count")?)?
        .subcommand(two_or_three_command(alloc, "save")?)?
        .subcommand(three_command(alloc, "resume")?)
}

fn one_command<'a>(alloc: Global, name: &'a str) -> Result<Command<'a>, AllocError>
    ensures { IfOk result (λ command. (app_of command ≡ one_command name.now)
        × ((out-Command command).has_globals ≡ false)) }
{
    let first = Arg::new(alloc, "first").required(true);
    Command::new(alloc, name).arg(first)
}

fn two_command<'a>(alloc: Global, name: &'a str) -> Result<Command<'a>, AllocError>
    ensures { IfOk result (λ command. (app_of command ≡ two_command name.now)
        × ((out-Command command).has_globals ≡ false)) }
{
    let second = Arg::new(alloc, "second").required(true);
    one_command(alloc, name)?.arg(second)
}

fn three_command<'a>(alloc: Global, name: &'a str) -> Result<Command<'a>, AllocError>
    ensures { IfOk result (λ command. (app_of command ≡ three_command name.now)
        × ((out-Command command).has_globals ≡ false)) }
{
    let third = Arg::new(alloc, "third").required(true);
    two_command(alloc, name)?.arg(third)
}

fn two_or_three_command<'a>(alloc: Global, name: &'a str) -> Result<Command<'a>, AllocError>
    ensures { IfOk result (λ command. (app_of command ≡ two_or_three_command name.now)
        × ((out-Command command).has_globals ≡ false)) }
{
    let third = Arg::new(alloc, "third");
    two_command(alloc, name)?.arg(third)
}

/// The job of the command that was read.
pub(crate) fn job_read<'a>(matches: &ArgMatches<'a>) -> Option<Job<'a>>
    ensures { option_map spec_of result ≡ job_read (subcommand_rows_of matches.now) }
{
    let (name, values) = matches.subcommand()?;
    match name {
        "check" => check_read(values),
        "build" => build_read(values),
        "run" => run_read(values),
        "walk" => walk_read(values),
        "exec" => exec_read(values),
        "gen" => gen_read(values),
        "bound" => bound_read(values),
        "count" => count_read(values),
        "save" => save_read(values),
        "resume" => resume_read(values),
        _ => None,
    }
}

fn check_read<'a>(values: &ArgMatches<'a>) -> Option<Job<'a>>
    ensures { option_map spec_of result
        ≡ one_read check (first_value (found_of values.now) (codes "first")) }
{
    let source = values.get_str("first")?;
    Some(Job::Check { source })
}

fn build_read<'a>(values: &ArgMatches<'a>) -> Option<Job<'a>>
    ensures { option_map spec_of result
        ≡ one_read build (first_value (found_of values.now) (codes "first")) }
{
    let source = values.get_str("first")?;
    Some(Job::Build { source })
}

fn run_read<'a>(values: &ArgMatches<'a>) -> Option<Job<'a>>
    ensures { option_map spec_of result
        ≡ two_read run (first_value (found_of values.now) (codes "first"))
        (first_value (found_of values.now) (codes "second")) }
{
    let source = values.get_str("first")?;
    let rows = values.get_str("second")?;
    Some(Job::Run { source, rows })
}

fn walk_read<'a>(values: &ArgMatches<'a>) -> Option<Job<'a>>
    ensures { option_map spec_of result
        ≡ three_read seeded (first_value (found_of values.now) (codes "first"))
        (first_value (found_of values.now) (codes "second")) (first_value (found_of values.now) (codes "third")) }
{
    let source = values.get_str("first")?;
    let rows = values.get_str("second")?;
    let seed = seed_of(values.get_str("third")?)?;
    Some(Job::Walk { source, rows, seed })
}

fn exec_read<'a>(values: &ArgMatches<'a>) -> Option<Job<'a>>
    ensures { option_map spec_of result
        ≡ two_read exec (first_value (found_of values.now) (codes "first"))
        (first_value (found_of values.now) (codes "second")) }
{
    let text = values.get_str("first")?;
    let rows = values.get_str("second")?;
    Some(Job::Exec { text, rows })
}

fn gen_read<'a>(values: &ArgMatches<'a>) -> Option<Job<'a>>
    ensures { option_map spec_of result
        ≡ one_if_read staged (first_value (found_of values.now) (codes "first")) }
{
    let stages = stages_of(values.get_str("first")?)?;
    Some(Job::Gen { stages })
}

fn bound_read<'a>(values: &ArgMatches<'a>) -> Option<Job<'a>>
    ensures { option_map spec_of result
        ≡ one_read bound (first_value (found_of values.now) (codes "first")) }
{
    let text = values.get_str("first")?;
    Some(Job::Bound { text })
}

fn count_read<'a>(values: &ArgMatches<'a>) -> Option<Job<'a>>
    ensures { option_map spec_of result
        ≡ two_read count (first_value (found_of values.now) (codes "first"))
        (first_value (found_of values.now) (codes "second")) }
{
    let text = values.get_str("first")?;
    let rows = values.get_str("second")?;
    Some(Job::Count { text, rows })
}

fn save_read<'a>(values: &ArgMatches<'a>) -> Option<Job<'a>>
    ensures { option_map spec_of result
        ≡ two_or_three_read save save_from (first_value (found_of values.now) (codes "first"))
        (first_value (found_of values.now) (codes "second")) (first_value (found_of values.now) (codes "third")) }
{
    let text = values.get_str("first")?;
    let second = values.get_str("second")?;
    match values.get_str("third") {
        Some(rows) => Some(Job::SaveFrom {
            text,
            state: second,
            rows,
        }),
        None => Some(Job::Save { text, rows: second }),
    }
}

fn resume_read<'a>(values: &ArgMatches<'a>) -> Option<Job<'a>>
    ensures { option_map spec_of result
        ≡ three_read resumed (first_value (found_of values.now) (codes "first"))
        (first_value (found_of values.now) (codes "second")) (first_value (found_of values.now) (codes "third")) }
{
    let text = values.get_str("first")?;
    let state = values.get_str("second")?;
    let rows = values.get_str("third")?;
    Some(Job::Resume { text, state, rows })
}

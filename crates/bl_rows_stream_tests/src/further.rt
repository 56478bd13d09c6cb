//! Runs that count, runs that write nothing, and runs that go on.

use crate::hand::hand;
use bl_crun::Runner;
use bl_io::{SureFiles, SureSink};
use bl_rows_stream::{Finish, count, run_silently, stream};
use std::alloc::Global;
use std::test::Fail;

/// A file of these rows under this name.
fn file(alloc: Global, name: &str, rows: &str) -> Result<SureFiles, Fail> {
    let mut files = SureFiles::new(alloc);
    files.add(name, rows.as_bytes().to_vec(alloc)?)?;
    Ok(files)
}

/// How a run ends that counts, and what it wrote.
fn counted(alloc: Global, rows: &str) -> Result<(Finish, SureSink), Fail> {
    let mut runner = hand(alloc)?;
    let mut files = file(alloc, "rows", rows)?;
    let mut out = SureSink::new(alloc);
    if !runner.live() {
        return Err(Fail::new("not live"));
    }
    let finish = count(alloc, &mut runner, "rows", &mut files, &mut out);
    Ok((finish, out))
}

#[test]
fn each_tick_has_its_count(rt: HostRuntime) -> Result<(), Fail> {
    let (finish, out) = counted(rt.alloc(), "tick,d\n1,2\n2,0\n")?;
    assert_eq!(rt; finish, Finish::Trapped);
    assert_eq!(rt; out.held(), "tick,statements\n1,4\n2,1\ntrap\n".as_bytes());
    Ok(())
}

#[test]
fn the_last_tick_has_its_count(rt: HostRuntime) -> Result<(), Fail> {
    let (finish, out) = counted(rt.alloc(), "tick,d\n1,2\n2,-3\n3,1\n")?;
    assert_eq!(rt; finish, Finish::Done);
    assert_eq!(rt; out.held(), "tick,statements\n1,4\n2,4\nended\n".as_bytes());
    Ok(())
}

/// Runs rows, and writes nothing.
fn settle(alloc: Global, runner: &mut Runner, rows: &str) -> Result<Finish, Fail> {
    let mut files = file(alloc, "first", rows)?;
    if !runner.live() {
        return Err(Fail::new("not live"));
    }
    Ok(run_silently(alloc, runner, "first", &mut files))
}

/// Runs further rows, and gives the text of their trace.
fn go_on(alloc: Global, runner: &mut Runner, rows: &str) -> Result<(Finish, SureSink), Fail> {
    let mut files = file(alloc, "second", rows)?;
    let mut out = SureSink::new(alloc);
    if !runner.live() {
        return Err(Fail::new("not live"));
    }
    let finish = stream(alloc, runner, "second", &mut files, &mut out);
    Ok((finish, out))
}

/// Rows are numbered from 1 in each file and in each trace.
#[test]
fn a_run_goes_on_over_a_second_file(rt: HostRuntime) -> Result<(), Fail> {
    let mut runner = hand(rt.alloc())?;
    assert_eq!(rt;
        settle(rt.alloc(), &mut runner, "tick,d\n1,2\n")?,
        Finish::Done
    );
    assert!(rt; runner.live());
    let (finish, out) = go_on(rt.alloc(), &mut runner, "tick,d\n1,1\n2,-3\n")?;
    assert_eq!(rt; finish, Finish::Done);
    assert_eq!(rt; out.held(), "tick,n\n1,2\n2,0\nended\n".as_bytes());
    assert!(rt; !runner.live());
    Ok(())
}

#[test]
fn a_trap_is_told_where_nothing_is_written(rt: HostRuntime) -> Result<(), Fail> {
    let mut runner = hand(rt.alloc())?;
    assert_eq!(rt;
        settle(rt.alloc(), &mut runner, "tick,d\n1,0\n2,1\n")?,
        Finish::Trapped
    );
    assert!(rt; !runner.live());
    Ok(())
}

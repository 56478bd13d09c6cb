//! Each public call once, with ample memory: objects in memory whose calls fail, and the system's files and streams.

use bl_io::{
    Files, HostFiles, HostSink, IoFault, MemFiles, MemSink, PIECE, Sink, SureFiles, SureSink,
    read_up_to, write_all,
};
use std::fs;
use std::test::Fail;

#[test]
fn files_fail_where_told(rt: HostRuntime) -> Result<(), Fail> {
    let mut files = MemFiles::new(rt.alloc());
    files.add("a", b"hello".to_vec(rt.alloc())?)?;
    files.add("b", b"bye".to_vec(rt.alloc())?)?;
    files.fail_at(2)?;
    files.narrow(2);
    let mut room = [0; 4];
    assert_eq!(rt; files.next("a", &mut room), Ok(2));
    assert_eq!(rt; room, *b"he\0\0");
    assert_eq!(rt;
        files.next("a", &mut room),
        Err(IoFault::Failed),
        "the second call"
    );
    assert_eq!(rt; files.next("a", &mut room), Ok(2));
    assert_eq!(rt; room, *b"ll\0\0");
    assert_eq!(rt;
        read_up_to(rt.alloc(), &mut files, "a", 9)?.as_slice(),
        b"o".as_slice()
    );
    assert_eq!(rt; files.next("a", &mut room), Ok(0), "the end");
    assert_eq!(rt;
        read_up_to(rt.alloc(), &mut files, "b", 2)?.as_slice(),
        b"by".as_slice()
    );
    assert_eq!(rt; files.next("b", &mut room), Ok(1));
    assert_eq!(rt;
        files.next("c", &mut room),
        Err(IoFault::Failed),
        "an absent name"
    );
    Ok(())
}

#[test]
fn absent_files_are_empty(rt: HostRuntime) -> Result<(), Fail> {
    let mut files = SureFiles::new(rt.alloc());
    files.add("a", b"hello".to_vec(rt.alloc())?)?;
    let mut room = [0; 4];
    assert_eq!(rt; files.next("b", &mut room), Ok(0));
    assert_eq!(rt; files.next("a", &mut room), Ok(4));
    assert_eq!(rt; room, *b"hell");
    Ok(())
}

#[test]
fn sinks_hold_what_was_written(rt: HostRuntime) -> Result<(), Fail> {
    let text = vec![in rt.alloc(); b'x'; 3000]?;
    let mut sure = SureSink::new(rt.alloc());
    write_all(&mut sure, text.as_slice())?;
    assert_eq!(rt; sure.held(), text.as_slice());

    // Two pieces are taken, and the third call fails.
    let mut sink = MemSink::new(rt.alloc());
    sink.fail_at(3)?;
    assert_eq!(rt; write_all(&mut sink, text.as_slice()), Err(IoFault::Failed));
    assert_eq!(rt; sink.held().len(), 2 * PIECE);
    sink.narrow(1);
    assert_eq!(rt; sink.write(b"yz"), Ok(1));
    assert_eq!(rt; sink.held().len(), 2 * PIECE + 1);
    Ok(())
}

#[test]
fn host_files_and_sinks(rt: HostRuntime) -> Result<(), Fail> {
    let text = vec![in rt.alloc(); b'x'; 3000]?;
    let mut sink = HostSink::new(fs::create(&rt, "written")?);
    write_all(&mut sink, text.as_slice())?;
    let mut files = HostFiles::new(rt.alloc(), &rt);
    let got = read_up_to(rt.alloc(), &mut files, "written", 2999)?;
    assert_eq!(rt; got.as_slice(), &text[..2999]);
    let mut room = [0; 4];
    assert_eq!(rt; files.next("written", &mut room), Ok(1));
    assert_eq!(rt; files.next("written", &mut room), Ok(0));
    assert_eq!(rt; files.next("absent", &mut room), Err(IoFault::Failed));
    fs::remove_file(&rt, "written")?;
    assert_eq!(rt; HostSink::new(rt.stdout()).write(b"done\n"), Ok(5));

    // A stream that is full takes nothing, which is a fault.
    let mut full = [0; 2];
    let mut narrow = HostSink::new(&mut full[..]);
    assert_eq!(rt; narrow.write(b"abc"), Ok(2));
    assert_eq!(rt; narrow.write(b"c"), Err(IoFault::Failed));
    Ok(())
}

/// A file that was read to its end isn't looked at again.
#[test]
fn a_file_that_has_grown_has_ended(rt: HostRuntime) -> Result<(), Fail> {
    let mut first = HostSink::new(fs::create(&rt, "grown")?);
    write_all(&mut first, b"abc")?;
    let mut files = HostFiles::new(rt.alloc(), &rt);
    let mut room = [0; 4];
    assert_eq!(rt; files.next("grown", &mut room), Ok(3));
    assert_eq!(rt; files.next("grown", &mut room), Ok(0));
    assert_eq!(rt; files.next("grown", &mut room), Ok(0), "once more");
    let mut second = HostSink::new(fs::create(&rt, "grown")?);
    write_all(&mut second, b"abcdef")?;
    assert_eq!(rt; files.next("grown", &mut room), Ok(0), "it has grown");
    fs::remove_file(&rt, "grown")?;
    Ok(())
}

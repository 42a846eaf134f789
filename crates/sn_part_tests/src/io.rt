//! What no clause says: that calls succeed, and what the machine's files and outputs do.
use sn_io::{
    CountSink, DiskFiles, Failed, Files, MemFiles, MemSink, OutSink, Sink, WriteFault, write_all,
};
use std::io::Cursor;
use std::test::Fail;
use std::{env, fs, process};

/// What opening the file and three readings of two bytes answer, up to a reading at the end.
fn answers(files: &mut MemFiles, name: &[u8]) -> [Result<usize, Failed>; 4] {
    let mut answers = [Err(Failed); 4];
    if files.open(name).is_err() {
        return answers;
    }
    answers[0] = Ok(0);
    let mut buf = [0; 2];
    answers[1] = files.read(&mut buf);
    if answers[1] == Ok(0) {
        return answers;
    }
    answers[2] = files.read(&mut buf);
    if answers[2] == Ok(0) {
        return answers;
    }
    answers[3] = files.read(&mut buf);
    answers
}

#[test]
fn listed_calls_fail(rt: HostRuntime) -> Result<(), Fail> {
    for (failing, name, want) in [
        (5, b"part", [Ok(0), Ok(2), Ok(1), Ok(0)]),
        (
            1,
            b"part",
            [Err(Failed), Err(Failed), Err(Failed), Err(Failed)],
        ),
        (2, b"part", [Ok(0), Err(Failed), Ok(2), Ok(1)]),
        (3, b"part", [Ok(0), Ok(2), Err(Failed), Ok(1)]),
        (4, b"part", [Ok(0), Ok(2), Ok(1), Err(Failed)]),
        (
            5,
            b"none",
            [Err(Failed), Err(Failed), Err(Failed), Err(Failed)],
        ),
    ] {
        let mut files = MemFiles::new(rt.alloc());
        files.add(b"part", b"before")?;
        files.add(b"tool", b"other")?;
        files.add(b"part", b"abc")?;
        files.fail_at(failing)?;
        assert_eq!(rt; answers(&mut files, name), want, "call {failing}");
    }
    Ok(())
}

#[test]
fn listed_writes_fail(rt: HostRuntime) -> Result<(), Fail> {
    for (failing, want, held) in [
        (4, [Ok(2), Ok(1), Err(Failed)], b"abc"),
        (1, [Err(Failed), Ok(2), Ok(1)], b"cde"),
        (2, [Ok(2), Err(Failed), Ok(1)], b"abe"),
    ] {
        let mut sink = MemSink::new(rt.alloc(), 3)?;
        sink.fail_at(failing)?;
        let answers = [sink.write(b"ab"), sink.write(b"cd"), sink.write(b"ef")];
        assert_eq!(rt; answers, want, "write {failing}");
        assert_eq!(rt; sink.bytes(), held.as_slice(), "write {failing}");
    }
    let mut sink = MemSink::new(rt.alloc(), 3)?;
    assert_eq!(rt; write_all(&mut sink, b"ab"), Ok(()));
    assert_eq!(rt; write_all(&mut sink, b"cd"), Err(WriteFault));
    assert_eq!(rt; sink.bytes(), b"abc".as_slice());
    Ok(())
}

#[test]
fn a_counting_sink_counts(rt: HostRuntime) -> Result<(), Fail> {
    let mut sink = CountSink::new();
    let Ok(()) = write_all(&mut sink, b"ab") else {
        unreachable!()
    };
    write_all(&mut sink, b"cde")?;
    assert_eq!(rt; sink.taken(), 5);
    Ok(())
}

#[test]
fn outputs_are_written_when_they_are_finished(rt: HostRuntime) -> Result<(), Fail> {
    let mut sink = OutSink::new(rt.alloc(), Vec::new(rt.alloc()))?;
    let written = [write_all(&mut sink, b"abc"), write_all(&mut sink, b"def")];
    let finished = sink.finish()?;
    assert_eq!(rt; written, [Ok(()), Ok(())]);
    assert_eq!(rt; finished.as_slice(), b"abcdef".as_slice());

    let mut sink = OutSink::new(rt.alloc(), Cursor::new([0u8; 4]))?;
    let written = write_all(&mut sink, b"abcdef");
    let finished = sink.finish();
    assert_eq!(rt; written, Ok(()));
    assert!(rt; finished.is_err());

    let mut sink = OutSink::new(rt.alloc(), Cursor::new([0u8; 4]))?;
    let written = [sink.write(&[b'a'; 10_000]), sink.write(&[b'b'; 10_000])];
    let finished = sink.finish();
    assert_eq!(rt; written, [Ok(4), Err(Failed)]);
    assert!(rt; finished.is_err());

    let sink = OutSink::new(rt.alloc(), rt.stdout())?;
    sink.finish()?;
    Ok(())
}

#[test]
fn disk_files_open_what_is_there(rt: HostRuntime) -> Result<(), Fail> {
    let folder = env::temp_dir(&rt)?;
    let path = format!(in rt.alloc(); "{}/sn_io-{}", folder.display(), process::id(rt.process()))?;
    fs::write(&rt, path.as_str(), b"abc")?;
    let mut files = DiskFiles::new(&rt);
    let refused = [files.open(b"\xff"), files.open(b"no/such/file")];
    let opened = files.open(path.as_bytes());
    fs::remove_file(&rt, path.as_str())?;
    assert_eq!(rt; refused, [Err(Failed), Err(Failed)]);
    assert_eq!(rt; opened, Ok(()));
    let mut buf = [0; 8];
    let count = files.read(&mut buf)?;
    assert_eq!(rt; buf[..count], b"abc"[..]);
    Ok(())
}

use crate::reading::read_file;
use crate::{
    Ended, Failed, FileShelf, Gate, Load, MemFile, MemShelf, MemSink, Open, OutSink, Shelf, Sink,
    SteadyShelf, SteadySink, put_all,
};
use dc_base::lists::Items;
use dc_base::numbers::CoreNo;
use std::alloc::{AllocError, Global};
use std::fs::File;
use std::io::{Error, ErrorKind, Read, Write};
use std::process::Abort;
use std::test::Fail;
use std::{env, fs, io, process};

fn file(alloc: Global, name: &[u8], bytes: &[u8]) -> Result<MemFile, AllocError> {
    Ok(MemFile {
        name: Items::from_vec(name.to_vec(alloc)?),
        bytes: Items::from_vec(bytes.to_vec(alloc)?),
    })
}

// Two files of one name, and an empty one.
fn files(alloc: Global) -> Result<Vec<MemFile>, AllocError> {
    let mut files = Vec::new(alloc);
    files.push(file(alloc, b"image", b"first")?)?;
    files.push(file(alloc, b"image", b"second")?)?;
    files.push(file(alloc, b"script", b"")?)?;
    Ok(files)
}

// What a load answers, and what it leaves of a vector that was not empty.
fn check_load<K: Shelf>(
    rt: &impl Abort,
    alloc: Global,
    shelf: &mut K,
    name: &str,
    answer: Result<(), Load>,
    bytes: &[u8],
) -> Result<(), Fail> {
    let mut into = b"old".to_vec(alloc)?;
    assert_eq!(rt; shelf.load(alloc, name, &mut into), answer, "at {name}");
    assert_eq!(rt; into.as_slice(), bytes, "at {name}");
    Ok(())
}

#[test]
fn the_first_of_a_name_is_loaded_and_listed_calls_fail(rt: HostRuntime) -> Result<(), Fail> {
    let alloc = rt.alloc();
    let mut shelf = MemShelf::of(files(alloc)?, vec![in alloc; 3]?);
    check_load(&rt, alloc, &mut shelf, "image", Ok(()), b"first")?;
    check_load(&rt, alloc, &mut shelf, "script", Ok(()), b"")?;
    check_load(&rt, alloc, &mut shelf, "image", Err(Load::Failed), b"")?;
    check_load(&rt, alloc, &mut shelf, "schedule", Err(Load::Failed), b"")?;
    check_load(&rt, alloc, &mut shelf, "image", Ok(()), b"first")
}

#[test]
fn a_steady_shelf_reads_an_absent_file_as_empty(rt: HostRuntime) -> Result<(), Fail> {
    let alloc = rt.alloc();
    let mut shelf = SteadyShelf::of(files(alloc)?);
    check_load(&rt, alloc, &mut shelf, "image", Ok(()), b"first")?;
    check_load(&rt, alloc, &mut shelf, "schedule", Ok(()), b"")
}

#[test]
fn a_sink_in_memory_fails_where_listed_or_short_of_room(rt: HostRuntime) -> Result<(), Fail> {
    let alloc = rt.alloc();
    let mut sink = MemSink::with_room(alloc, 8, vec![in alloc; 2]?).map_err(|_| "no memory")?;
    assert_eq!(rt; put_all(&mut sink, b"one\n"), Ok(()));
    assert_eq!(rt; put_all(&mut sink, b"two\n"), Err(Failed));
    assert_eq!(rt; put_all(&mut sink, b"three"), Err(Failed));
    assert_eq!(rt; put_all(&mut sink, b"two\n"), Ok(()));
    assert_eq!(rt; sink.bytes(), b"one\ntwo\n".as_slice());
    assert_eq!(rt; put_all(&mut SteadySink::new(), b"one\n"), Ok(()));
    Ok(())
}

fn output<W: Write + Drop>(alloc: Global, out: W, lines_at_once: bool) -> Result<OutSink<W>, Fail> {
    Ok(OutSink::new(alloc, out, lines_at_once).map_err(|_| "no memory")?)
}

#[test]
fn a_written_file_is_read_back(rt: HostRuntime) -> Result<(), Fail> {
    let alloc = rt.alloc();
    let id = process::id(rt.process());
    let dir = env::temp_dir(&rt)?;
    let dir = dir.as_path().to_str().ok_or("a path that is no text")?;
    let path = format!(in alloc; "{dir}/dc_io_{id}")?;
    let mut sink = output(alloc, File::create(&rt, path.as_str())?, false)?;
    assert_eq!(rt; put_all(&mut sink, b"start 0 rr\n"), Ok(()));
    assert_eq!(rt; put_all(&mut sink, b"stop 0\n"), Ok(()));
    assert_eq!(rt; sink.finish(), Ok(()));
    let mut shelf = FileShelf::new(rt);
    check_load(
        &rt,
        alloc,
        &mut shelf,
        path.as_str(),
        Ok(()),
        b"start 0 rr\nstop 0\n",
    )?;
    fs::remove_file(&rt, path.as_str())?;
    check_load(
        &rt,
        alloc,
        &mut shelf,
        path.as_str(),
        Err(Load::Failed),
        b"",
    )?;
    assert_eq!(rt; (sink.faults(), shelf.faults()), (0, 1));
    Ok(())
}

#[test]
fn devices_are_full_endless_or_no_files(rt: HostRuntime) -> Result<(), Fail> {
    let alloc = rt.alloc();
    let full = File::options().write(true).open(&rt, "/dev/full")?;
    let mut sink = output(alloc, full, false)?;
    assert_eq!(rt; put_all(&mut sink, b"lost\n"), Ok(()));
    assert_eq!(rt; sink.finish(), Err(Failed));
    assert_eq!(rt; sink.finish(), Ok(()));
    assert_eq!(rt; put_all(&mut sink, &[b'a'; 65_537]), Err(Failed));
    assert_eq!(rt; sink.faults(), 2);
    let mut shelf = FileShelf::new(rt);
    check_load(&rt, alloc, &mut shelf, "/dev/zero", Err(Load::TooLong), b"")?;
    assert_eq!(rt; shelf.faults(), 0);
    check_load(&rt, alloc, &mut shelf, "/", Err(Load::Failed), b"")?;
    assert_eq!(rt; shelf.faults(), 1);
    Ok(())
}

// Gives two bytes a read, and fails at the third.
#[derive(Drop)]
struct BreakingReader {
    reads: u32,
}

impl Read for BreakingReader {
    fn read(&mut self, buf: &mut [u8]) -> io::Result<usize> {
        self.reads = self.reads.saturating_add(1);
        if self.reads == 3 || buf.len() < 2 {
            return Err(Error::from(ErrorKind::Other));
        }
        buf[0] = b'a';
        buf[1] = b'b';
        Ok(2)
    }
}

#[test]
fn a_read_that_fails_in_mid_stream_leaves_nothing(rt: HostRuntime) -> Result<(), Fail> {
    let alloc = rt.alloc();
    let mut into = b"old".to_vec(alloc)?;
    let mut file = BreakingReader { reads: 0 };
    assert_eq!(rt; read_file(alloc, &mut file, &mut into), Err(Load::Failed));
    assert!(rt; into.is_empty());
    Ok(())
}

// Takes two bytes a write, and none from the third on.
#[derive(Drop)]
struct BreakingWriter<'a> {
    taken: &'a mut Vec<u8>,
    writes: u32,
}

impl Write for BreakingWriter<'_> {
    fn write(&mut self, buf: &[u8]) -> io::Result<usize> {
        self.writes = self.writes.saturating_add(1);
        let n = if self.writes < 3 { buf.len().min(2) } else { 0 };
        self.taken.extend_from_slice(&buf[..n])?;
        Ok(n)
    }

    fn flush(&mut self) -> io::Result<()> {
        Ok(())
    }
}

// Writes a text of two lines, and passes a gate between them.
fn write_lines<S: Sink, G: Gate>(sink: &mut S, gate: &G) -> Result<(), Ended> {
    put_all(sink, b"report\n")?;
    gate.pass(CoreNo(0));
    put_all(sink, b"end\n")?;
    Ok(())
}

// What a text leaves with a writer that breaks, and what the last call answers.
fn check_breaking(
    rt: &impl Abort,
    alloc: Global,
    lines_at_once: bool,
    put: Result<(), Ended>,
    finished: Result<(), Failed>,
) -> Result<(), Fail> {
    let mut taken = Vec::new(alloc);
    let writer = BreakingWriter {
        taken: &mut taken,
        writes: 0,
    };
    let mut sink = output(alloc, writer, lines_at_once)?;
    assert_eq!(rt; write_lines(&mut sink, &Open), put);
    assert_eq!(rt; sink.finish(), finished);
    assert_eq!(rt; sink.faults(), 1);
    drop(sink);
    assert_eq!(rt; taken.as_slice(), b"repo".as_slice());
    Ok(())
}

#[test]
fn a_write_that_fails_in_mid_stream_leaves_a_part(rt: HostRuntime) -> Result<(), Fail> {
    let alloc = rt.alloc();
    check_breaking(&rt, alloc, false, Ok(()), Err(Failed))?;
    check_breaking(&rt, alloc, true, Err(Ended::Sink), Ok(()))?;
    assert_eq!(rt; write_lines(&mut SteadySink::new(), &Open), Ok(()));
    let mut shown = output(alloc, rt.stdout(), true)?;
    assert_eq!(rt; write_lines(&mut shown, &Open), Ok(()));
    Ok(())
}

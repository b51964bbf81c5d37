use dc_base::lists::Items;
use dc_io::{MemFile, MemShelf, MemSink, Open, OutSink};
use dc_top::{command, gen_call, play_call};
use std::alloc::{AllocError, Global};
use std::io::{self, Write};
use std::process::Abort;
use std::sync::Wait;
use std::test::Fail;
use std::thread::Threads;

// The head of an image of one core and one block.
const BARE: &str =
    "format = 1\nquantum = 4\nslices = 100\n[[core]]\nversion = \"rr\"\n[[block]]\nhome = 0\n[[block.disp]]\n";

const HELLO: &str = "code = \"li r0 7\\nout r0\\nhalt\"";

// What the hello example writes in three steps.
const EXPECTED: &str = "\
0 core 0 slice 0 0 fired 0 ran 1 call out clock 2
1 core 0 slice 0 0 fired 0 ran 1 halt clock 3
report
core 0 on rr clock 3 home 0 share 0 used 2
block 0 core 0 time 3 armed 0
disp 0 0 halted place 2 due 0
ready 0 -
out 0 7
skipped 1
end
";

// The lines of a report of one core, one block and one dispatcher that has put out nothing.
const AT_START: &str = "\
report
core 0 on rr clock 0 home 0 share 0 used 0
block 0 core 0 time 0 armed 0
disp 0 0 ready place 0 due 0
ready 0 0
skipped 0
end
";

// The second core is off, and its step is skipped.
const CORE_OFF: &str = "\
report
core 0 on rr clock 0 home 0 share 0 used 0
core 1 off clock 0 used 0
block 0 core 0 time 0 armed 0
disp 0 0 ready place 0 due 0
ready 0 0
skipped 1
end
";

// No order was posted, and the core's asking for one is skipped.
const NO_ORDER: &str = "\
report
core 0 on rr clock 0 home 0 share 0 used 0
block 0 core 0 time 0 armed 0
disp 0 0 ready place 0 due 0
ready 0 0
skipped 1
end
";

// The first step of the hello example, and an order that is skipped.
const ONE_STEP: &str = "\
0 core 0 slice 0 0 fired 0 ran 1 call out clock 2
report
core 0 on rr clock 2 home 0 share 0 used 1
block 0 core 0 time 2 armed 0
disp 0 0 ready place 2 due 0
ready 0 0
out 0 7
skipped 1
end
";

const USAGE: &str = "usage: dc play IMAGE SCRIPT SCHEDULE | dc run IMAGE SCRIPT | dc gen N\n";

const TRAP_1: &str = "\
0 core 0 slice 0 0 fired 0 ran 0 trap 1 clock 1
report
core 0 on rr clock 1 home 0 share 0 used 1
block 0 core 0 time 1 armed 0
disp 0 0 trap 1 place 0 due 0
ready 0 -
skipped 0
end
";

const TRAP_2: &str = "\
0 core 0 slice 0 0 fired 0 ran 1 trap 2 clock 1
report
core 0 on rr clock 1 home 0 share 0 used 1
block 0 core 0 time 1 armed 0
disp 0 0 trap 2 place 1 due 0
ready 0 -
skipped 0
end
";

const TRAP_4: &str = "\
0 core 0 slice 0 0 fired 0 ran 0 trap 4 clock 1
report
core 0 on rr clock 1 home 0 share 0 used 1
block 0 core 0 time 1 armed 0
disp 0 0 trap 4 place 0 due 0
ready 0 -
skipped 0
end
";

const STEP: &str = "core 0 step\n";

const THREE_STEPS: &str = "core 0 step\n# a comment\n\ncore 0 step\ncore 00 step";

fn file(alloc: Global, name: &[u8], bytes: &[u8]) -> Result<MemFile, AllocError> {
    Ok(MemFile {
        name: Items::from_vec(name.to_vec(alloc)?),
        bytes: Items::from_vec(bytes.to_vec(alloc)?),
    })
}

// An image, a script and a schedule by these names; the load of this number fails.
fn shelf(
    alloc: Global,
    image: &str,
    script: &str,
    schedule: &str,
    failing: u64,
) -> Result<MemShelf, AllocError> {
    let mut files = Vec::new(alloc);
    files.push(file(alloc, b"image", image.as_bytes())?)?;
    files.push(file(alloc, b"script", script.as_bytes())?)?;
    files.push(file(alloc, b"schedule", schedule.as_bytes())?)?;
    Ok(MemShelf::of(files, vec![in alloc; failing]?))
}

// A sink in memory whose put of this number fails.
fn sink(alloc: Global, failing: u64) -> Result<MemSink, Fail> {
    Ok(MemSink::with_room(alloc, 4096, vec![in alloc; failing]?).map_err(|_| "no memory")?)
}

// What a play of these three files answers and writes.
fn check_play(
    rt: &impl Abort,
    alloc: Global,
    files: (&str, &str, &str),
    status: u8,
    text: &str,
) -> Result<(), Fail> {
    let image = format!(in alloc; "{BARE}{}", files.0)?;
    let mut shelf = shelf(alloc, image.as_str(), files.1, files.2, 9)?;
    let mut sink = sink(alloc, 99)?;
    assert_eq!(rt;
        play_call(alloc, &mut shelf, &mut sink, "image", "script", "schedule"),
        status,
        "{image}"
    );
    assert_eq!(rt; sink.bytes(), text.as_bytes(), "{image}");
    Ok(())
}

#[test]
fn plays_write_their_texts_and_refusals_their_lines(rt: HostRuntime) -> Result<(), Fail> {
    let alloc = rt.alloc();
    let table = [
        ((HELLO, "", THREE_STEPS), 0, EXPECTED),
        ((HELLO, "# nothing\n  \n", ""), 0, AT_START),
        (("code = [0]", "", STEP), 0, TRAP_1),
        (("code = \"nop\"", "", STEP), 0, TRAP_2),
        (("code = \"delete s0\"", "", STEP), 0, TRAP_4),
        (
            ("code = \"li r9 1\"", "stop 0\n", ""),
            2,
            "image: code block.0.disp.0.code line 1: bad operand\n",
        ),
        (
            ("", "stop 0\n", ""),
            2,
            "image: missing block.0.disp.0.code\n",
        ),
        (
            ("code = \"halt\"\n[[core]]", "", "core 1 step\n"),
            0,
            CORE_OFF,
        ),
        ((HELLO, "stop 0\n", "core 0 order\n"), 0, NO_ORDER),
        ((HELLO, "", "core 0 step\ncore 0 order\n"), 0, ONE_STEP),
        (
            (HELLO, "stop 1\n", "core 0 step\n"),
            3,
            "script line 1: bad number\n",
        ),
        (
            (HELLO, "raise 0\n", "core 0 step\n"),
            3,
            "script line 1: bad number\n",
        ),
        (
            (HELLO, "", "core 1 step\n"),
            4,
            "schedule line 1: bad number\n",
        ),
        (
            (HELLO, "#\nstop 9\n", STEP),
            3,
            "script line 2: bad number\n",
        ),
        (
            (HELLO, "", "core 0 step\nwait\n"),
            4,
            "schedule line 2: unknown word\n",
        ),
    ];
    for (files, status, text) in table {
        check_play(&rt, alloc, files, status, text)?;
    }
    Ok(())
}

#[test]
fn each_put_that_fails_leaves_the_lines_before_it(rt: HostRuntime) -> Result<(), Fail> {
    let alloc = rt.alloc();
    let image = format!(in alloc; "{BARE}{HELLO}")?;
    let mut left = 0;
    for failing in 1..11 {
        let mut shelf = shelf(alloc, image.as_str(), "", THREE_STEPS, 9)?;
        let mut sink = sink(alloc, failing)?;
        assert_eq!(&rt;
            play_call(alloc, &mut shelf, &mut sink, "image", "script", "schedule"),
            6,
            "put {failing}"
        );
        assert!(&rt;
            EXPECTED.as_bytes().starts_with(sink.bytes()),
            "put {failing}"
        );
        assert!(&rt; failing == 1 || sink.bytes().len() > left, "put {failing}");
        left = sink.bytes().len();
    }
    assert_eq!(&rt; left, 234);
    Ok(())
}

#[test]
fn each_load_that_fails_is_told_by_its_file(rt: HostRuntime) -> Result<(), Fail> {
    let alloc = rt.alloc();
    let image = format!(in alloc; "{BARE}{HELLO}")?;
    for (failing, text) in [
        (1, "read fault image\n"),
        (2, "read fault script\n"),
        (3, "read fault schedule\n"),
    ] {
        let mut shelf = shelf(alloc, image.as_str(), "", "", failing)?;
        let mut sink = sink(alloc, 99)?;
        assert_eq!(&rt;
            play_call(alloc, &mut shelf, &mut sink, "image", "script", "schedule"),
            5
        );
        assert_eq!(&rt; sink.bytes(), text.as_bytes());
    }
    Ok(())
}

// The words of a line, with a space between each two.
fn words_of(alloc: Global, line: &str) -> Result<Vec<String>, AllocError> {
    let mut words = Vec::new(alloc);
    for word in line.split_whitespace() {
        words.push(String::from_str(alloc, word)?)?;
    }
    Ok(words)
}

// What these words are answered and what is written.
fn check_command<R: Abort + Threads + Wait + Sync>(
    rt: &R,
    alloc: Global,
    line: &str,
    status: u8,
    text: &str,
) -> Result<(), Fail> {
    let image = format!(in alloc; "{BARE}{HELLO}")?;
    let words = words_of(alloc, line)?;
    let mut shelf = shelf(alloc, image.as_str(), "", THREE_STEPS, 9)?;
    let mut sink = sink(alloc, 99)?;
    assert_eq!(rt;
        command(rt, alloc, words.as_slice(), &mut shelf, &mut sink, &Open),
        status,
        "{line}"
    );
    assert_eq!(rt; sink.bytes(), text.as_bytes(), "{line}");
    Ok(())
}

#[test]
fn words_of_a_form_ask_for_a_play(rt: HostRuntime) -> Result<(), Fail> {
    check_command(&rt, rt.alloc(), "play image script schedule", 0, EXPECTED)
}

#[test]
fn words_of_no_form_are_answered_by_the_usage(rt: HostRuntime) -> Result<(), Fail> {
    for line in [
        "",
        "gen",
        "play image script",
        "run image",
        "run image script schedule",
        "play image script schedule more",
        "gen 65536",
        "gen x",
        "gen +1",
        "gen 000001",
        "gen 1 2",
        "run 1",
    ] {
        check_command(&rt, rt.alloc(), line, 1, USAGE)?;
    }
    Ok(())
}

#[test]
fn a_generated_input_is_played_and_summed_up(rt: HostRuntime) -> Result<(), Fail> {
    let text = "entries 1912\nskipped 118088\noutputs 450\nsum 426052\n";
    check_command(&rt, rt.alloc(), "gen 00001", 0, text)
}

#[test]
fn each_put_of_a_summary_that_fails_leaves_the_lines_before_it(
    rt: HostRuntime,
) -> Result<(), Fail> {
    for (failing, text) in [
        (1, ""),
        (2, "entries 1912\n"),
        (4, "entries 1912\nskipped 118088\noutputs 450\n"),
    ] {
        let mut sink = sink(rt.alloc(), failing)?;
        assert_eq!(&rt; gen_call(rt.alloc(), &mut sink, 1), 6, "put {failing}");
        assert_eq!(&rt; sink.bytes(), text.as_bytes(), "put {failing}");
    }
    Ok(())
}

// Takes as many bytes as it has room for, and none beyond.
#[derive(Drop)]
struct ShortWriter<'a> {
    taken: &'a mut Vec<u8>,
    room: usize,
}

impl Write for ShortWriter<'_> {
    fn write(&mut self, buf: &[u8]) -> io::Result<usize> {
        let n = buf.len().min(self.room);
        self.room -= n;
        self.taken.extend_from_slice(&buf[..n])?;
        Ok(n)
    }

    fn flush(&mut self) -> io::Result<()> {
        Ok(())
    }
}

// What a play over a writer with this room is answered, and how much of the text the writer takes.
fn check_written<R: Abort + Threads + Wait + Sync>(
    rt: &R,
    alloc: Global,
    lines_at_once: bool,
    room: usize,
    status: u8,
) -> Result<(), Fail> {
    let image = format!(in alloc; "{BARE}{HELLO}")?;
    let words = words_of(alloc, "play image script schedule")?;
    let mut shelf = shelf(alloc, image.as_str(), "", THREE_STEPS, 9)?;
    let mut taken = Vec::new(alloc);
    let out = ShortWriter {
        taken: &mut taken,
        room,
    };
    let mut sink = OutSink::new(alloc, out, lines_at_once).map_err(|_| "no memory")?;
    assert_eq!(rt;
        command(rt, alloc, words.as_slice(), &mut shelf, &mut sink, &Open),
        status,
        "room {room}"
    );
    drop(sink);
    let text = EXPECTED.as_bytes();
    assert_eq!(rt;
        taken.as_slice(),
        &text[..room.min(text.len())],
        "room {room}"
    );
    Ok(())
}

#[test]
fn a_text_that_is_not_written_out_whole_is_a_write_fault(rt: HostRuntime) -> Result<(), Fail> {
    let alloc = rt.alloc();
    for lines_at_once in [false, true] {
        check_written(&rt, alloc, lines_at_once, 4096, 0)?;
        check_written(&rt, alloc, lines_at_once, 237, 6)?;
        check_written(&rt, alloc, lines_at_once, 100, 6)?;
        check_written(&rt, alloc, lines_at_once, 0, 6)?;
    }
    Ok(())
}

use dc_base::lists::Items;
use dc_base::numbers::CoreNo;
use dc_io::{Gate, MemFile, MemShelf, MemSink, Open};
use dc_top::run_call;
use std::alloc::{AllocError, Global};
use std::process::Abort;
use std::sync::Wait;
use std::sync::atomic::{AtomicBool, AtomicU32, Ordering};
use std::test::Fail;
use std::thread::Threads;

// Two blocks that send a number to and fro until it is 1,000.
const RING: &str = "\
format = 1
quantum = 64
slices = 10000
[[core]]
version = \"rr\"
[[core]]
version = \"rr\"
[[core]]
version = \"rr\"
[[channel]]
from = 0
to = 1
capacity = 1
[[channel]]
from = 1
to = 0
capacity = 1
[[block]]
home = 0
[[block.disp]]
code = \"li r1 1\\nli r5 1000\\nagain:\\nadd r0 r1\\nst r0 r2 0\\ncsend s0 s2 0\\ncrecv s1 s2 0\\nld r0 r2 0\\nout r0\\nbltu r0 r5 @again\\nhalt\"
cap = [{ slot = 0, kind = \"sendend\", number = 0 }, { slot = 1, kind = \"recvend\", number = 1 }, { slot = 2, kind = \"frame\", first = 0, length = 4 }]
[[block]]
home = 1
[[block.disp]]
code = \"li r1 1\\nagain:\\ncrecv s1 s2 0\\nld r0 r2 0\\nadd r0 r1\\nst r0 r2 0\\ncsend s0 s2 0\\njmp @again\"
cap = [{ slot = 0, kind = \"sendend\", number = 1 }, { slot = 1, kind = \"recvend\", number = 0 }, { slot = 2, kind = \"frame\", first = 0, length = 4 }]
";

// The blocks move while they work.
const MOVES: &str = "\
await 0 100 1000000000
move 0 2
await 0 200 1000000000
move 1 0
await 0 300 1000000000
move 0 1
await 0 500 1000000000
";

// Two cores, each with a block that never halts.
const LOOPS: &str = "\
format = 1
quantum = 4
slices = 100
[[core]]
version = \"rr\"
[[core]]
version = \"rr\"
[[block]]
home = 0
[[block.disp]]
code = [251658240]
[[block]]
home = 1
[[block.disp]]
code = [251658240]
";

const HELLO: &str = "\
format = 1
quantum = 4
slices = 100
[[core]]
version = \"rr\"
[[block]]
home = 0
[[block.disp]]
code = \"li r0 7\\nout r0\\nhalt\"
";

// The first await finds its word, and the second one is given up.
const MET_AND_UNMET: &str = "\
0 core 0 slice 0 0 fired 0 ran 1 call out clock 2
1 core 0 slice 0 0 fired 0 ran 1 halt clock 3
2 script 0 met 0 1
3 script 1 unmet 0 1
report
core 0 on rr clock 3 home 0 share 0 used 2
block 0 core 0 time 3 armed 0
disp 0 0 halted place 2 due 0
ready 0 -
out 0 7
end
";

fn file(alloc: Global, name: &[u8], text: &str) -> Result<MemFile, AllocError> {
    Ok(MemFile {
        name: Items::from_vec(name.to_vec(alloc)?),
        bytes: Items::from_vec(text.as_bytes().to_vec(alloc)?),
    })
}

// An image and a script by these names; the load of this number fails.
fn shelf(alloc: Global, image: &str, script: &str, failing: u64) -> Result<MemShelf, AllocError> {
    let mut files = Vec::new(alloc);
    files.push(file(alloc, b"image", image)?)?;
    files.push(file(alloc, b"script", script)?)?;
    Ok(MemShelf::of(files, vec![in alloc; failing]?))
}

// What a run of these two files writes, where its status is 0.
fn run_of<R: Abort + Threads + Wait + Sync, G: Gate>(
    rt: &R,
    alloc: Global,
    image: &str,
    script: &str,
    gate: &G,
) -> Result<MemSink, Fail> {
    let mut shelf = shelf(alloc, image, script, 9)?;
    let mut sink = MemSink::with_room(alloc, 1 << 20, Vec::new(alloc)).map_err(|_| "no memory")?;
    assert_eq!(rt;
        run_call(rt, alloc, &mut shelf, &mut sink, gate, "image", "script"),
        0
    );
    Ok(sink)
}

fn text_of(sink: &MemSink) -> Result<&str, Fail> {
    Ok(std::str::from_utf8(sink.bytes()).map_err(|_| "no text")?)
}

// How many lines have these words.
fn lines_with(text: &str, words: &str) -> u32 {
    let mut count = 0u32;
    for line in text.lines() {
        if line.contains(words) {
            count = count.wrapping_add(1);
        }
    }
    count
}

// At their first passes the first two cores wait for each other, but not for ever.
#[derive(Drop)]
struct Meeting {
    came: [AtomicBool; 2],
    missed: AtomicBool,
}

impl Gate for Meeting {
    fn pass(&self, core: CoreNo) {
        if core.0 < 2 && !self.came[core.0 as usize].swap(true, Ordering::SeqCst) {
            for _ in 0..1_000_000_000u32 {
                if self.came[1 - core.0 as usize].load(Ordering::SeqCst) {
                    return;
                }
            }
            self.missed.store(true, Ordering::SeqCst);
        }
    }
}

#[test]
fn a_ring_goes_on_while_its_blocks_move(rt: HostRuntime) -> Result<(), Fail> {
    let meeting = Meeting {
        came: [AtomicBool::new(false), AtomicBool::new(false)],
        missed: AtomicBool::new(false),
    };
    let sink = run_of(&rt, rt.alloc(), RING, MOVES, &meeting)?;
    let text = text_of(&sink)?;
    assert_eq!(&rt; meeting.missed.load(Ordering::SeqCst), false);
    assert_eq!(&rt; lines_with(text, " met 0 "), 4);
    assert_eq!(&rt; lines_with(text, " done"), 3);
    let mut end = String::new(rt.alloc());
    for i in 1..=500u32 {
        end.push_str(format!(in rt.alloc(); "out 0 {}\n", i * 2)?.as_str())?;
    }
    end.push_str("end\n")?;
    assert_eq!(&rt; text.ends_with(end.as_str()), true);
    Ok(())
}

// Holds the first pass of one core until the other has passed so often that it has used up its slices, but not for ever.
#[derive(Drop)]
struct Held {
    core: u32,
    passes: AtomicU32,
    is_free: AtomicBool,
}

impl Gate for Held {
    fn pass(&self, core: CoreNo) {
        if core.0 != self.core {
            self.passes.fetch_add(1, Ordering::SeqCst);
        } else if !self.is_free.swap(true, Ordering::SeqCst) {
            for _ in 0..1_000_000_000u32 {
                if self.passes.load(Ordering::SeqCst) > 100 {
                    return;
                }
            }
        }
    }
}

#[test]
fn a_core_that_is_held_comes_last(rt: HostRuntime) -> Result<(), Fail> {
    for (held, first) in [(1u32, "core 0 slice"), (0, "core 1 slice")] {
        let gate = Held {
            core: held,
            passes: AtomicU32::new(0),
            is_free: AtomicBool::new(false),
        };
        let sink = run_of(&rt, rt.alloc(), LOOPS, "", &gate)?;
        let mut count = 0u32;
        for line in text_of(&sink)?.lines().take(100) {
            if line.contains(first) {
                count = count.wrapping_add(1);
            }
        }
        assert_eq!(&rt; count, 100);
        assert_eq!(&rt; lines_with(text_of(&sink)?, " slice "), 200);
    }
    Ok(())
}

#[test]
fn an_await_is_given_up_once_no_core_can_act(rt: HostRuntime) -> Result<(), Fail> {
    let sink = run_of(&rt, rt.alloc(), HELLO, "await 0 1 1\nawait 0 2 1\n", &Open)?;
    assert_eq!(&rt; text_of(&sink)?, MET_AND_UNMET);
    Ok(())
}

#[test]
fn each_load_of_a_run_that_fails_is_told_by_its_file(rt: HostRuntime) -> Result<(), Fail> {
    let alloc = rt.alloc();
    for (failing, text) in [(1, "read fault image\n"), (2, "read fault script\n")] {
        let mut shelf = shelf(alloc, HELLO, "", failing)?;
        let mut sink = MemSink::with_room(alloc, 4096, Vec::new(alloc)).map_err(|_| "no memory")?;
        assert_eq!(&rt;
            run_call(&rt, alloc, &mut shelf, &mut sink, &Open, "image", "script"),
            5
        );
        assert_eq!(&rt; text_of(&sink)?, text);
    }
    Ok(())
}

#[test]
fn each_put_of_a_run_that_fails_leaves_the_lines_before_it(rt: HostRuntime) -> Result<(), Fail> {
    let alloc = rt.alloc();
    let mut left = 0;
    for failing in 1..12 {
        let mut shelf = shelf(alloc, HELLO, "await 0 1 1\nawait 0 2 1\n", 9)?;
        let mut sink = MemSink::with_room(alloc, 4096, vec![in alloc; failing]?).map_err(
            |_| "no memory",
        )?;
        assert_eq!(&rt;
            run_call(&rt, alloc, &mut shelf, &mut sink, &Open, "image", "script"),
            6,
            "put {failing}"
        );
        assert!(&rt; MET_AND_UNMET.starts_with(text_of(&sink)?), "put {failing}");
        assert!(&rt; failing == 1 || sink.bytes().len() > left, "put {failing}");
        left = sink.bytes().len();
    }
    // all but the line `end`
    assert_eq!(&rt; left.wrapping_add(4), MET_AND_UNMET.len());
    Ok(())
}

use dc_base::actions::Actor;
use dc_base::calls::{End, Op};
use dc_base::commands::{Order, Refusal};
use dc_base::entries::{Entry, What};
use dc_base::faults::JournalFault;
use dc_base::interrupts::{Latched, Raised};
use dc_base::kernels::Version;
use dc_base::numbers::{BlockNo, CoreNo, DispNo, LineNo, SignalNo, Ticket};
use dc_base::reports::ReportLine;
use dc_journal::{entry_line, read_journal, report_line};
use std::test::Fail;

#[test]
fn entries_have_lines(rt: HostRuntime) {
    let slice = Entry {
        actor: Actor::Core(CoreNo(7)),
        what: What::Slice {
            block: BlockNo(3),
            disp: DispNo(1),
            fired: 0,
            ran: 64,
            end: End::Quantum,
            clock: 18446744073709551615,
        },
    };
    let text = "0 core 7 slice 3 1 fired 0 ran 64 quantum clock 18446744073709551615";
    assert_eq!(rt; entry_line(Ticket(0), &slice).as_str(), text);
    let replace = Entry {
        actor: Actor::Core(CoreNo(0)),
        what: What::Replace {
            version: Version::Edf,
        },
    };
    assert_eq!(rt;
        entry_line(Ticket(12), &replace).as_str(),
        "12 core 0 replace edf"
    );
    let adopt = Entry {
        actor: Actor::Core(CoreNo(1)),
        what: What::Adopt {
            block: BlockNo(2),
            parked: true,
            time: 9,
        },
    };
    assert_eq!(rt;
        entry_line(Ticket(2), &adopt).as_str(),
        "2 core 1 adopt 2 parked time 9"
    );
}

#[test]
fn report_lines_have_texts(rt: HostRuntime) {
    let off = ReportLine::CoreOff {
        core: CoreNo(7),
        clock: 18446744073709551615,
        used: 4294967295,
    };
    assert_eq!(rt;
        report_line(&off).as_str(),
        "core 7 off clock 18446744073709551615 used 4294967295"
    );
    let rests = ReportLine::Block {
        block: BlockNo(15),
        core: None,
        time: 4,
        armed: 0,
    };
    assert_eq!(rt;
        report_line(&rests).as_str(),
        "block 15 rest time 4 armed 0"
    );
}

#[test]
fn entries_are_read(rt: HostRuntime) {
    let cores = [
        (
            "0 core 7 slice 3 1 fired 2 ran 64 quantum clock 18446744073709551615\n",
            What::Slice {
                block: BlockNo(3),
                disp: DispNo(1),
                fired: 2,
                ran: 64,
                end: End::Quantum,
                clock: 18446744073709551615,
            },
        ),
        (
            "0 core 7 slice 3 1 fired 0 ran 5 trap 255 clock 0\n",
            What::Slice {
                block: BlockNo(3),
                disp: DispNo(1),
                fired: 0,
                ran: 5,
                end: End::Trap(255),
                clock: 0,
            },
        ),
        (
            "0 core 7 slice 3 1 fired 0 ran 5 hold claim clock 9\n",
            What::Slice {
                block: BlockNo(3),
                disp: DispNo(1),
                fired: 0,
                ran: 5,
                end: End::Hold(Op::Claim),
                clock: 9,
            },
        ),
        (
            "0 core 7 slice 3 - fired 2 ran 0 none clock 8\n",
            What::SliceNone {
                block: BlockNo(3),
                fired: 2,
                clock: 8,
            },
        ),
        ("0 core 7 idle clock 8\n", What::Idle { clock: 8 }),
        (
            "0 core 7 wake 15 4294967295\n",
            What::Wake {
                block: BlockNo(15),
                disp: DispNo(4294967295),
            },
        ),
        (
            "0 core 7 intake 1 2 3 4 coalesced\n",
            What::Intake {
                line: LineNo(1),
                number: 2,
                block: BlockNo(3),
                signal: SignalNo(4),
                latched: Latched::Coalesced,
            },
        ),
        (
            "0 core 7 start edf clock 6\n",
            What::Start {
                version: Version::Edf,
                clock: 6,
            },
        ),
        ("0 core 7 stop 3\n", What::Stop { released: 3 }),
        (
            "0 core 7 replace rr\n",
            What::Replace {
                version: Version::Rr,
            },
        ),
        (
            "0 core 7 adopt 2 home time 5\n",
            What::Adopt {
                block: BlockNo(2),
                parked: false,
                time: 5,
            },
        ),
        (
            "0 core 7 release 2 time 5\n",
            What::Release {
                block: BlockNo(2),
                time: 5,
            },
        ),
    ];
    for (text, what) in cores {
        let read = read_journal(rt.alloc(), text.as_bytes()).expect(&rt, "a journal");
        let entry = Entry {
            actor: Actor::Core(CoreNo(7)),
            what,
        };
        assert!(rt; read.as_slice() == [entry].as_slice(), "in {text}");
    }
}

#[test]
fn entries_of_the_script_are_read(rt: HostRuntime) {
    let lines = [
        (
            "0 script 4 post 1 adopt 2 parked\n",
            What::Post {
                place: 4,
                core: CoreNo(1),
                order: Order::Adopt {
                    block: BlockNo(2),
                    parked: true,
                },
            },
        ),
        (
            "0 script 4 post 1 stop\n",
            What::Post {
                place: 4,
                core: CoreNo(1),
                order: Order::Stop,
            },
        ),
        ("0 script 4 done\n", What::Done { place: 4 }),
        (
            "0 script 4 refused 3 SameVersion 1 edf\n",
            What::Refused {
                place: 4,
                refusal: Refusal::SameVersion {
                    core: CoreNo(1),
                    version: Version::Edf,
                },
            },
        ),
        (
            "0 script 4 refused 5 HomeTaken 1 2\n",
            What::Refused {
                place: 4,
                refusal: Refusal::HomeTaken {
                    core: CoreNo(1),
                    block: BlockNo(2),
                },
            },
        ),
        (
            "0 script 4 raise 3 1 stray\n",
            What::Raise {
                place: 4,
                line: LineNo(3),
                raised: Raised::Stray(1),
            },
        ),
        (
            "0 script 4 route 3 1\n",
            What::Route {
                place: 4,
                line: LineNo(3),
                core: CoreNo(1),
            },
        ),
        (
            "0 script 4 met 2 9\n",
            What::Met {
                place: 4,
                block: BlockNo(2),
                seen: 9,
            },
        ),
        (
            "0 script 4 unmet 2 9\n",
            What::Unmet {
                place: 4,
                block: BlockNo(2),
                seen: 9,
            },
        ),
    ];
    for (text, what) in lines {
        let read = read_journal(rt.alloc(), text.as_bytes()).expect(&rt, "a journal");
        let entry = Entry {
            actor: Actor::Script,
            what,
        };
        assert!(rt; read.as_slice() == [entry].as_slice(), "in {text}");
    }
}

#[test]
fn journals_end_at_their_report(rt: HostRuntime) {
    let cases = [
        ("", 0),
        ("report\n", 0),
        ("report\nno entry", 0),
        ("0 core 0 stop 1\n1 core 1 stop 2\nreport\nno entry\n", 2),
    ];
    for (text, count) in cases {
        let read = read_journal(rt.alloc(), text.as_bytes()).expect(&rt, "a journal");
        assert_eq!(rt; read.len(), count, "in {text}");
    }
}

#[test]
fn faults_have_their_lines(rt: HostRuntime) {
    let cases = [
        ("1 core 0 stop 1\n", 1),
        ("0 core 0 stop 1\n0 core 0 stop 1\n", 2),
        ("0 core 0 stop 1\n2 core 0 stop 1\n", 2),
        ("0 core 0 stop 01\n", 1),
        ("0 core 0 stop 4294967296\n", 1),
        ("0 core 0 idle clock 18446744073709551616\n", 1),
        ("0 core 0  stop 1\n", 1),
        ("0 core 0 stop 1 \n", 1),
        ("0 core 0 stop 1\r\n", 1),
        ("0 core 0 stop 1", 1),
        ("0 core 0 stop 1\nreport", 2),
        ("0 core 0 stop 1\n\n", 2),
        ("0 script 0 stop 1\n", 1),
        ("0 core 0 slice 1 2 fired 0 ran 5 none clock 9\n", 1),
        ("0 core 0 slice 1 2 fired 0 ran 5 trap 256 clock 9\n", 1),
        ("0 core 0 slice 1 - fired 0 ran 1 none clock 9\n", 1),
        ("0 script 4 refused 5 NotHome 0\n", 1),
        ("0 script 4 post 1 halt\n", 1),
        ("0 script 4 raise 3 1 latched\n", 1),
    ];
    for (text, line) in cases {
        let read = read_journal(rt.alloc(), text.as_bytes());
        assert!(rt;
            matches!(read, Err(JournalFault::Bad { line: at }) if at == line),
            "in {text}"
        );
    }
}

// Worked sessions as whole scripts, and images that fail between their pieces.
use crate::run_tests::{Ended, Fails, Groups, NONE, has_at, is_all, joined, left_by, outcome_by};
use std::alloc::{AllocError, Global};
use std::process::Abort;
use std::test::Fail;

/// The parameters of a session, its script, the text that is put, and bytes at places of the image that is left.
#[derive(Clone, Copy)]
struct Session {
    params: &'static str,
    script: Groups,
    text: Groups,
    image: &'static [(usize, &'static [u8])],
}

const CONSOLE: &str = "mem_size=4096 record_size=0 ftrace_size=0 pmsg_size=0";

const CONSOLE_WITH_PARITY: &str = "mem_size=4096 record_size=0 ftrace_size=0 pmsg_size=0 ecc=2";

const FOUR: &str = "mem_size=16384 ftrace_size=0";

const FOUR_WITH_PARITY: &str = "mem_size=16384 ftrace_size=0 ecc=1";

const TWO_PROCESSORS: &str =
    "mem_size=4096 record_size=0 console_size=0 ftrace_size=4096 cpus=2 pmsg_size=0";

// What the first boot of zeros puts of one console, of four zones, and of two ftrace zones.
const ONE_UNSIGNED: &[u8] =
    b"boot console unsigned start 0 size 0 corrected 0 bad 0 nothing told\n";

const FOUR_UNSIGNED: &[u8] = b"boot dump-0 unsigned start 0 size 0 corrected 0 bad 0 nothing told\n\
    boot dump-1 unsigned start 0 size 0 corrected 0 bad 0 nothing told\n\
    boot console unsigned start 0 size 0 corrected 0 bad 0 nothing told\n\
    boot pmsg unsigned start 0 size 0 corrected 0 bad 0 nothing told\n";

const TWO_UNSIGNED: &[u8] =
    b"boot ftrace-0 unsigned start 0 size 0 corrected 0 bad 0 nothing told\n\
    boot ftrace-1 unsigned start 0 size 0 corrected 0 bad 0 nothing told\n";

// What a later boot puts of dump zones and of pmsg that no call wrote.
const DUMPS_EMPTY: &[u8] = b"boot dump-0 empty start 0 size 0 corrected 0 bad 0 as told\n\
    boot dump-1 empty start 0 size 0 corrected 0 bad 0 as told\n";

const CONSOLE_EMPTY: &[u8] = b"boot console empty start 0 size 0 corrected 0 bad 0 as told\n";

const PMSG_EMPTY: &[u8] = b"boot pmsg empty start 0 size 0 corrected 0 bad 0 as told\n";

const ALPHABET: &[u8] = b"6162636465666768696a6b6c6d6e6f707172737475767778797a";

// An entry with the function 1, the caller 2 and the time 0x500, as the digits of a payload.
const ENTRY: &[u8] = b"010000000000000002000000000000000005000000000000";

// Calls that are cut.
const CUTS: &[Session] = &[
    // A write that is cut after its size word.
    Session {
        params: CONSOLE,
        script: &[(
            b"boot\nwrite console 616263\nbegin write console 646566\nstep console 1\nstop\n\
              boot\nlist\nextract console-ramoops-0\n",
            1,
        )],
        text: &[
            (ONE_UNSIGNED, 1),
            (
                b"boot console found start 3 size 6 corrected 0 bad 0 differs told 3 read 6 first 0\n\
                  cut console write 1 of 5 header pair 1 blocks 0\n\
                  records 1\nconsole-ramoops-0 6\nconsole-ramoops-0 6\n\0\0\0abc\n",
                1,
            ),
        ],
        image: &[],
    },
    // The same with parity.
    Session {
        params: FOUR_WITH_PARITY,
        script: &[(
            b"boot\nwrite console 616263\nbegin write console 646566\nstep console 1\nstop\n\
              boot\nextract console-ramoops-0\n",
            1,
        )],
        text: &[
            (FOUR_UNSIGNED, 1),
            (DUMPS_EMPTY, 1),
            (
                b"boot console found start 3 size 3 corrected 1 bad 0 as told\n\
                  cut console write 1 of 37 header pair 0 blocks 0\n",
                1,
            ),
            (PMSG_EMPTY, 1),
            (
                b"console-ramoops-0 51\nabc\nECC: 1 Corrected bytes, 0 unrecoverable blocks\n\n",
                1,
            ),
        ],
        image: &[],
    },
    // The same, cut before the header's parity.
    Session {
        params: FOUR_WITH_PARITY,
        script: &[(
            b"boot\nwrite console 616263\nbegin write console 646566\nstep console 21\nstop\nboot\n",
            1,
        )],
        text: &[
            (FOUR_UNSIGNED, 1),
            (DUMPS_EMPTY, 1),
            (
                b"boot console found start 3 size 3 corrected 2 bad 0 as told\n\
                  cut console write 21 of 37 header pair 0 blocks 0\n",
                1,
            ),
            (PMSG_EMPTY, 1),
        ],
        image: &[],
    },
    // The second write to a ring that the first filled makes two stores.
    Session {
        params: CONSOLE,
        script: &[
            (b"boot\nwrite console ", 1),
            (b"61", 4084),
            (
                b"\nbegin write console 62\nstep console 2\nwrite console -\nstop\nboot\n",
                1,
            ),
        ],
        text: &[
            (ONE_UNSIGNED, 1),
            (
                b"boot console found start 1 size 4084 corrected 0 bad 0 as told\n",
                1,
            ),
        ],
        image: &[],
    },
    // An erasure of a full ring that is cut after its start word.
    Session {
        params: CONSOLE,
        script: &[
            (b"boot\nwrite console ", 1),
            (ALPHABET, 157),
            (
                b"6162\nwrite console 21\nbegin erase console\nstep console 1\nstop\nboot\n",
                1,
            ),
            (b"extract console-ramoops-0\n", 1),
        ],
        text: &[
            (ONE_UNSIGNED, 1),
            (
                b"boot console found start 0 size 4084 corrected 0 bad 0 differs told 4084 read 4084 first 0\n\
                  cut console erase 1 of 2 header pair 1 blocks none\n\
                  console-ramoops-0 4084\n!bcdefghijklmnopqrstuvwxyz",
                1,
            ),
            (b"abcdefghijklmnopqrstuvwxyz", 156),
            (b"ab\n", 1),
        ],
        image: &[],
    },
];

// Damage, and headers that read as others.
const DAMAGES: &[Session] = &[
    // As much damage to a block as half its parity bears.
    Session {
        params: FOUR_WITH_PARITY,
        script: &[(
            b"boot\nwrite console 616263\nstop\nflip 8204 1\nflip 8205 1\nflip 8206 1\nflip 8207 1\n\
              flip 8208 1\nflip 8209 1\nflip 8210 1\nflip 8211 1\nboot\nextract console-ramoops-0\n",
            1,
        )],
        text: &[
            (FOUR_UNSIGNED, 1),
            (DUMPS_EMPTY, 1),
            (
                b"boot console found start 3 size 3 corrected 8 bad 0 as told\n",
                1,
            ),
            (PMSG_EMPTY, 1),
            (
                b"console-ramoops-0 51\nabc\nECC: 8 Corrected bytes, 0 unrecoverable blocks\n\n",
                1,
            ),
        ],
        image: &[],
    },
    // One flip more.
    Session {
        params: FOUR_WITH_PARITY,
        script: &[
            (b"boot\nwrite console ", 1),
            (b"61", 200),
            (
                b"\nstop\nflip 8204 1\nflip 8205 255\nflip 8206 11\nflip 8207 81\nflip 8208 54\n\
                  flip 8209 239\nflip 8210 173\nflip 8211 200\nflip 8212 24\n\
                  boot\nextract console-ramoops-0\n",
                1,
            ),
        ],
        text: &[
            (FOUR_UNSIGNED, 1),
            (DUMPS_EMPTY, 1),
            (
                b"boot console found start 200 size 200 corrected 0 bad 1 differs told 200 read 200 first 0\n",
                1,
            ),
            (PMSG_EMPTY, 1),
            (
                b"console-ramoops-0 248\n\x60\x9e\x6a\x30\x57\x8e\xcc\xa9\x79",
                1,
            ),
            (b"a", 191),
            (b"\nECC: 0 Corrected bytes, 1 unrecoverable blocks\n\n", 1),
        ],
        image: &[],
    },
    // As much damage to a header.
    Session {
        params: FOUR_WITH_PARITY,
        script: &[(
            b"boot\nwrite console 616263\nstop\nflip 8192 255\nflip 8193 255\nflip 8194 255\n\
              flip 8195 255\nflip 8196 255\nflip 8197 255\nflip 8198 255\nflip 8199 255\nboot\nlist\n",
            1,
        )],
        text: &[
            (FOUR_UNSIGNED, 1),
            (DUMPS_EMPTY, 1),
            (
                b"boot console found start 3 size 3 corrected 8 bad 0 as told\n",
                1,
            ),
            (PMSG_EMPTY, 1),
            (b"records 1\nconsole-ramoops-0 51\n", 1),
        ],
        image: &[],
    },
    // A header that reads neither the words before the write nor those after it.
    Session {
        params: CONSOLE_WITH_PARITY,
        script: &[(
            b"boot\nwrite console 616263\nbegin write console 646566\nstep console 2\nstop\n\
              boot\nextract console-ramoops-0\n",
            1,
        )],
        text: &[
            (ONE_UNSIGNED, 1),
            (
                b"boot console found start 6 size 6 corrected 0 bad 1 differs told 3 read 6 first 3\n\
                  cut console write 2 of 9 header pair 2 blocks 0\n\
                  console-ramoops-0 54\nabc\0\0\0\nECC: 0 Corrected bytes, 1 unrecoverable blocks\n\n",
                1,
            ),
        ],
        image: &[],
    },
    // A header whose nearest codeword has another signature.
    Session {
        params: CONSOLE_WITH_PARITY,
        script: &[
            (b"boot\nwrite console ", 1),
            (b"61", 4018),
            (b"\nbegin write console ", 1),
            (b"62", 1541),
            (b"\nstep console 1\nstop\nboot\nlist\n", 1),
        ],
        text: &[
            (ONE_UNSIGNED, 1),
            (
                b"boot console unsigned start 1541 size 4018 corrected 1 bad 0 differs told 4018 read 0 first 0\n\
                  cut console write 1 of 1570 header foreign blocks 0-12\nrecords 0\n",
                1,
            ),
        ],
        image: &[],
    },
    // A write past the end of the ring touches the last block and the first four.
    Session {
        params: CONSOLE,
        script: &[
            (b"boot\nwrite console ", 1),
            (b"61", 4000),
            (b"\nbegin write console ", 1),
            (b"62", 500),
            (b"\nstep console 2\nstop\nboot\n", 1),
        ],
        text: &[
            (ONE_UNSIGNED, 1),
            (
                b"boot console found start 416 size 4084 corrected 0 bad 0 differs told 4000 read 4084 first 3584\n\
                  cut console write 2 of 502 header pair 2 blocks 0-3,31\n",
                1,
            ),
        ],
        image: &[],
    },
    // A header that is no codeword, with words that are no ring.
    Session {
        params: CONSOLE_WITH_PARITY,
        script: &[(
            b"flip 0 68\nflip 1 66\nflip 2 71\nflip 3 67\nflip 4 5\nflip 8 245\nflip 9 15\nboot\n",
            1,
        )],
        text: &[(
            b"boot console invalid start 5 size 4085 corrected 0 bad 1 nothing told\n",
            1,
        )],
        image: &[],
    },
];

// Records of dumps and of ftrace.
const RECORDS: &[Session] = &[
    // The record of a dump is erased, and that of the next is kept.
    Session {
        params: FOUR,
        script: &[(
            b"boot\ndump 1700000000 123 D 6f6e65\ndump 1700000001 0 D 74776f\nstop\nboot\n\
              list\nerase dmesg-ramoops-0\nlist\nextract dmesg-ramoops-1\n",
            1,
        )],
        text: &[
            (FOUR_UNSIGNED, 1),
            (
                b"boot dump-0 found start 27 size 27 corrected 0 bad 0 as told\n\
                  boot dump-1 found start 27 size 27 corrected 0 bad 0 as told\n",
                1,
            ),
            (CONSOLE_EMPTY, 1),
            (PMSG_EMPTY, 1),
            (
                b"records 2\ndmesg-ramoops-0 3 1700000000.000123\ndmesg-ramoops-1 3 1700000001.000000\n\
                  records 1\ndmesg-ramoops-1 3 1700000001.000000\ndmesg-ramoops-1 3\ntwo\n",
                1,
            ),
        ],
        image: &[
            (0, b"DBGC\0\0\0\0\0\0\0\0====1700000000.000123-D\n"),
            (4096, b"DBGC\x1b\0\0\0\x1b\0\0\0"),
        ],
    },
    // The third dump goes to the first zone again, and a long one keeps its first bytes.
    Session {
        params: FOUR,
        script: &[
            (
                b"boot\ndump 1700000000 123 D 6f6e65\ndump 1700000001 0 D 74776f\ndump 1700000002 0 D ",
                1,
            ),
            (b"78", 4060),
            (b"79", 940),
            (b"\nstop\nboot\nlist\nextract dmesg-ramoops-0\n", 1),
        ],
        text: &[
            (FOUR_UNSIGNED, 1),
            (
                b"boot dump-0 found start 0 size 4084 corrected 0 bad 0 as told\n\
                  boot dump-1 found start 27 size 27 corrected 0 bad 0 as told\n",
                1,
            ),
            (CONSOLE_EMPTY, 1),
            (PMSG_EMPTY, 1),
            (
                b"records 2\ndmesg-ramoops-0 4060 1700000002.000000\n\
                  dmesg-ramoops-1 3 1700000001.000000\ndmesg-ramoops-0 4060\n",
                1,
            ),
            (b"x", 4060),
            (b"\n", 1),
        ],
        image: &[],
    },
    // A dump and a write that are cut together.
    Session {
        params: FOUR,
        script: &[(
            b"boot\nwrite pmsg 70\nbegin write console 616263\nbegin dump 5 6 D 78\nstep console 3\n\
              step dump-0 4\nstop\nboot\nlist\nextract console-ramoops-0\n",
            1,
        )],
        text: &[
            (FOUR_UNSIGNED, 1),
            (
                b"boot dump-0 found start 15 size 15 corrected 0 bad 0 differs told 0 read 15 first 0\n\
                  cut dump-0 dump 4 of 22 header pair 4 blocks 0\n\
                  boot dump-1 empty start 0 size 0 corrected 0 bad 0 as told\n\
                  boot console found start 3 size 3 corrected 0 bad 0 differs told 0 read 3 first 0\n\
                  cut console write 3 of 5 header pair 2 blocks 0\n\
                  boot pmsg found start 1 size 1 corrected 0 bad 0 as told\n\
                  records 2\nconsole-ramoops-0 3\npmsg-ramoops-0 1\nconsole-ramoops-0 3\na\0\0\n",
                1,
            ),
        ],
        image: &[(0, b"DBGC\0\0\0\0\0\0\0\0")],
    },
    // The entries of two processors as one record, by their times.
    Session {
        params: TWO_PROCESSORS,
        script: &[
            (b"boot\nwrite ftrace-0 ", 1),
            (ENTRY, 1),
            (b"010000000000000002000000000000000007000000000000", 1),
            (
                b"\nwrite ftrace-1 010000000000000002000000000000000105000000000000",
                1,
            ),
            (b"\nstop\nboot\nlist\nextract ftrace-ramoops-0\n", 1),
        ],
        text: &[
            (TWO_UNSIGNED, 1),
            (
                b"boot ftrace-0 found start 48 size 48 corrected 0 bad 0 as told\n\
                  boot ftrace-1 found start 24 size 24 corrected 0 bad 0 as told\n\
                  records 1\nftrace-ramoops-0 72\nftrace-ramoops-0 72\n\
                  \x01\0\0\0\0\0\0\0\x02\0\0\0\0\0\0\0\x01\x05\0\0\0\0\0\0\
                  \x01\0\0\0\0\0\0\0\x02\0\0\0\0\0\0\0\0\x05\0\0\0\0\0\0\
                  \x01\0\0\0\0\0\0\0\x02\0\0\0\0\0\0\0\0\x07\0\0\0\0\0\0\n",
                1,
            ),
        ],
        image: &[],
    },
    // More entries than a ring holds: the entry that lost its front is dropped.
    Session {
        params: TWO_PROCESSORS,
        script: &[
            (b"boot\nwrite ftrace-0 ", 1),
            (ENTRY, 85),
            (b"\nstop\nboot\nextract ftrace-ramoops-0\n", 1),
        ],
        text: &[
            (TWO_UNSIGNED, 1),
            (
                b"boot ftrace-0 found start 0 size 2036 corrected 0 bad 0 as told\n\
                  boot ftrace-1 empty start 0 size 0 corrected 0 bad 0 as told\nftrace-ramoops-0 2016\n",
                1,
            ),
            (
                b"\x01\0\0\0\0\0\0\0\x02\0\0\0\0\0\0\0\0\x05\0\0\0\0\0\0",
                84,
            ),
            (b"\n", 1),
        ],
        image: &[],
    },
];

// Boots that are stopped.
const BOOTS: &[Session] = &[
    // A first boot that is stopped after the store of the signature, and one that may make more stores than it has.
    Session {
        params: CONSOLE,
        script: &[(b"boot 1\nboot\n", 1)],
        text: &[(
            b"boot stopped after 1 stores\n\
              boot console empty start 0 size 0 corrected 0 bad 0 nothing told\n\
              cut console erase 1 of 3 header pair 0 blocks none\n",
            1,
        )],
        image: &[],
    },
    Session {
        params: CONSOLE,
        script: &[(b"boot 9\nboot\n", 1)],
        text: &[(b"boot stopped after 3 stores\n", 1), (CONSOLE_EMPTY, 1)],
        image: &[],
    },
    // A boot that is stopped before its first store leaves the damage to be found.
    Session {
        params: CONSOLE,
        script: &[(
            b"boot\nwrite console 616263\nstop\nflip 12 1\nboot 0\nboot\n",
            1,
        )],
        text: &[
            (ONE_UNSIGNED, 1),
            (
                b"boot stopped after 0 stores\n\
                  boot console found start 3 size 3 corrected 0 bad 0 differs told 3 read 3 first 0\n",
                1,
            ),
        ],
        image: &[],
    },
    // A boot that is stopped after its first store.
    Session {
        params: CONSOLE,
        script: &[(b"boot\nwrite console 616263\nstop\nboot 1\nboot\n", 1)],
        text: &[
            (ONE_UNSIGNED, 1),
            (
                b"boot stopped after 1 stores\n\
                  boot console found start 0 size 3 corrected 0 bad 0 as told\n\
                  cut console erase 1 of 2 header pair 1 blocks none\n",
                1,
            ),
        ],
        image: &[],
    },
    // The same with parity, on four zones.
    Session {
        params: FOUR_WITH_PARITY,
        script: &[(b"boot\nwrite console 616263\nstop\nboot 1\nboot\n", 1)],
        text: &[
            (FOUR_UNSIGNED, 1),
            (b"boot stopped after 1 stores\n", 1),
            (DUMPS_EMPTY, 1),
            (
                b"boot console found start 3 size 3 corrected 1 bad 0 as told\n\
                  cut console erase 1 of 18 header pair 0 blocks none\n",
                1,
            ),
            (PMSG_EMPTY, 1),
        ],
        image: &[],
    },
];

// The size of the image that these parameters ask for.
fn zeros(alloc: Global, params: &str) -> Result<Vec<u8>, AllocError> {
    let size = if params.starts_with("mem_size=4096 ") {
        4096
    } else {
        16384
    };
    Vec::from_elem(alloc, 0u8, size)
}

// Whether the image has all these bytes at their places.
fn has_all(image: &[u8], places: &[(usize, &[u8])]) -> bool {
    places.iter().all(|(at, bytes)| has_at(image, *at, bytes))
}

// Runs a script on an image of zeros, looks at its text, and gives the image that it leaves.
fn left_by_zeros(
    rt: &(impl Abort + AllocGlobal),
    params: &str,
    script: &[u8],
    text: &[u8],
) -> Result<Vec<u8>, Fail> {
    let line = format!(in rt.alloc(); "image run {params}")?;
    let image = zeros(rt.alloc(), params)?;
    Ok(left_by(rt, &line, script, &image, NONE, 0, text))
}

fn assert_session(rt: &(impl Abort + AllocGlobal), i: usize, session: Session) -> Result<(), Fail> {
    let script = joined(rt.alloc(), session.script)?;
    let text = joined(rt.alloc(), session.text)?;
    let image = left_by_zeros(rt, session.params, &script, &text)?;
    assert!(rt; has_all(&image, session.image), "session {i}");
    Ok(())
}

fn assert_sessions(rt: &(impl Abort + AllocGlobal), sessions: &[Session]) -> Result<(), Fail> {
    for (i, session) in sessions.iter().copied().enumerate() {
        assert_session(rt, i, session)?;
    }
    Ok(())
}

#[test]
fn worked_cuts(rt: HostRuntime) -> Result<(), Fail> {
    assert_sessions(&rt, CUTS)
}

#[test]
fn worked_damages(rt: HostRuntime) -> Result<(), Fail> {
    assert_sessions(&rt, DAMAGES)
}

#[test]
fn worked_records(rt: HostRuntime) -> Result<(), Fail> {
    assert_sessions(&rt, RECORDS)
}

#[test]
fn worked_boots(rt: HostRuntime) -> Result<(), Fail> {
    assert_sessions(&rt, BOOTS)
}

const TWO_PIECES: &str =
    "image run mem_size=131072 record_size=0 console_size=65536 ftrace_size=0 pmsg_size=65536";

const PIECES_TEXT: &[u8] =
    b"boot console unsigned start 4008636142 size 4008636142 corrected 0 bad 0 nothing told\n\
    boot pmsg unsigned start 4008636142 size 4008636142 corrected 0 bad 0 nothing told\n";

// The pmsg ring is filled.
const PIECES_SCRIPT: Groups = &[
    (b"boot\nwrite console 616263\nwrite pmsg ", 1),
    (b"61", 65_524),
    (b"\n", 1),
];

// A console and a pmsg zone, each as large as a piece, over an image of other bytes.
fn in_two_pieces(alloc: Global, fails: Fails) -> Result<Ended, Fail> {
    let script = joined(alloc, PIECES_SCRIPT)?;
    let image = Vec::from_elem(alloc, 0xeeu8, 131_072)?;
    outcome_by(alloc, TWO_PIECES, &script, 4096, &image, fails)
}

// Whether the run ended with this status and this text.
fn is_told(ran: &Ended, status: u8, text: &[u8]) -> bool {
    ran.status == status && ran.text.as_slice() == text
}

// Whether both zones are written.
fn is_written(image: &[u8]) -> bool {
    has_at(image, 0, b"DBGC\x03\0\0\0\x03\0\0\0abc\xee")
        && has_at(image, 65_536, b"DBGC\0\0\0\0\xf4\xff\0\0aa")
        && is_all(image, 65_548, b'a')
}

#[test]
fn an_image_of_two_pieces_is_written(rt: HostRuntime) -> Result<(), Fail> {
    let ran = in_two_pieces(rt.alloc(), NONE)?;
    assert!(rt; is_told(&ran, 0, PIECES_TEXT) && is_written(&ran.image));
    Ok(())
}

// The second piece fails when it is read. The image is read before the script, so it is the image's fault where both
// fail.
#[test]
fn an_image_fails_at_its_second_piece(rt: HostRuntime) -> Result<(), Fail> {
    let second = Fails {
        image: &[3],
        ..NONE
    };
    let first_and_script = Fails {
        script: &[1],
        image: &[2],
        ..NONE
    };
    for fails in [second, first_and_script] {
        let ran = in_two_pieces(rt.alloc(), fails)?;
        assert!(rt; is_told(&ran, 6, b"image fault\n") && is_all(&ran.image, 0, 0xee));
    }
    Ok(())
}

// Whether the text of the pieces is put, and then the fault.
fn is_put_with_fault(text: &[u8]) -> bool {
    text.starts_with(PIECES_TEXT) && text.ends_with(b"nothing told\nimage fault\n".as_slice())
}

// Whether an image is that of the whole run up to the half of its second piece, and untouched from there on.
fn is_taken(image: &[u8], whole: &[u8]) -> bool {
    match whole.get(..98_304) {
        Some(front) => image.starts_with(front) && is_all(image, 98_304, 0xee),
        None => false,
    }
}

// The second piece fails when it is written: the first is whole by then, and the store took half of the second.
#[test]
fn an_image_is_left_with_its_first_piece(rt: HostRuntime) -> Result<(), Fail> {
    let whole = in_two_pieces(rt.alloc(), NONE)?;
    let fails = Fails {
        image: &[5],
        ..NONE
    };
    let ran = in_two_pieces(rt.alloc(), fails)?;
    assert!(rt; ran.status == 6 && is_put_with_fault(&ran.text));
    assert!(rt; is_taken(&ran.image, &whole.image));
    Ok(())
}

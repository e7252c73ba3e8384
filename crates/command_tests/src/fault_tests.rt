// Faults of the outside, the order of causes, and hostile bytes: what is answered, put and left.
use crate::run_tests::{CONSOLE, FIRST_RECORD, FIRST_TEXT, Fails, NONE, outcome_by};
use std::alloc::{AllocError, Global};
use std::process::Abort;
use std::test::Fail;

/// The image that a case begins with.
#[derive(Clone, Copy)]
enum Begins {
    /// So many bytes of one value.
    All(usize, u8),
    /// Zeros after these bytes.
    Headed(&'static [u8]),
}

/// The script of a case.
#[derive(Clone, Copy)]
enum Script {
    Lines(&'static str),
    Newlines(usize),
}

/// The text that is put.
#[derive(Clone, Copy)]
enum Text {
    Is(&'static str),
    /// That of the first console record, and this line.
    FirstAnd(&'static str),
    /// Some front of that text.
    FrontOfFirst,
}

/// What the image holds afterwards.
#[derive(Clone, Copy)]
enum Left {
    Same,
    /// These bytes at the front, and then what stood there.
    New(&'static [u8]),
}

#[derive(Clone, Copy)]
struct Case {
    begins: Begins,
    script: Script,
    per_call: u32,
    fails: Fails<'static>,
    status: u8,
    text: Text,
    left: Left,
}

const RECORD: &[u8] = b"DBGC\0\0\0\0\0\0\0\0abc";

const ERASED: &[u8] = b"DBGC\0\0\0\0\0\0\0\0";

// The first console record on an image of zeros, done.
const FIRST: Case = Case {
    begins: Begins::All(4096, 0),
    script: Script::Lines(FIRST_RECORD),
    per_call: 7,
    fails: NONE,
    status: 0,
    text: Text::Is(FIRST_TEXT),
    left: Left::New(RECORD),
};

// A boot of strange bytes.
const BOOT: Case = Case {
    script: Script::Lines("boot\n"),
    left: Left::New(ERASED),
    ..FIRST
};

fn begin(alloc: Global, begins: Begins) -> Result<Vec<u8>, AllocError> {
    let (front, size, byte) = match begins {
        Begins::All(size, byte) => ([].as_slice(), size, byte),
        Begins::Headed(front) => (front, 4096, 0),
    };
    let mut image = Vec::from_slice(alloc, front)?;
    image.resize(size, byte)?;
    Ok(image)
}

fn text_of(alloc: Global, script: Script) -> Result<Vec<u8>, AllocError> {
    let mut text = Vec::new(alloc);
    match script {
        Script::Lines(lines) => text.extend_from_slice(lines.as_bytes())?,
        Script::Newlines(count) => text.resize(count, b'\n')?,
    }
    Ok(text)
}

fn is_put(put: &[u8], text: Text) -> bool {
    match text {
        Text::Is(text) => put == text.as_bytes(),
        Text::FirstAnd(line) => put.starts_with(FIRST_TEXT.as_bytes())
            && put.get(FIRST_TEXT.len()..) == Some(line.as_bytes()),
        Text::FrontOfFirst => FIRST_TEXT.as_bytes().starts_with(put),
    }
}

fn is_left(before: &[u8], now: &[u8], left: Left) -> bool {
    match left {
        Left::Same => now == before,
        Left::New(front) => now.starts_with(front)
            && now.get(front.len()..) == before.get(front.len()..),
    }
}

const CASES: &[Case] = &[
    FIRST,
    // The image fails when its size is asked for.
    Case {
        fails: Fails {
            image: &[1],
            ..NONE
        },
        status: 6,
        text: Text::Is("image fault\n"),
        left: Left::Same,
        ..FIRST
    },
    // The image fails when it is read.
    Case {
        fails: Fails {
            image: &[2],
            ..NONE
        },
        status: 6,
        text: Text::Is("image fault\n"),
        left: Left::Same,
        ..FIRST
    },
    // The image fails when it is written back.
    Case {
        fails: Fails {
            image: &[3],
            ..NONE
        },
        status: 6,
        text: Text::FirstAnd("image fault\n"),
        ..FIRST
    },
    // The output fails.
    Case {
        fails: Fails { out: &[1], ..NONE },
        status: 7,
        text: Text::FrontOfFirst,
        left: Left::Same,
        ..FIRST
    },
    // The script fails.
    Case {
        fails: Fails {
            script: &[1],
            ..NONE
        },
        status: 5,
        text: Text::Is("script fault\n"),
        left: Left::Same,
        ..FIRST
    },
    // Script and image fail.
    Case {
        fails: Fails {
            script: &[1],
            image: &[1],
            ..NONE
        },
        status: 6,
        text: Text::Is("image fault\n"),
        left: Left::Same,
        ..FIRST
    },
    // The script gives a byte a call.
    Case {
        per_call: 1,
        ..FIRST
    },
    // A script of too many bytes.
    Case {
        script: Script::Newlines(4_194_305),
        per_call: 4096,
        status: 8,
        text: Text::Is("script too long\n"),
        left: Left::Same,
        ..FIRST
    },
    // The longest script.
    Case {
        script: Script::Newlines(4_194_304),
        per_call: 4096,
        text: Text::Is(""),
        left: Left::Same,
        ..FIRST
    },
    // An image that is one byte short.
    Case {
        begins: Begins::All(4095, 0),
        status: 4,
        text: Text::Is("image has 4095 bytes, 4096 needed\n"),
        left: Left::Same,
        ..FIRST
    },
    // An image of ones.
    Case {
        begins: Begins::All(4096, 0xff),
        text: Text::Is(
            "boot console unsigned start 4294967295 size 4294967295 corrected 0 bad 0 nothing told\n",
        ),
        ..BOOT
    },
    // A size and a start past the ring.
    Case {
        begins: Begins::Headed(b"DBGC\x05\0\0\0\xf5\x0f\0\0"),
        text: Text::Is("boot console invalid start 5 size 4085 corrected 0 bad 0 nothing told\n"),
        ..BOOT
    },
    // A start at the end of a full ring.
    Case {
        begins: Begins::Headed(b"DBGC\xf4\x0f\0\0\xf4\x0f\0\0"),
        text: Text::Is("boot console found start 4084 size 4084 corrected 0 bad 0 nothing told\n"),
        ..BOOT
    },
];

fn assert_case(rt: &(impl Abort + AllocGlobal), i: usize, case: &Case) -> Result<(), Fail> {
    let alloc = rt.alloc();
    let image = begin(alloc, case.begins)?;
    let script = text_of(alloc, case.script)?;
    let ran = outcome_by(alloc, CONSOLE, &script, case.per_call, &image, case.fails)?;
    assert!(rt;
        ran.status == case.status && is_put(&ran.text, case.text),
        "case {i}"
    );
    assert!(rt; is_left(&image, &ran.image, case.left), "case {i}");
    Ok(())
}

#[test]
fn faults_causes_and_hostile_bytes(rt: HostRuntime) -> Result<(), Fail> {
    for (i, case) in CASES.iter().enumerate() {
        assert_case(&rt, i, case)?;
    }
    Ok(())
}

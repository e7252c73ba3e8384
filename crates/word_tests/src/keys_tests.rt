use ramoops_layout::*;
use std::alloc::{AllocError, Global};

const NONE: Choice = Choice {
    key: "",
    texts: &[],
};

const PREFIXED: Keys = Keys {
    prefix: "ramoops.",
    names: &["mem_size", "ecc", "cpus", "side", "end"],
    first: Choice {
        key: "side",
        texts: &["left", "right"],
    },
    second: Choice {
        key: "end",
        texts: &["upper", "lower"],
    },
};

const PLAIN: Keys = Keys {
    prefix: "",
    names: &["total_size", "kmsg_size", "pmsg_size"],
    first: NONE,
    second: NONE,
};

fn split_words(alloc: Global, line: &str) -> Result<Vec<String>, AllocError> {
    let mut words = Vec::new(alloc);
    for word in line.split(' ') {
        if !word.is_empty() {
            words.push(String::from_str(alloc, word)?)?;
        }
    }
    Ok(words)
}

const NUMBERS: &[(&str, Option<u32>)] = &[
    ("0", Some(0)),
    ("7", Some(7)),
    ("10", Some(10)),
    ("4294967295", Some(4294967295)),
    ("4294967296", None),
    ("0x0", Some(0)),
    ("0xfF", Some(255)),
    ("0XFf", Some(255)),
    ("0x000000000000000000001", Some(1)),
    ("0xffffffff", Some(4294967295)),
    ("0x100000000", None),
    ("00", Some(0)),
    ("010", Some(8)),
    ("0000000000000000000000017", Some(15)),
    ("037777777777", Some(4294967295)),
    ("040000000000", None),
    ("08", None),
    ("", None),
    ("0x", None),
    ("0X", None),
    ("+1", None),
    ("-1", None),
    ("0x+1", None),
    ("0+1", None),
    ("1 ", None),
    ("12a", None),
    ("0xg", None),
];

#[test]
fn numbers_have_three_spellings(rt: HostRuntime) {
    for (text, value) in NUMBERS.iter().copied() {
        assert!(rt; number(text) == value, "of {text}");
    }
}

// The first fault of the words of a line.
fn fault_of(alloc: Global, keys: Keys, line: &str) -> Result<Option<ParamFault>, AllocError> {
    let words = split_words(alloc, line)?;
    Ok(keys.first_fault(&words))
}

const PREFIXED_FAULTS: &[(&str, Option<ParamFault>)] = &[
    ("", None),
    ("mem_size=4096 ramoops.ecc=0x10 cpus=010", None),
    ("mem_size=4096 mem_size=1", Some(ParamFault::Twice(1))),
    (
        "mem_size=4096 ramoops.mem_size=1",
        Some(ParamFault::Twice(1)),
    ),
    (
        "ramoops.mem_size=4096 mem_size=x",
        Some(ParamFault::Twice(1)),
    ),
    ("mem_size", Some(ParamFault::UnknownKey(0))),
    ("=1", Some(ParamFault::UnknownKey(0))),
    ("ecc=1 mem-size=1", Some(ParamFault::UnknownKey(1))),
    ("ramoops.ramoops.ecc=1", Some(ParamFault::UnknownKey(0))),
    ("ramoops.=1", Some(ParamFault::UnknownKey(0))),
    ("ecc=1 cpus=two mem_size=", Some(ParamFault::NotANumber(1))),
    ("ecc=1=1", Some(ParamFault::NotANumber(0))),
    ("ecc=1 unknown=x ecc=2", Some(ParamFault::UnknownKey(1))),
    ("side=left ecc=1", None),
    ("ecc=1 ramoops.side=right", None),
    ("ecc=1 side=1", Some(ParamFault::NotANumber(1))),
    ("side=lef", Some(ParamFault::NotANumber(0))),
    ("end=lower side=left", None),
    ("end=left", Some(ParamFault::NotANumber(0))),
    ("end=1", Some(ParamFault::NotANumber(0))),
    ("side=", Some(ParamFault::NotANumber(0))),
    ("side=left side=right", Some(ParamFault::Twice(1))),
    ("ecc=left", Some(ParamFault::NotANumber(0))),
];

#[test]
fn the_first_faulty_word_is_told(rt: HostRuntime) {
    for (line, want) in PREFIXED_FAULTS.iter().copied() {
        assert!(rt;
            fault_of(rt.alloc(), PREFIXED, line) == Ok(want),
            "of {line}"
        );
    }
}

const PLAIN_FAULTS: &[(&str, Option<ParamFault>)] = &[
    ("total_size=16384 kmsg_size=0x1000 pmsg_size=010000", None),
    ("total_size=4096 total_size=1", Some(ParamFault::Twice(1))),
    ("ramoops.total_size=4096", Some(ParamFault::UnknownKey(0))),
    ("mem_size=4096", Some(ParamFault::UnknownKey(0))),
    ("total_size", Some(ParamFault::UnknownKey(0))),
    ("=1", Some(ParamFault::UnknownKey(0))),
    ("kmsg_size=1 pmsg_size=x", Some(ParamFault::NotANumber(1))),
    ("kmsg_size=1 kmsg_size=x", Some(ParamFault::Twice(1))),
    ("pmsg_size=4294967296", Some(ParamFault::NotANumber(0))),
];

#[test]
fn keys_may_have_no_prefix(rt: HostRuntime) {
    for (line, want) in PLAIN_FAULTS.iter().copied() {
        assert!(rt; fault_of(rt.alloc(), PLAIN, line) == Ok(want), "of {line}");
    }
}

const GIVEN: &[(&str, Option<u32>)] = &[("ecc", Some(16)), ("cpus", Some(8)), ("mem_size", None)];

#[test]
fn words_give_numbers(rt: HostRuntime) {
    let words = split_words(rt.alloc(), "ramoops.ecc=0x10 cpus=010 mem_size=x").expect(
        &rt,
        "there is memory",
    );
    for (key, number) in GIVEN.iter().copied() {
        assert!(rt; PREFIXED.given(&words, key) == number, "of {key}");
    }
    assert!(rt; PLAIN.given(&words, "ecc") == None);
    let words = split_words(rt.alloc(), "ecc=2 side=right end=lower").expect(
        &rt,
        "there is memory",
    );
    assert!(rt; PREFIXED.given(&words, "side") == Some(1));
    assert!(rt; PREFIXED.given(&words, "end") == Some(1));
}

const SHOWN: &[(ParamFault, u32, &str)] = &[
    (ParamFault::UnknownKey(0), 1, "word 0 has no key"),
    (ParamFault::Twice(7), 2, "word 7 repeats a key"),
    (ParamFault::NotANumber(12), 3, "word 12 has no number"),
];

#[test]
fn faults_are_shown_by_their_word(rt: HostRuntime) {
    for (fault, number, text) in SHOWN.iter().copied() {
        assert!(rt; fault.number() == number);
        let shown = format!(in rt.alloc(); "{fault}").expect(&rt, "there is memory");
        assert!(rt; shown.as_str() == text);
    }
}

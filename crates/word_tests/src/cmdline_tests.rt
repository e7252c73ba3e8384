// Worked command lines and versions.
use kernel_line::*;
use ramoops_layout::Order;
use report_tool::*;
use std::alloc::Global;
use std::test::Fail;

fn shown(alloc: Global, line: &[u8]) -> Result<String, LineFault> {
    let mut words = Vec::new(alloc);
    KernelLine::read(alloc, line)?.add_layout_words(alloc, Module::Ramoops, &mut words)?;
    Ok(format!(in alloc; "{words:?}")?)
}

#[test]
fn words_of_the_layout(rt: HostRuntime) -> Result<(), Fail> {
    let mut words = Vec::new(rt.alloc());
    let line =
        b"BOOT_IMAGE=/vmlinuz ro ramoops.mem_address=0x8f000000 ramoops.mem_size=0x100000  ramoops.ecc=1 \
ramoops.dump_oops=1 ramoops.mem_type ramoops.max_reason=2 quiet xramoops.ecc=2 ramoops.console_size=0x4000";
    let Ok(read) = KernelLine::read(rt.alloc(), line) else {
        return Err(Fail::from("the line was read"));
    };
    assert_eq!(rt;
        read.add_layout_words(rt.alloc(), Module::Ramoops, &mut words),
        Ok(())
    );
    add_tag(rt.alloc(), &mut words, 393408)?;
    let shown = format!(in rt.alloc(); "{words:?}")?;
    assert_eq!(rt;
        shown.as_str(),
        "[\"ramoops.mem_size=0x100000\", \"ramoops.ecc=1\", \"ramoops.console_size=0x4000\", \"ftrace_sig=393408\"]"
    );
    Ok(())
}

// Each line, and what the kernel's `next_arg` makes of it, printed as a list of strings.
#[test]
fn lines_as_the_kernel_reads_them(rt: HostRuntime) {
    for (line, wanted) in [
        (b"".as_slice(), "[]"),
        (b" \t\x0b\x0c\r\n ".as_slice(), "[]"),
        (
            b"quiet\tramoops.ecc=1\nramoops.cpus=2\n".as_slice(),
            "[\"ramoops.ecc=1\", \"ramoops.cpus=2\"]",
        ),
        (b"quiet\xa0ramoops.ecc=1".as_slice(), "[\"ramoops.ecc=1\"]"),
        (
            b"\"ramoops.ecc=1\" \"ramoops.cpus=\"2\"\"".as_slice(),
            "[\"ramoops.ecc=1\", \"ramoops.cpus=2\\\"\"]",
        ),
        (
            b"ramoops.mem_size=\"0x100000\"".as_slice(),
            "[\"ramoops.mem_size=0x100000\"]",
        ),
        (
            b"ramoops.mem_size=\"\"".as_slice(),
            "[\"ramoops.mem_size=\"]",
        ),
        (
            b"ramoops.mem_size=0x1\"0\"".as_slice(),
            "[\"ramoops.mem_size=0x1\\\"0\\\"\"]",
        ),
        (
            b"a=\"b ramoops.ecc=2\" ramoops.ecc=1".as_slice(),
            "[\"ramoops.ecc=1\"]",
        ),
        (
            b"a=b\"c ramoops.ecc=2\"d ramoops.ecc=1".as_slice(),
            "[\"ramoops.ecc=1\"]",
        ),
        (
            b"ramoops.mem-size=1-2 ramoops.max-reason=2".as_slice(),
            "[\"ramoops.mem_size=1-2\"]",
        ),
        (
            b"ramoops.ecc=1 -- ramoops.cpus=2".as_slice(),
            "[\"ramoops.ecc=1\"]",
        ),
        (
            b"ramoops.ecc=1 \"--\" ramoops.cpus=2".as_slice(),
            "[\"ramoops.ecc=1\"]",
        ),
        (
            b"ramoops.ecc=1 --x ramoops.cpus=2".as_slice(),
            "[\"ramoops.ecc=1\", \"ramoops.cpus=2\"]",
        ),
        (
            b"ramoops.mem_name=\"\xff\" ramoops.ecc=1".as_slice(),
            "[\"ramoops.ecc=1\"]",
        ),
    ] {
        let words = shown(rt.alloc(), line);
        match words {
            Ok(text) => assert_eq!(rt; text.as_str(), wanted),
            Err(fault) => panic!(rt; "{fault:?}"),
        }
    }
}

#[test]
fn lines_that_are_refused(rt: HostRuntime) {
    for (line, fault) in [
        (b"ramoops.ecc=\"1".as_slice(), LineFault::OpenQuote),
        (b"quiet \"ramoops.ecc=1".as_slice(), LineFault::OpenQuote),
        (b"ramoops.ecc=1 quiet\"".as_slice(), LineFault::OpenQuote),
        (b"ramoops.ecc=\xff".as_slice(), LineFault::NoText),
        (b"ramoops.ecc=1\xc2\xa0ro".as_slice(), LineFault::NoText),
    ] {
        assert_eq!(rt; shown(rt.alloc(), line).err(), Some(fault));
    }
}

// Each line, and where it puts the region: as `memparse`, `kstrtoull` and `reserve_mem` of the kernel read it.
#[test]
fn places_of_the_region(rt: HostRuntime) {
    for (line, address, reserved) in [
        (b"".as_slice(), None, None),
        (
            b"ramoops.mem_address=0x100000".as_slice(),
            Some(0x100000),
            None,
        ),
        (
            b"ramoops.mem_address=0x100000 -- ramoops.mem_address=0x200000".as_slice(),
            Some(0x100000),
            None,
        ),
        (
            b"ramoops.mem_address=1 ramoops.mem-address=\"0X2f\" ro".as_slice(),
            Some(0x2f),
            None,
        ),
        (b"ramoops.mem_address=010".as_slice(), Some(8), None),
        (b"ramoops.mem_address=1M".as_slice(), None, None),
        (b"xramoops.mem_address=1".as_slice(), None, None),
        (
            b"ramoops.mem_address=0xffffffffffffffff".as_slice(),
            Some(u64::MAX),
            None,
        ),
        (
            b"ramoops.mem_address=0x10000000000000000".as_slice(),
            None,
            None,
        ),
        (
            b"reserve_mem=64K:4096:oops ramoops.mem_name=oops".as_slice(),
            None,
            Some(65536),
        ),
        (
            b"reserve_mem=1M::log \"reserve-mem=2m:4k:oops\" reserve_mem=4M:4096:trace ramoops.mem-name=oops".as_slice(),
            None,
            Some(2097152),
        ),
        (
            b"reserve_mem=1M:4096:oops reserve_mem=2M:4096:oops ramoops.mem_name=oops".as_slice(),
            None,
            Some(1048576),
        ),
        (
            b"reserve_mem=1M:4096:oops ramoops.mem_name=oops -- ramoops.mem_name=log".as_slice(),
            None,
            Some(1048576),
        ),
        (
            b"reserve_mem=1M:4096:oops ramoops.mem_name=log".as_slice(),
            None,
            None,
        ),
        (
            b"reserve_mem=1M:oops ramoops.mem_name=oops".as_slice(),
            None,
            None,
        ),
        (b"reserve_mem=1M ramoops.mem_name=".as_slice(), None, None),
        (
            b"reserve_mem=1X:4096:oops ramoops.mem_name=oops".as_slice(),
            None,
            None,
        ),
    ] {
        match KernelLine::read(rt.alloc(), line) {
            Ok(read) => {
                assert!(rt; read.address() == address, "{line:?}");
                assert!(rt; read.reserved_size() == reserved, "{line:?}");
            }
            Err(fault) => panic!(rt; "{fault:?}"),
        }
    }
}

#[test]
fn tags_of_versions(rt: HostRuntime) {
    for (version, tag) in [
        ("6.1.192", Some(0x0601c0)),
        ("6.1", Some(0x060100)),
        ("6.1.0-25-amd64", Some(0x060100)),
        ("6.12.0+", Some(0x060c00)),
        ("6.12.7+-dirty", Some(0x060c07)),
        ("6.12-rc1+", Some(0x060c00)),
        ("+6.1", None),
        ("5.10.250", Some(0x050afa)),
        ("4.19.325", Some(0x0413ff)),
        ("255.255.255", Some(0xffffff)),
        ("256.1.1", None),
        ("6.256", None),
        ("6", None),
        ("", None),
        ("6.x", None),
        ("6.1.", None),
        ("6.1.2.3", None),
        ("-6.1", None),
    ] {
        assert_eq!(rt; ftrace_tag(version), tag, "of {version}");
    }
}

// The order of the zones by `ramoops_probe` of 6.1 and of 6.12; the versions between were not looked at.
#[test]
fn orders_of_versions(rt: HostRuntime) -> Result<(), Fail> {
    for (version, order) in [
        ("5.10.250", Some(Order::FtracePmsg)),
        ("6.1.0-25-amd64", Some(Order::FtracePmsg)),
        ("6.1.255", Some(Order::FtracePmsg)),
        ("6.2", None),
        ("6.11.11", None),
        ("6.12.117", Some(Order::PmsgFtrace)),
        ("6.12-rc1+", Some(Order::PmsgFtrace)),
        ("7.0", Some(Order::PmsgFtrace)),
        ("6", None),
    ] {
        assert_eq!(rt; zone_order(version), order, "of {version}");
    }
    let mut words = Vec::new(rt.alloc());
    add_order(rt.alloc(), &mut words, Order::PmsgFtrace)?;
    assert_eq!(rt; words[0].as_str(), "order=console,pmsg,ftrace");
    Ok(())
}

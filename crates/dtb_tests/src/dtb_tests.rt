// What is answered of a tree: each ramoops node, or the first fault.
use crate::trees::{BOARD, CHROMEBOOK};
use crate::writer::Writer;
use dtb::*;
use std::alloc::{AllocError, Global};
use std::process::Abort;
use std::test::Fail;

// A property: its name, and its value.
type Entry = (&'static [u8], &'static [u8]);

// `/ { r { compatible = "ramoops"; reg = <4 8>; }; };` with `#address-cells` 1, and these properties before the others.
fn ramoops_tree(alloc: Global, entries: &[Entry]) -> Result<Vec<u8>, AllocError> {
    let mut writer = Writer::new(alloc);
    writer.begin(b"")?;
    writer.prop(b"#address-cells", b"\0\0\0\x01")?;
    writer.begin(b"r")?;
    for (name, value) in entries {
        writer.prop(name, value)?;
    }
    writer.prop(b"compatible", b"ramoops\0")?;
    writer.prop(b"reg", b"\0\0\0\x04\0\0\0\x08")?;
    writer.end()?;
    writer.end()?;
    writer.cell(9)?;
    writer.tree(alloc)
}

// The numbers of that node; it is no child of reserved-memory.
const PLAIN: Numbers = Numbers {
    address: 4,
    size: 8,
    record_size: 0,
    console_size: 0,
    ftrace_size: 0,
    pmsg_size: 0,
    ecc_size: 0,
    flags: 0,
};

// The nodes are these.
fn assert_nodes(rt: &(impl Abort + AllocGlobal), tree: &[u8], wanted: &[(&[u8], Numbers)]) {
    match ramoops_nodes(rt.alloc(), tree) {
        Ok(nodes) => {
            assert_eq!(rt; nodes.len(), wanted.len());
            for (node, (path, numbers)) in nodes.iter().zip(wanted) {
                assert_eq!(rt; &*node.path, *path);
                assert_eq!(rt; node.numbers, *numbers);
            }
        }
        Err(error) => panic!(rt; "{error:?}"),
    }
}

fn assert_fault(rt: &(impl Abort + AllocGlobal), tree: &[u8], wanted: Fault) {
    match ramoops_nodes(rt.alloc(), tree) {
        Err(DtbError::Broken(fault)) => assert_eq!(rt; fault, wanted),
        Err(DtbError::Memory) => panic!(rt; "memory"),
        Ok(nodes) => panic!(rt; "{} nodes", nodes.len()),
    }
}

#[test]
fn numbers_of_a_board(rt: HostRuntime) {
    let numbers = Numbers {
        address: 0x1_0ff0_0000,
        size: 0x10_0000,
        record_size: 0x2_0000,
        console_size: 0x4_0000,
        ftrace_size: 0x1_0000,
        pmsg_size: 0x8000,
        ecc_size: 16,
        flags: 1,
    };
    let path = b"/reserved-memory/ramoops@10ff00000".as_slice();
    assert_nodes(&rt, &BOARD, &[(path, numbers)]);
}

#[test]
fn an_old_board_leaves_out_console_and_pmsg(rt: HostRuntime) {
    let numbers = Numbers {
        address: 0x1f0_0000,
        size: 0x8_0000,
        record_size: 0x2_0000,
        console_size: 0x2_0000,
        pmsg_size: 0x2_0000,
        ..PLAIN
    };
    let path = b"/ramoops@1f00000".as_slice();
    assert_nodes(&rt, &CHROMEBOOK, &[(path, numbers)]);
}

#[test]
fn the_first_cell_counts(rt: HostRuntime) -> Result<(), Fail> {
    let entries: [Entry; 4] = [
        (b"console-size", b"\0\0\x10\0\0\0\0\x07"),
        (b"ecc-size", b"\0\0\0\x05?"),
        (b"flags", b"\x7f\xff\xff\xff"),
        (b"flags", b"\0\0\0\x01"),
    ];
    let numbers = Numbers {
        console_size: 0x1000,
        ecc_size: 5,
        flags: 0x7fff_ffff,
        ..PLAIN
    };
    let tree = ramoops_tree(rt.alloc(), &entries)?;
    assert_nodes(&rt, &tree, &[(b"/r".as_slice(), numbers)]);
    Ok(())
}

#[test]
fn numbers_that_the_kernel_refuses(rt: HostRuntime) -> Result<(), Fail> {
    let rows: [(Entry, Fault); 5] = [
        ((b"record-size", b"\x80\0\0\0"), Fault::TooLarge),
        ((b"pmsg-size", b"\xff\xff\xff\xff\0\0\0\0"), Fault::TooLarge),
        ((b"ftrace-size", b"\x80\0\0"), Fault::TooShort),
        ((b"flags", b""), Fault::TooShort),
        ((b"console-size", b"1\0"), Fault::TooShort),
    ];
    for (entry, fault) in rows {
        let tree = ramoops_tree(rt.alloc(), &[entry])?;
        assert_fault(&rt, &tree, fault);
    }
    Ok(())
}

#[test]
fn a_node_is_available_by_its_status(rt: HostRuntime) -> Result<(), Fail> {
    for status in [b"okay\0".as_slice(), b"ok\0", b"okay\0disabled\0", b"ok"] {
        let tree = ramoops_tree(rt.alloc(), &[(b"status", status)])?;
        assert_nodes(&rt, &tree, &[(b"/r".as_slice(), PLAIN)]);
    }
    // one that is not available has no numbers to refuse
    for status in [b"disabled\0".as_slice(), b"", b"okay!\0", b"o\0", b"OK\0"] {
        let entries: [Entry; 2] = [(b"flags", b""), (b"status", status)];
        let tree = ramoops_tree(rt.alloc(), &entries)?;
        assert_nodes(&rt, &tree, &[]);
    }
    Ok(())
}

#[test]
fn a_node_is_compatible_by_one_of_its_texts(rt: HostRuntime) -> Result<(), Fail> {
    for value in [
        b"ramoops\0".as_slice(),
        b"a,b\0ramoops\0",
        b"\0ramoops\0c\0",
    ] {
        let tree = ramoops_tree(rt.alloc(), &[(b"compatible", value)])?;
        assert_nodes(&rt, &tree, &[(b"/r".as_slice(), PLAIN)]);
    }
    for value in [
        b"ramoops".as_slice(),
        b"aramoops\0",
        b"ramoops,a\0",
        b"",
        b"Ramoops\0",
    ] {
        let tree = ramoops_tree(rt.alloc(), &[(b"compatible", value)])?;
        assert_nodes(&rt, &tree, &[]);
    }
    Ok(())
}

#[test]
fn the_first_address_and_size_count(rt: HostRuntime) -> Result<(), Fail> {
    let two = b"\0\0\0\x04\0\0\0\x08\0\0\0\x10\0\0\0\x20";
    let tree = ramoops_tree(rt.alloc(), &[(b"reg", two)])?;
    assert_nodes(&rt, &tree, &[(b"/r".as_slice(), PLAIN)]);
    for value in [b"\0\0\0\x04\0\0\0".as_slice(), b"\0\0\0\x04", b""] {
        let tree = ramoops_tree(rt.alloc(), &[(b"reg", value)])?;
        assert_fault(&rt, &tree, Fault::Reg);
    }
    Ok(())
}

// A parent's cells, by their two properties; without one an address has two cells, and a size one.
#[test]
fn the_parent_says_how_many_cells(rt: HostRuntime) -> Result<(), Fail> {
    let rows: [(&[Entry], &[u8], u64, u64); 3] = [
        (&[], b"\0\0\0\x01\0\0\0\x02\0\0\0\x03", 0x1_0000_0002, 3),
        (
            &[(b"#size-cells", b"\0\0\0\x02")],
            b"\0\0\0\x01\0\0\0\x02\0\0\0\x03\0\0\0\x04",
            0x1_0000_0002,
            0x3_0000_0004,
        ),
        (
            &[(b"#address-cells", b"\0\0\0\x01")],
            b"\0\0\0\x01\0\0\0\x02\0\0\0\x03",
            1,
            2,
        ),
    ];
    for (entries, reg, address, size) in rows {
        let mut writer = Writer::new(rt.alloc());
        writer.begin(b"")?;
        for (name, value) in entries {
            writer.prop(name, value)?;
        }
        writer.begin(b"r")?;
        writer.prop(b"reg", reg)?;
        writer.prop(b"compatible", b"ramoops\0")?;
        writer.end()?;
        writer.end()?;
        writer.cell(9)?;
        let tree = writer.tree(rt.alloc())?;
        let numbers = Numbers {
            address,
            size,
            ..PLAIN
        };
        assert_nodes(&rt, &tree, &[(b"/r".as_slice(), numbers)]);
    }
    Ok(())
}

// The tokens of a root alone, but for its end and the last token.
fn root(alloc: Global) -> Result<Writer, AllocError> {
    let mut writer = Writer::new(alloc);
    writer.begin(b"")?;
    Ok(writer)
}

// Ends the structure block with these cells: 1 and 0 begin a node without a name, 2 ends one, 4 is nothing, 9 is last.
fn assert_cells(
    rt: &(impl Abort + AllocGlobal),
    mut writer: Writer,
    cells: &[u32],
    wanted: Fault,
) -> Result<(), AllocError> {
    for cell in cells {
        writer.cell(*cell)?;
    }
    let tree = writer.tree(rt.alloc())?;
    assert_fault(rt, &tree, wanted);
    Ok(())
}

#[test]
fn faults_of_the_structure(rt: HostRuntime) -> Result<(), Fail> {
    let rows: [(&[u32], Fault); 11] = [
        (&[], Fault::EndMissing),
        (&[2], Fault::EndMissing),
        (&[9], Fault::EndMissing),
        (&[2, 3, 0], Fault::EndMissing),
        (&[3, 5, 0, 0], Fault::EndMissing),
        (&[2, 5], Fault::UnknownToken),
        (&[1, 0x0102_0304], Fault::Unended),
        (&[3, 0, 0], Fault::Unended),
        (&[2, 2], Fault::EndOutside),
        (&[2, 4, 1, 0], Fault::Roots),
        (&[2, 4, 5, 9], Fault::UnknownToken),
    ];
    for (cells, fault) in rows {
        let writer = root(rt.alloc())?;
        assert_cells(&rt, writer, cells, fault)?;
    }
    let writer = Writer::new(rt.alloc());
    assert_cells(&rt, writer, &[9], Fault::Roots)?;
    Ok(())
}

#[test]
fn a_property_comes_before_the_children(rt: HostRuntime) -> Result<(), Fail> {
    let mut first = root(rt.alloc())?;
    first.cell(4)?;
    first.prop(b"a", b"b")?;
    first.cell(2)?;
    first.cell(9)?;
    let tree = first.tree(rt.alloc())?;
    assert_nodes(&rt, &tree, &[]);
    let mut child = root(rt.alloc())?;
    child.begin(b"c")?;
    child.end()?;
    child.prop(b"a", b"b")?;
    assert_cells(&rt, child, &[2, 9], Fault::PropertyOutside)?;
    let mut outside = root(rt.alloc())?;
    outside.end()?;
    outside.prop(b"a", b"b")?;
    assert_cells(&rt, outside, &[9], Fault::PropertyOutside)?;
    Ok(())
}

// So many nodes within each other; the last one is the only ramoops node, and has no `reg`.
fn deep_tree(alloc: Global, depth: usize) -> Result<Vec<u8>, AllocError> {
    let mut writer = Writer::new(alloc);
    for _ in 0..depth {
        writer.begin(b"")?;
    }
    writer.prop(b"compatible", b"ramoops\0")?;
    for _ in 0..depth {
        writer.end()?;
    }
    writer.cell(9)?;
    writer.tree(alloc)
}

#[test]
fn sixty_four_nodes_stand_within_each_other(rt: HostRuntime) -> Result<(), Fail> {
    assert_fault(&rt, &*deep_tree(rt.alloc(), 64)?, Fault::Reg);
    assert_fault(&rt, &*deep_tree(rt.alloc(), 65)?, Fault::TooDeep);
    Ok(())
}

#[test]
fn the_root_has_no_region(rt: HostRuntime) -> Result<(), Fail> {
    let mut writer = root(rt.alloc())?;
    writer.prop(b"compatible", b"ramoops\0")?;
    writer.prop(b"reg", b"\0\0\0\x01\0\0\0\x02\0\0\0\x03")?;
    assert_cells(&rt, writer, &[2, 9], Fault::Reg)?;
    Ok(())
}

// A cell of the header of the board's tree, and the fault that it makes.
#[test]
fn faults_of_the_header(rt: HostRuntime) -> Result<(), Fail> {
    let rows: [(usize, u32, Fault); 9] = [
        (0, 0xd00d_feec, Fault::NoMagic),
        (4, 472, Fault::Outside),
        (8, 58, Fault::Outside),
        (8, 36, Fault::Outside),
        (12, 400, Fault::Outside),
        (16, 44, Fault::Outside),
        (20, 16, Fault::Version),
        (24, 18, Fault::Version),
        (36, 416, Fault::Outside),
    ];
    for (at, cell, fault) in rows {
        let mut tree = Vec::from_slice(rt.alloc(), &BOARD)?;
        for (byte, changed) in tree.iter_mut().skip(at).zip(cell.to_be_bytes()) {
            *byte = changed;
        }
        assert_fault(&rt, &tree, fault);
    }
    assert_fault(&rt, &BOARD[..39], Fault::NoMagic);
    assert_fault(&rt, &BOARD[..470], Fault::Outside);
    Ok(())
}

#[test]
fn nodes_come_in_their_order(rt: HostRuntime) -> Result<(), Fail> {
    let mut writer = root(rt.alloc())?;
    writer.begin(b"b@1")?;
    writer.prop(b"compatible", b"ramoops\0")?;
    writer.prop(b"reg", b"\0\0\0\0\0\0\0\x01\0\0\0\x02")?;
    writer.prop(b"ftrace-size", b"\0\0\0\x06")?;
    writer.begin(b"a")?;
    writer.prop(b"compatible", b"ramoops\0")?;
    writer.prop(b"reg", b"\0\0\0\0\0\0\0\x03\0\0\0\x05")?;
    writer.cell(2)?;
    writer.cell(4)?;
    writer.cell(2)?;
    writer.cell(2)?;
    writer.cell(9)?;
    let tree = writer.tree(rt.alloc())?;
    let outer = Numbers {
        address: 1,
        size: 2,
        ftrace_size: 6,
        ..PLAIN
    };
    let inner = Numbers {
        address: 3,
        size: 5,
        ..PLAIN
    };
    assert_nodes(
        &rt,
        &tree,
        &[(b"/b@1".as_slice(), outer), (b"/b@1/a", inner)],
    );
    Ok(())
}

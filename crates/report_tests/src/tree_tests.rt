// What a device tree says of a region's place.
use report_entry::{NoLayouts, tree_fault};
use report_tool::tree_address;
use std::alloc::Global;
use std::test::Fail;

// As dtc writes it:
//
// / {
//     #address-cells = <1>;
//     #size-cells = <1>;
//     ramoops@4000 {
//         compatible = "ramoops";
//         reg = <0x4000 0x1000>;
//     };
//     ramoops@8000 {
//         compatible = "ramoops";
//         reg = <0x8000 0x1000>;
//     };
// };
const TWO: [u8; 274] = [
    0xd0, 0x0d, 0xfe, 0xed, 0, 0, 1, 0x12, 0, 0, 0, 0x38, 0, 0, 0, 0xe8, 0, 0, 0, 0x28, 0, 0, 0,
    0x11, 0, 0, 0, 0x10, 0, 0, 0, 0, 0, 0, 0, 0x2a, 0, 0, 0, 0xb0, 0, 0, 0, 0, 0, 0, 0, 0, 0, 0, 0,
    0, 0, 0, 0, 0, 0, 0, 0, 1, 0, 0, 0, 0, 0, 0, 0, 3, 0, 0, 0, 4, 0, 0, 0, 0, 0, 0, 0, 1, 0, 0, 0,
    3, 0, 0, 0, 4, 0, 0, 0, 0x0f, 0, 0, 0, 1, 0, 0, 0, 1, 0x72, 0x61, 0x6d, 0x6f, 0x6f, 0x70, 0x73,
    0x40, 0x34, 0x30, 0x30, 0x30, 0, 0, 0, 0, 0, 0, 0, 3, 0, 0, 0, 8, 0, 0, 0, 0x1b, 0x72, 0x61,
    0x6d, 0x6f, 0x6f, 0x70, 0x73, 0, 0, 0, 0, 3, 0, 0, 0, 8, 0, 0, 0, 0x26, 0, 0, 0x40, 0, 0, 0,
    0x10, 0, 0, 0, 0, 2, 0, 0, 0, 1, 0x72, 0x61, 0x6d, 0x6f, 0x6f, 0x70, 0x73, 0x40, 0x38, 0x30,
    0x30, 0x30, 0, 0, 0, 0, 0, 0, 0, 3, 0, 0, 0, 8, 0, 0, 0, 0x1b, 0x72, 0x61, 0x6d, 0x6f, 0x6f,
    0x70, 0x73, 0, 0, 0, 0, 3, 0, 0, 0, 8, 0, 0, 0, 0x26, 0, 0, 0x80, 0, 0, 0, 0x10, 0, 0, 0, 0, 2,
    0, 0, 0, 2, 0, 0, 0, 9, 0x23, 0x61, 0x64, 0x64, 0x72, 0x65, 0x73, 0x73, 0x2d, 0x63, 0x65, 0x6c,
    0x6c, 0x73, 0, 0x23, 0x73, 0x69, 0x7a, 0x65, 0x2d, 0x63, 0x65, 0x6c, 0x6c, 0x73, 0, 0x63, 0x6f,
    0x6d, 0x70, 0x61, 0x74, 0x69, 0x62, 0x6c, 0x65, 0, 0x72, 0x65, 0x67, 0,
];

fn address(alloc: Global, tree: &[u8], path: Option<&str>) -> Result<u64, NoLayouts> {
    match tree_address(alloc, tree, path) {
        Ok(address) => Ok(address),
        Err(fault) => Err(tree_fault(fault)),
    }
}

#[test]
fn the_address_of_a_node(rt: HostRuntime) -> Result<(), Fail> {
    for (path, wanted) in [
        (Some("/ramoops@4000"), Ok(0x4000)),
        (Some("/ramoops@8000"), Ok(0x8000)),
        (Some("/ramoops@9000"), Err(NoLayouts::Tree(14))),
        (None, Err(NoLayouts::Tree(15))),
    ] {
        assert!(rt; address(rt.alloc(), &TWO, path) == wanted);
    }
    Ok(())
}

#[test]
fn the_address_in_a_broken_tree(rt: HostRuntime) -> Result<(), Fail> {
    for (len, wanted) in [(0, NoLayouts::Tree(1)), (60, NoLayouts::Tree(3))] {
        let mut tree = Vec::from_slice(rt.alloc(), &TWO)?;
        tree.truncate(len);
        assert!(rt; address(rt.alloc(), &tree, Some("/ramoops@4000")) == Err(wanted));
    }
    Ok(())
}

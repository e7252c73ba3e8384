// A coloured text, in a sink that takes it and in one that fails.
use outside::{Calls, Failed, MemSink, Sink};
use report_colours::ColourSink;
use std::test::Fail;

const TEXT: &[u8] =
    b"died: BUG\nconsole     0 found 0 3\nconsole     0 found 0 0\n  <4>[ 1.0] a\n  <3>b\n  <30>c\n  <1234>d";

const COLOURED: &[u8] = b"\x1b[1;31mdied: BUG\x1b[0m\n\x1b[31mconsole     0 found 0 3\x1b[0m\n\
console     0 found 0 0\n\x1b[33m  <4>[ 1.0] a\x1b[0m\n\x1b[31m  <3>b\x1b[0m\n  <30>c\n  <1234>d";

#[test]
fn lines_have_their_colours(rt: HostRuntime) -> Result<(), Fail> {
    let below = MemSink::new(rt.alloc(), 1_000, Calls::new(rt.alloc(), &[])?)?;
    let mut sink = ColourSink::new(below);
    assert!(rt; sink.put(TEXT) == Ok(()));
    assert!(rt; sink.into_inner().bytes() == COLOURED);
    Ok(())
}

// The third piece fails: the end of the first line's colour.
#[test]
fn a_fault_is_told(rt: HostRuntime) -> Result<(), Fail> {
    let below = MemSink::new(rt.alloc(), 1_000, Calls::new(rt.alloc(), &[3])?)?;
    let mut sink = ColourSink::new(below);
    assert!(rt; sink.put(TEXT) == Err(Failed));
    assert!(rt; sink.into_inner().bytes() == b"\x1b[1;31mdied: BUG\x1b[".as_slice());
    Ok(())
}

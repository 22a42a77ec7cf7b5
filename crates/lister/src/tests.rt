// The lister on chunks that end within lines, on a long line, and past the most lines.
use crate::lines::Lister;
use std::test::Fail;

#[test]
fn chunks_end_anywhere(rt: HostRuntime) -> Result<(), Fail> {
    let heap = rt.alloc();
    let mut lister = Lister::new();
    let mut out = String::new(heap);
    lister.feed(heap, b"3000", &mut out)?;
    lister.feed(heap, b"", &mut out)?;
    assert_eq!(rt; out.as_str(), "");
    lister.feed(heap, b"0500\n\n3", &mut out)?;
    assert_eq!(rt; out.as_str(), "1 OK 30000500\n2 NO 2 0\n");
    out.clear();
    lister.finish(heap, &mut out)?;
    assert_eq!(rt; out.as_str(), "3 NO 2 1\n");
    Ok(())
}

#[test]
fn a_long_line_counts_once(rt: HostRuntime) -> Result<(), Fail> {
    let heap = rt.alloc();
    let mut lister = Lister::new();
    let mut out = String::new(heap);
    for _ in 0..3 {
        lister.feed(heap, &[b'0'; 4096], &mut out)?;
    }
    lister.feed(heap, b"\n300005\n", &mut out)?;
    lister.finish(heap, &mut out)?;
    assert_eq!(rt; out.as_str(), "1 NO 1 64\n2 NO 11 3\n");
    Ok(())
}

#[test]
fn the_most_lines(rt: HostRuntime) -> Result<(), Fail> {
    let heap = rt.alloc();
    let mut lister = Lister::new();
    let mut out = String::new(heap);
    for _ in 0..9_998 {
        lister.feed(heap, b"\n", &mut out)?;
    }
    assert!(rt; !lister.is_done());
    out.clear();
    lister.feed(heap, b"\n\n3", &mut out)?;
    lister.finish(heap, &mut out)?;
    assert!(rt; lister.is_done());
    assert_eq!(rt; out.as_str(), "9999 NO 2 0\n");
    Ok(())
}

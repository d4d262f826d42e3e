//! The heads of texts.
use book_text::{Lines, read_head, read_head1};
use seq_objects::Kind;
use std::test::Fail;

// The title tells the versions apart, and a refusal leaves the lines for the other reader.
#[test]
fn a_head_of_version_1_is_none_of_version_2(rt: HostRuntime) -> Result<(), Fail> {
    let mut lines = Lines::new(b"book 1\nobject queue\ncallers 2\ncalls 1 3\n");
    assert!(rt; read_head(&mut lines, b"book").is_err());
    let head = read_head1(&mut lines, b"book")?;
    assert_eq!(rt; head.kind, Kind::Queue);
    assert_eq!(rt; head.n, 2);
    let calls: [u64; 2] = [1, 3];
    assert_eq!(rt; head.calls.counts(), calls.as_slice());
    Ok(())
}

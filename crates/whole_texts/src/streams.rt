//! Byte streams, and the codes that the program ends with.
use byte_streams::{INPUT_LIMIT, MemorySink, Sink, Status, StdSink, write_all};
use std::test::Fail;

#[test]
fn limits_and_codes_are_as_documented(rt: HostRuntime) {
    assert_eq!(rt; INPUT_LIMIT, 1_048_576);
    assert_eq!(rt; (Status::Fine.code(), Status::Found.code()), (0, 1));
    assert_eq!(rt; (Status::Usage.code(), Status::Refused.code()), (2, 3));
    assert_eq!(rt;
        (Status::ReadFault.code(), Status::WriteFault.code()),
        (4, 5)
    );
    assert_eq!(rt; Status::NoMemory.code(), 6);
}

// The sink's second write would fail, and isn't made, since the first one takes the whole text.
#[test]
fn all_that_remains_is_offered_at_each_write(rt: HostRuntime) -> Result<(), Fail> {
    let text = vec![in rt.alloc(); b'x'; 5_001]?;
    let fails = [2].to_vec(rt.alloc())?;
    let mut sink = MemorySink::new(rt.alloc(), 6_000, fails, usize::MAX)?;
    assert_eq!(rt; write_all(&mut sink, &text), Ok(()));
    assert_eq!(rt; sink.bytes(), text.as_slice());
    Ok(())
}

#[test]
fn a_sink_over_a_writer_hands_its_bytes_on(rt: HostRuntime) -> Result<(), Fail> {
    let mut bytes = Vec::new(rt.alloc());
    let mut sink = StdSink::over(&mut bytes);
    assert_eq!(rt; sink.write(b"le"), Ok(2));
    assert_eq!(rt; write_all(&mut sink, b"gal"), Ok(()));
    assert_eq!(rt; bytes.as_slice(), b"legal".as_slice());
    Ok(())
}

use super::WriteSink;
use crate::tests::Faulty;
use crate::{Failed, Sink};

// A write that fails is counted and not made again; the next one works.
#[test]
fn a_failed_write_is_counted_once(rt: HostRuntime) {
    let mut written = Vec::new(rt.alloc());
    let mut sink = WriteSink::new(Faulty {
        inner: &mut written,
        calls: 0,
        fails: 1,
    });
    assert_eq!(rt; sink.write(b"ab"), Err(Failed));
    assert_eq!(rt; sink.faults, 1);
    assert_eq!(rt; sink.write(b"ab"), Ok(1));
    assert_eq!(rt; sink.faults, 1);
    assert_eq!(rt; written.as_slice(), b"a".as_slice());
}

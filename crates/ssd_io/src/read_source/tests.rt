use super::ReadSource;
use crate::tests::Faulty;
use crate::{Failed, Source};

// A read that fails is counted and not made again; the next one works.
#[test]
fn a_failed_read_is_counted_once(rt: HostRuntime) {
    let mut source = ReadSource::new(Faulty {
        inner: b"ab".as_slice(),
        calls: 0,
        fails: 1,
    });
    let mut into = *b"--";
    assert_eq!(rt; source.read(&mut into), Err(Failed));
    assert_eq!(rt; source.faults, 1);
    assert_eq!(rt; source.read(&mut into), Ok(2));
    assert_eq!(rt; (source.faults, into), (1, *b"ab"));
}

use hint_queue::HintList;
use std::test::Fail;

#[test]
fn pages_are_taken_in_the_order_in_which_they_were_put(rt: HostRuntime) -> Result<(), Fail> {
    let mut hints = HintList::new(rt.alloc())?;
    assert_eq!(rt; hints.take_front(), None);
    // Twice round the room for 256, with three pages waiting at most.
    for turn in 0..200 {
        for page in 0..3 {
            assert!(rt; hints.put(3 * turn + page), "at {turn}");
        }
        for page in 0..3 {
            assert_eq!(rt; hints.take_front(), Some(3 * turn + page));
        }
        assert_eq!(rt; hints.take_front(), None);
    }
    Ok(())
}

#[test]
fn the_257th_page_is_refused_and_nothing_is_lost(rt: HostRuntime) -> Result<(), Fail> {
    let mut hints = HintList::new(rt.alloc())?;
    // The queue begins in the middle of its room.
    for page in 0..100 {
        assert!(rt; hints.put(page));
        assert_eq!(rt; hints.take_front(), Some(page));
    }
    for page in 0..256 {
        assert!(rt; hints.put(page), "at {page}");
    }
    assert!(rt; !hints.put(256));
    assert!(rt; !hints.put(u32::MAX));
    assert_eq!(rt; hints.take_front(), Some(0));
    assert!(rt; hints.put(u32::MAX));
    assert!(rt; !hints.put(257));
    for page in 1..256 {
        assert_eq!(rt; hints.take_front(), Some(page));
    }
    assert_eq!(rt; hints.take_front(), Some(u32::MAX));
    assert_eq!(rt; hints.take_front(), None);
    Ok(())
}

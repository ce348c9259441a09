//! What runs print, against texts written by hand. The histories are read from theirs.
use crate::small_runs::{
    EACH_ENTRY_HISTORY, EACH_ENTRY_SUMMARY, ONE_PAGE_ANSWERS, ONE_PAGE_HISTORY, ONE_PAGE_SUMMARY,
    head_of, one_page_kinds, one_page_replies,
};
use history_text::{print_run, read_history};
use ssd_io::{Failed, MemSink};
use std::test::Fail;

#[test]
fn one_page_is_printed_whole_and_from_the_summary_on(rt: HostRuntime) -> Result<(), Fail> {
    let alloc = rt.alloc();
    let head = head_of(alloc, 1)?;
    let histories = read_history(alloc, ONE_PAGE_HISTORY, &head)?;
    let (kinds, replies) = (one_page_kinds(alloc)?, one_page_replies(alloc)?);
    for (whole, room) in [(true, 528), (false, 528), (true, 7)] {
        let mut line = Vec::with_capacity(alloc, room)?;
        line.push(33)?;
        let mut sink = MemSink::new(alloc, Vec::new(alloc), 1000)?;
        let printed = print_run(
            &mut sink, &head, &histories, &kinds, &replies, 0, whole, &mut line,
        );
        assert_eq!(rt; printed, Ok(()));
        let mut text = Vec::new(alloc);
        if whole {
            text.extend_from_slice(ONE_PAGE_HISTORY)?;
            text.extend_from_slice(ONE_PAGE_ANSWERS)?;
        }
        text.extend_from_slice(ONE_PAGE_SUMMARY)?;
        assert_eq!(rt; sink.bytes(), text.as_slice());
    }
    Ok(())
}

#[test]
fn each_kind_of_entry_is_printed_as_it_was_read_and_has_its_count(
    rt: HostRuntime,
) -> Result<(), Fail> {
    let alloc = rt.alloc();
    let head = head_of(alloc, 3)?;
    let histories = read_history(alloc, EACH_ENTRY_HISTORY, &head)?;
    let mut sink = MemSink::new(alloc, Vec::new(alloc), 2000)?;
    let mut line = Vec::with_capacity(alloc, 528)?;
    let printed = print_run(&mut sink, &head, &histories, &[], &[], 0, true, &mut line);
    assert_eq!(rt; printed, Ok(()));
    let mut text = EACH_ENTRY_HISTORY.to_vec(alloc)?;
    text.extend_from_slice(EACH_ENTRY_SUMMARY)?;
    assert_eq!(rt; sink.bytes(), text.as_slice());
    Ok(())
}

#[test]
fn a_front_is_written_before_the_sink_fails(rt: HostRuntime) -> Result<(), Fail> {
    let alloc = rt.alloc();
    let head = head_of(alloc, 3)?;
    let histories = read_history(alloc, EACH_ENTRY_HISTORY, &head)?;
    let mut sink = MemSink::new(alloc, vec![in alloc; 3]?, 2000)?;
    let mut line = Vec::with_capacity(alloc, 64)?;
    let printed = print_run(&mut sink, &head, &histories, &[], &[], 0, true, &mut line);
    assert_eq!(rt; printed, Err(Failed));
    assert!(rt; !sink.bytes().is_empty() && EACH_ENTRY_HISTORY.starts_with(sink.bytes()));
    Ok(())
}

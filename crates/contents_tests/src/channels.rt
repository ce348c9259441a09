// Whole contents.
use crate::images::{
    CONTENTS, ROWS, SUM, WORD, between, blank_dies, changed, full_image, level_of, levels_on,
    programmed_on, put, read_image, two_channels,
};
use ssd_geo::{BlockBase, Row, SbState, Slot};
use ssd_io::{Source, SureSource};
use std::test::Fail;

// A superblock without pages.
const FREE: BlockBase = BlockBase {
    state: SbState::Free,
    erases: 0,
    used: 0,
};

#[test]
fn an_image_with_one_page_is_read(rt: HostRuntime) -> Result<(), Fail> {
    let alloc = rt.alloc();
    let image = full_image(alloc)?;
    assert_eq!(rt; image.len(), 991);
    let mut source = SureSource::new(changed(alloc, &image, 991, &[7])?);
    let mut dies = blank_dies(alloc, 3)?;
    let Ok(read) = read_image(alloc, &mut source, &mut dies) else {
        return Err("not read".into());
    };
    let Some(base) = read.bases.first() else {
        return Err("no base".into());
    };
    let first = BlockBase {
        state: SbState::Frontier,
        erases: 0,
        used: 1,
    };
    assert_eq!(rt; base.blocks.as_slice(), &[first, FREE, FREE, FREE][..]);
    for (number, row) in base.rows.as_slice().iter().enumerate() {
        let page = Row::Page {
            slot: Slot { sb: 0, index: 0 },
            serial: 0,
        };
        assert_eq!(rt; *row, if number == 5 { page } else { Row::Empty });
    }
    assert_eq!(rt; base.rows.len(), 8);
    assert_eq!(rt; base.sum.as_slice(), &WORD[..]);
    assert_eq!(rt; base.session, 1);
    assert_eq!(rt; base.channel, 0);
    assert_eq!(rt; read.bases.len(), 1);
    // The byte behind the image is left.
    let mut next = [0; 2];
    assert_eq!(rt; source.read(&mut next), Ok(1));
    assert_eq!(rt; next, [7, 0]);
    Ok(())
}

#[test]
fn a_page_is_loaded_into_its_die(rt: HostRuntime) -> Result<(), Fail> {
    let alloc = rt.alloc();
    let mut source = SureSource::new(full_image(alloc)?);
    let mut dies = blank_dies(alloc, 3)?;
    let Ok(read) = read_image(alloc, &mut source, &mut dies) else {
        return Err("not read".into());
    };
    for number in 0..3 {
        for sb in 0..4 {
            let want = if number == 1 && sb == 0 { 1 } else { 0 };
            let programmed = programmed_on(&read.head, &dies, number, sb);
            assert_eq!(rt; programmed, Some(want), "of die {number}");
        }
    }
    let levels = levels_on(alloc, &read.head, &mut dies, 1, 0, 0)?;
    assert_eq!(rt; levels.len(), 384);
    for cell in 0..384 {
        let level = level_of(cell);
        assert_eq!(rt; levels.get(cell), Some(&level), "of cell {cell}");
    }
    Ok(())
}

// A superblock of another state, its pages and its rows.
#[test]
fn states_and_rows_are_read(rt: HostRuntime) -> Result<(), Fail> {
    let alloc = rt.alloc();
    let image = full_image(alloc)?;
    // Superblock 3 is bad, was erased 2^31 times, and die 2 has both pages of its block.
    let mut bytes = between(alloc, &image, 0, 954)?;
    put(
        &mut bytes,
        &[3, 0, 0, 0, 0x80, 0, 0, 0, 0, 0, 0, 0, 0, 2, 0],
    )?;
    for _ in 0..768 {
        put(&mut bytes, &[0xff, 0x3f])?;
    }
    // Row 7 is lost.
    put(&mut bytes, &between(alloc, &image, ROWS, 990)?)?;
    put(&mut bytes, &[2])?;
    let mut source = SureSource::new(bytes);
    let mut dies = blank_dies(alloc, 3)?;
    let Ok(read) = read_image(alloc, &mut source, &mut dies) else {
        return Err("not read".into());
    };
    let Some(base) = read.bases.first() else {
        return Err("no base".into());
    };
    let bad = BlockBase {
        state: SbState::Bad,
        erases: 1 << 31,
        used: 0,
    };
    assert_eq!(rt; base.blocks.as_slice().get(3), Some(&bad));
    assert_eq!(rt; base.rows.as_slice().get(7), Some(&Row::Lost));
    assert_eq!(rt; programmed_on(&read.head, &dies, 2, 3), Some(2));
    let levels = levels_on(alloc, &read.head, &mut dies, 2, 3, 1)?;
    assert_eq!(rt; levels.len(), 384);
    assert!(rt; levels.iter().all(|level| *level == 16383));
    Ok(())
}

// Each channel has its base, and each page goes into the die of its own channel. A die behind those of the drive has no page.
#[test]
fn both_channels_are_read(rt: HostRuntime) -> Result<(), Fail> {
    let alloc = rt.alloc();
    let mut source = SureSource::new(two_channels(alloc)?);
    let mut dies = blank_dies(alloc, 7)?;
    let Ok(read) = read_image(alloc, &mut source, &mut dies) else {
        return Err("not read".into());
    };
    assert_eq!(rt; read.bases.len(), 2);
    for (number, base) in read.bases.iter().enumerate() {
        assert_eq!(rt; base.channel as usize, number);
        let erased = BlockBase {
            state: SbState::Free,
            erases: if number == 0 { 0 } else { 9 },
            used: 0,
        };
        assert_eq!(rt; base.blocks.as_slice().get(3), Some(&erased));
        assert_eq!(rt; base.sum.as_slice(), &WORD[..]);
    }
    for (number, want) in [0, 1, 0, 0, 1, 0].iter().enumerate() {
        let programmed = programmed_on(&read.head, &dies, number, 0);
        assert_eq!(rt; programmed, Some(*want), "of die {number}");
    }
    assert_eq!(rt; programmed_on(&read.head, &dies, 6, 0), None);
    assert_eq!(rt; dies.len(), 7);
    Ok(())
}

// Without contents nothing is read, and the dies stay blank.
#[test]
fn a_blank_image_has_no_contents(rt: HostRuntime) -> Result<(), Fail> {
    let alloc = rt.alloc();
    let image = between(alloc, &full_image(alloc)?, 0, CONTENTS)?;
    let mut source = SureSource::new(changed(alloc, &image, 92, &[0, 7])?);
    let mut dies = blank_dies(alloc, 3)?;
    let Ok(read) = read_image(alloc, &mut source, &mut dies) else {
        return Err("not read".into());
    };
    let Some(base) = read.bases.first() else {
        return Err("no base".into());
    };
    assert_eq!(rt; base.blocks.as_slice(), &[FREE; 4][..]);
    assert!(rt; base.rows.as_slice().iter().all(|row| *row == Row::Empty));
    assert_eq!(rt; base.sum.as_slice(), &[0; 48][..]);
    assert_eq!(rt; programmed_on(&read.head, &dies, 1, 0), Some(0));
    let mut next = [0; 2];
    assert_eq!(rt; source.read(&mut next), Ok(1));
    Ok(())
}

// The sum of a stripe of one page is the page's word.
#[test]
fn the_sum_stands_behind_the_levels(rt: HostRuntime) -> Result<(), Fail> {
    let alloc = rt.alloc();
    let sum = between(alloc, &full_image(alloc)?, SUM, SUM + 48)?;
    assert_eq!(rt; sum.as_slice(), &WORD[..]);
    Ok(())
}

//! A small drive, and what is printed of two runs on it.
ghost use Rattle.std.specs.Prelude.{◌≡◌, [], ◌∷◌, length, IfOk};

use ssd_geo::{CallKind, CellLaw, ImageHead, Items, Reply, Shape};
use std::alloc::Global;
use std::test::Fail;

// The head of an image with so many channels, pages of 8 data bytes and the read levels 0 and -60.
pub(crate) fn head_of(alloc: Global, channels: u8) -> Result<ImageHead, Fail>
    ensures { IfOk result (λ head. length head.read_levels ≡ 2) }
{
    Ok(ImageHead {
        shape: Shape::new(1, channels, 3, 4, 2, 64, 3, 6, 8, 8)?,
        read_levels: Items::new(vec![in alloc; 0, -60]?),
        iterations: 8,
        law: CellLaw {
            erased: -100,
            programmed: 100,
            spread: 0,
            seed: 1,
        },
        step: 10,
        session: 0,
        entries: Items::new(Vec::new(alloc)),
        weak: Items::new(Vec::new(alloc)),
        bad: Items::new(Vec::new(alloc)),
        full: false,
        place: 0,
    })
}

pub(crate) fn one_page_kinds(alloc: Global) -> Result<Vec<Items<CallKind>>, Fail>
    ensures { IfOk result (λ v. v.items ≡ (CallKind.Write ∷ CallKind.Read ∷ []) ∷ []) }
{
    Ok(vec![in alloc; Items::new(vec![in alloc; CallKind::Write, CallKind::Read]?)]?)
}

pub(crate) fn one_page_replies(alloc: Global) -> Result<Vec<Items<Reply>>, Fail>
    ensures { IfOk result (λ v. v.items ≡ (Reply.Ok ∷ Reply.Data 0 (1 ∷ 2 ∷ 0 ∷ 0 ∷ 0 ∷ 0 ∷ 0 ∷ 0 ∷ []) ∷ []) ∷ []) }
{
    let bytes = Items::new(vec![in alloc; 1, 2, 0, 0, 0, 0, 0, 0]?);
    Ok(vec![in alloc; Items::new(vec![in alloc; Reply::Ok, Reply::Data { rung: 0, bytes }]?)]?)
}

/// One page is written and read.
pub(crate) const ONE_PAGE_HISTORY: &[u8] = b"channel 0 4\n\
      0 0.0 write 5 0.0\n\
      1 0.1 look 5 page 0.0 0 open\n\
      2 0.1 sense 1 1.0.0 0\n\
      3 0.1 leave 1\n";

pub(crate) const ONE_PAGE_ANSWERS: &[u8] = b"actor 0 2\n\
      0 ok\n\
      1 data 0 0102000000000000\n";

pub(crate) const ONE_PAGE_SUMMARY: &[u8] = b"summary\n\
      write 1 0 0 0\n\
      read 1 0 0 0\n\
      trim 0\n\
      move 0 condemn 0 changed 0 stay 0\n\
      pick 0 erase 0 bad 0 fault 0\n\
      sense 1\n\
      rung 1 0 0 0\n\
      hint 0 0 0\n\
      end\n";

/// One entry of each kind, or two and more where its line has as many forms.
pub(crate) const EACH_ENTRY_HISTORY: &[u8] = b"channel 0 10\n\
      0 0.7 look 4 page 2.11 1099511627776 closed\n\
      1 0.7 look 4 page 2.11 1099511627776 open\n\
      2 0.7 look 4 empty\n\
      3 0.7 look 4 lost\n\
      4 0.7 sense 3 1.2.10 -60\n\
      5 0.7 leave 3\n\
      6 0.7 write 0 2.11\n\
      7 0.7 trim 12\n\
      8 0.7 refused 0 readonly\n\
      9 0.7 refused 0 full\n\
      channel 1 8\n\
      0 0.7 move 13 2.11\n\
      1 0.7 changed 4 page 2.11 1099511627776\n\
      2 0.7 changed 4 empty\n\
      3 0.7 changed 4 lost\n\
      4 0.7 condemn 9\n\
      5 0.7 stay 20 readonly\n\
      6 0.7 stay 20 noroom\n\
      7 0.7 fault sense 1 1.2.10 0\n\
      channel 2 9\n\
      0 0.7 pick 0\n\
      1 0.7 erase 255\n\
      2 0.7 bad write 0 3.1 0 fail\n\
      3 0.7 bad copy 16 3.1 0 fault\n\
      4 0.7 bad erase 1 2 fail\n\
      5 0.7 age 1.0 150\n\
      6 0.7 fault age 1.0 150\n\
      7 0.7 note 4 - 0 0 0\n\
      8 0.7 note 1 2 3 4 5\n";

pub(crate) const EACH_ENTRY_SUMMARY: &[u8] = b"summary\n\
      write 0 0 0 0\n\
      read 0 0 0 0\n\
      trim 0\n\
      move 1 condemn 1 changed 3 stay 2\n\
      pick 1 erase 1 bad 3 fault 2\n\
      sense 1\n\
      rung 0 0 0 0\n\
      hint 0 0 0\n\
      end\n";

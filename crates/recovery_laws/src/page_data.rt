//! Laws of what the laws on reads ask of a channel: each start has it, and each write's word. Each is the contract of a
//! function that does nothing.
ghost use Rattle.recovery_laws.specs.PageData.{WordsHaveData};
ghost use Rattle.recovery_laws.specs.RecoveredReads.{StartsHaveNamedPages};

/// The word that a channel makes of a write's data has them, behind the head of its serial and row.
pub fn words_have_data()
    ensures { WordsHaveData }
{}

/// What an image may give a channel has the pages that are due, and its rows name used slots.
pub fn starts_have_named_pages()
    ensures { StartsHaveNamedPages }
{}

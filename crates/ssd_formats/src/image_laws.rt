//! What images and their bytes are to one another.
ghost use Rattle.ssd_formats.specs.ImageContents.{ContentsAreRead, ContentsHaveSpelling, ImageIsRead};
ghost use Rattle.ssd_formats.specs.ImageHead.{FirstHeadIsRead, HeadHasSpelling, HeadIsRead, HeadIsWithinLimits};

/// A head that was written is read again, whatever follows, in the second version and in the first.
pub fn heads_are_read()
    ensures second { HeadIsRead }
    ensures first { FirstHeadIsRead }
{}

/// The sizes of a head that has a spelling are within the limits.
pub fn heads_are_within_limits()
    ensures { HeadIsWithinLimits }
{}

/// Contents of a channel that were written are read again, whatever follows.
pub fn contents_are_read()
    ensures { ContentsAreRead }
{}

/// A full image that was written is read again, whatever follows.
pub fn images_are_read()
    ensures { ImageIsRead }
{}

/// A head that was read from bytes has a spelling, so that it is read again from what is written of it.
pub fn read_heads_have_spellings()
    ensures { HeadHasSpelling }
{}

/// Contents of a channel that were read from bytes have a spelling.
pub fn read_contents_have_spellings()
    ensures { ContentsHaveSpelling }
{}

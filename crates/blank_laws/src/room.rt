//! Laws of room on blank images. Each is the contract of a function that does nothing.
ghost use Rattle.blank_laws.specs.BlankImages.{BlankImagesAreBlank, BlankImagesTakeWrites, HeadsHaveRoom};

/// The rows of a channel fit beside its factory bad superblocks. So a channel of a blank image without weak blocks of it
/// refuses no write before a call of one of its dies fails.
pub fn blank_images_take_writes()
    ensures rows { HeadsHaveRoom }
    ensures blank { BlankImagesAreBlank }
    ensures writes { BlankImagesTakeWrites }
{}

ghost use Rattle.drive_image.specs.WholeImage.{MountedChannelsTell};

/// Dies that are mounted, as channels give them back at their end, may be written.
pub fn mounted_channels_tell()
    ensures { MountedChannelsTell }
{}

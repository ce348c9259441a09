use ssd_geo::PolicyKind;

/// What a run goes by.
#[derive(Clone, Copy, Debug, PartialEq, Eq)]
pub struct Settings {
    /// How victims are picked.
    pub policy: PolicyKind,
    /// How many lanes decode at once: 1, 4, 8, 16 or 32.
    pub lanes: u8,
    /// The most entries of a channel's history.
    pub history: u32,
    /// Whether all is printed, or the summary alone.
    pub whole: bool,
}

/// What the program is asked to do.
#[derive(Clone, Copy, Debug, PartialEq, Eq)]
pub enum Command {
    /// Serve a trace on the drive of an image, one call after the other, and print what came of it.
    Run { settings: Settings },
    /// Serve it with a thread for each actor.
    Race { settings: Settings },
    /// Serve it as `Run` does, and write the drive that is left.
    Save { settings: Settings },
    /// Write the drive of an image without contents.
    Format,
    /// Write the work that this number gives.
    Gen { number: u32 },
}

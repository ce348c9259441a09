/// A value that stands for a list of entries, from position 0 on, and for a start.
pub trait Standing: Drop {
    ghost use Rattle.std.specs.Prelude.{List};
    ghost use Rattle.ssd_geo.specs.declared.entry.Entry.{Entry};

    /// What the list began from, as contracts see it. No turn changes it.
    type Start;

    ghost start: { Self → Self.Start };

    ghost entries: { Self → List Entry };
}

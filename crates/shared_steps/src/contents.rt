use std::marker::Brand;

/// The data of the writes of all callers of a channel, for proofs alone: a list of tags with their data.
pub trait Contents {
    ghost use Rattle.std.specs.Prelude.{ℕ, List};
    ghost use Rattle.ssd_geo.specs.declared.tag.Tag.{Tag};

    ghost contents: { List (Tag × List ℕ) };
}

impl Contents for Brand {
    ghost use Rattle.std.specs.Prelude.{[]};

    ghost contents = { [] };
}

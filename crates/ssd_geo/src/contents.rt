use std::marker::Brand;

/// Which data each write of a trace has. It is for contracts alone: no value holds it.
pub trait Contents {
    ghost use Rattle.std.specs.Prelude.{ℕ, List};
    ghost use Rattle.ssd_geo.specs.declared.tag.Tag.{Tag};

    ghost contents: { List (Tag × List ℕ) };
}

impl Contents for Brand {
    ghost use Rattle.std.specs.Prelude.{[]};

    ghost contents = { [] };
}

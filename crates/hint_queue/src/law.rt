use crate::view::{Noted, View};
use crossbeam_queue::protocol::{Join, Lesson, Outcome, Protocol, Split};
use std::marker::{Brand, PhantomData};

/// The rule of the queue.
pub struct Law;

impl Protocol<Noted, View> for Law {
    ghost use Rattle.hint_queue.specs.Kept.{IsKept};
    ghost use Rattle.hint_queue.specs.declared.view.View.TheVariants.{New};

    ghost holds = { IsKept };

    ghost first = { New };
}

/// How many passes a queue has, and the bound of its pages, for the proof of a step alone. A call picks them.
pub trait Bounds {
    ghost use Rattle.std.specs.Prelude.{ℕ};

    ghost passes: { ℕ };

    ghost pages: { ℕ };
}

impl Bounds for Brand {
    ghost passes = { 0 };

    ghost pages = { 0 };
}

/// The queue gets its bound.
pub struct Open<B> {
    of: PhantomData<B>,
}

impl<B: Bounds> Split<View> for Open<B> {
    ghost use Rattle.hint_queue.specs.Steps.{opened, spent};

    ghost left = { λ view. opened B.passes B.pages };

    ghost right = { λ view. spent };
}

/// A pass is made.
pub struct Deal;

impl Split<View> for Deal {
    ghost use Rattle.hint_queue.specs.Steps.{deal_left, deal_right};

    ghost left = { deal_left };

    ghost right = { deal_right };
}

/// A page is pushed.
pub struct Push;

impl Outcome<Noted, View> for Push {
    ghost use Rattle.hint_queue.specs.Steps.{Pushed};

    ghost then = { Pushed };
}

impl Lesson<Noted, View> for Push {
    ghost use Rattle.hint_queue.specs.Steps.{Waiting};

    ghost fact = { Waiting };
}

/// A page is taken.
pub struct Take;

impl Outcome<Noted, View> for Take {
    ghost use Rattle.hint_queue.specs.Steps.{Taken};

    ghost then = { Taken };
}

impl Lesson<Noted, View> for Take {
    ghost use Rattle.hint_queue.specs.Steps.{Waiting};

    ghost fact = { Waiting };
}

/// A pass is taken in by another.
pub struct Gather;

impl Join<View> for Gather {
    ghost use Rattle.hint_queue.specs.Steps.{gathered, spent};

    ghost both = { gathered };

    ghost spent = { spent };
}

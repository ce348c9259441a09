// The hints of an actor.
ghost use Rattle.std.specs.Prelude.{◌≡◌, ◌<◌};
ghost use Rattle.actor_calls.specs.Hinted.{PushesIf};
ghost use Rattle.ssd_formats.specs.RunText.{is_hinted};

use ctl::is_hint;
use hint_queue::{HintPass, Hints};
use ssd_geo::Reply;
use std::sync::Wait;

// Pushes the page of a read where its reply is a hint.
pub fn push_hint<R: Wait>(
    rt: &R,
    hints: &Hints,
    pass: HintPass,
    page: u32,
    reply: &Reply,
) -> HintPass
    requires queue { pass.queue ≡ hints.now }
    requires page { page < hints.now.pages }
    ensures pushes { PushesIf (is_hinted reply.now) page pass result }
{
    if !is_hint(reply) {
        return pass;
    }
    let (next, _) = hints.push(rt, pass, page);
    next
}

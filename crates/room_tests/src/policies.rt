ghost use Rattle.std.specs.Prelude.{◌≡◌, ◌<◌, ◌≤◌, IfOk, IfSome, length, option_map};
ghost use Rattle.ssd_histories.specs.Policies.{answer_of, first_view, view_after_erase, view_after_pick};
ghost use Rattle.ssd_geo.specs.declared.policy_view.PolicyKind.TheVariants as kind;

use ssd_geo::{SbInfo, SbState};
use std::alloc::{AllocError, Global};
use std::process::Abort;
use std::test::Fail;
use victim::{Greedy, Oldest, Policy, RoundRobin, default_victim};

fn info(state: SbState, live: u32) -> SbInfo {
    SbInfo {
        state,
        live,
        slots: 4,
        erases: 0,
        pins: 0,
    }
}

// Two superblocks with three slots of garbage, one with two, one with none, and a frontier.
fn mixed() -> [SbInfo; 5] {
    [
        info(SbState::Sealed, 1),
        info(SbState::Sealed, 4),
        info(SbState::Frontier, 1),
        info(SbState::Sealed, 1),
        info(SbState::Sealed, 2),
    ]
}

// Nothing that may be picked.
fn without_candidates() -> [SbInfo; 4] {
    [
        info(SbState::Sealed, 4),
        info(SbState::Free, 0),
        info(SbState::Victim, 1),
        info(SbState::Bad, 1),
    ]
}

// A policy in a box, as a channel holds it, answers by its view.
fn picked(policy: &mut Box<dyn Policy + Send>, table: &[SbInfo]) -> u16
    requires { length table.now ≤ 256 }
    ensures answer { IfSome (told policy.old) (λ view. result ≡ answer_of view table.now) }
    ensures view { told policy.new ≡ option_map (λ view. view_after_pick view table.now) (told policy.old) }
{
    policy.pick(table)
}

fn told_of_erase(policy: &mut Box<dyn Policy + Send>, sb: u16)
    requires { sb < 256 }
    ensures { told policy.new ≡ option_map (λ view. view_after_erase view sb) (told policy.old) }
{
    policy.erased(sb);
}

// The first pick of a new policy in a box.
fn first_pick(alloc: Global, table: &[SbInfo]) -> Result<u16, AllocError>
    requires { length table.now ≤ 256 }
    ensures { IfOk result (λ sb. sb ≡ answer_of (first_view kind.Oldest) table.now) }
{
    let mut policy: Box<dyn Policy + Send> = Box::new(alloc, Oldest::new())?;
    Ok(picked(&mut policy, table))
}

// A pick with its answer, a pick without a candidate, or the erase of a superblock.
#[derive(Clone, Copy, Debug)]
enum Step {
    Pick(u16),
    Nothing,
    Erased(u16),
}

fn work(rt: &impl Abort, policy: &mut Box<dyn Policy + Send>, steps: &[Step]) {
    for step in steps {
        match *step {
            Step::Pick(sb) => assert_eq!(rt; picked(policy, &mixed()), sb, "among {steps:?}"),
            Step::Nothing => assert_eq!(rt; picked(policy, &without_candidates()), 65_535),
            Step::Erased(sb) => {
                assert!(rt; sb < 256);
                told_of_erase(policy, sb);
            }
        }
    }
}

#[test]
fn the_most_garbage_is_picked(rt: HostRuntime) -> Result<(), Fail> {
    assert_eq!(rt; default_victim(&mixed()), Some(0));
    assert_eq!(rt; default_victim(&without_candidates()), None);
    let mut policy: Box<dyn Policy + Send> = Box::new(rt.alloc(), Greedy::new())?;
    work(
        &rt,
        &mut policy,
        &[Step::Pick(0), Step::Erased(0), Step::Nothing, Step::Pick(0)],
    );
    Ok(())
}

#[test]
fn the_oldest_erase_is_picked(rt: HostRuntime) -> Result<(), Fail> {
    assert_eq!(rt; first_pick(rt.alloc(), &mixed())?, 0);
    let mut policy: Box<dyn Policy + Send> = Box::new(rt.alloc(), Oldest::new())?;
    let steps = [
        Step::Pick(0),
        Step::Erased(0),
        Step::Nothing,
        Step::Pick(3),
        Step::Erased(255),
        Step::Erased(3),
        Step::Pick(4),
        Step::Erased(4),
        Step::Pick(0),
        Step::Erased(0),
        Step::Pick(3),
    ];
    work(&rt, &mut policy, &steps);
    Ok(())
}

#[test]
fn candidates_are_picked_in_turn(rt: HostRuntime) -> Result<(), Fail> {
    let mut policy: Box<dyn Policy + Send> = Box::new(rt.alloc(), RoundRobin::new())?;
    let steps = [
        Step::Nothing,
        Step::Pick(0),
        Step::Erased(0),
        Step::Pick(3),
        Step::Nothing,
        Step::Pick(4),
        Step::Pick(0),
    ];
    work(&rt, &mut policy, &steps);
    Ok(())
}

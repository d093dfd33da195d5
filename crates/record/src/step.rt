// What an act does to one record, part by part, and to a house's own bytes. Each part has a function of its own, so that a caller need not
// store the others.
ghost use Rattle.std.specs.Prelude.{◌≡◌, Bool, ◌≤◌};
ghost use Rattle.ground.specs.Choice.{pick};
ghost use Rattle.plan.specs.Plans.{bit};
ghost use Rattle.record.specs.declared.House.{House};
ghost use Rattle.record.specs.Layout.{membership, preset, bit_of, regroup};
ghost use Rattle.record.specs.ModuleTable.{lit_level, dimmed, brightened, obeyed, level_for, reached, asked, joined, left};
ghost use Rattle.record.specs.ModuleTable.{acted, step_record, heard_after, house_after};
ghost use Rattle.record.specs.Parts.{keeps_groups};

use crate::{GROUPS, Groups, House, Membership, Record};
use ground::{choose, number_at};
use message::Function;
use plan::{ABSOLUTE, Act, GroupAct, bit_of};

// A dark level as 63, and a lit one as it is.
fn lit_level(l: u8) -> u8
    ensures { result ≡ lit_level l }
{
    choose(l == 0, 63, l)
}

fn dim(l: u8) -> u8
    ensures { result ≡ dimmed l }
{
    let x = lit_level(l);
    if x < 4 { 1 } else { x - 3 }
}

fn brighten(l: u8) -> u8
    ensures { result ≡ brightened l }
{
    let x = lit_level(l);
    if x < 60 { x + 3 } else { 63 }
}

// The level that a module takes where x is asked: for an appliance all or nothing.
fn level_asked(x: u8, r: Record) -> u8
    ensures { result ≡ level_for x r }
{
    choose((r.kind == 2) & !(x == 0), 63, u8::min(63, x))
}

// The level that a function leaves.
fn obeyed_level(f: Function, r: Record) -> u8
    ensures { result ≡ (obeyed f r).level }
{
    let called = r.addressed == 1;
    let lamp = r.kind == 1;
    match f {
        Function::On => choose(called, lit_level(r.level), r.level),
        Function::Off => choose(called, 0, r.level),
        Function::Dim => choose(called & lamp, dim(r.level), r.level),
        Function::Bright => choose(called & lamp, brighten(r.level), r.level),
        Function::AllLightsOn => choose(lamp, 63, r.level),
        Function::AllLightsOff => choose(lamp, 0, r.level),
        Function::AllUnitsOff => 0,
        _ => r.level,
    }
}

// What a module is in group g.
fn membership_in(g: u8, groups: Groups) -> Membership
    ensures { result ≡ membership g groups }
{
    Membership {
        member: bit_of(g, groups.mask),
        preset: number_at(groups.presets, g),
        reference: number_at(groups.references, g),
    }
}

// Whether a command for the group, with the reference, reaches the module.
fn reached(group: u8, reference: u8, r: Record) -> bool
    ensures { result ≡ reached group reference r }
{
    let m = membership_in(group, r.groups);
    m.member & ((m.reference == ABSOLUTE) | (m.reference == reference))
}

// The level that a module takes where its preset for the group is asked.
fn preset_of(g: u8, r: Record) -> u8
    ensures { result ≡ preset g r }
{
    membership_in(g, r.groups).preset
}

// The level that a member takes which a command for the group reaches.
fn asked_level(ask: GroupAct, group: u8, r: Record) -> u8
    ensures { result ≡ asked ask group r }
{
    let lamp = r.kind == 1;
    match ask {
        GroupAct::Execute => preset_of(group, r),
        GroupAct::PutOff => 0,
        GroupAct::StepDim => choose(lamp, dim(r.level), r.level),
        GroupAct::StepBright => choose(lamp, brighten(r.level), r.level),
    }
}

// The level that an act leaves a module that is unit n, whatever the house's own bytes.
fn act_level(act: Act, n: u8, r: Record) -> u8
    ensures { (own : House) → result ≡ (acted act own n r).level }
{
    match act {
        Act::Obey(f) => obeyed_level(f, r),
        Act::Level { unit, level } => choose(n == unit, level_asked(level, r), r.level),
        Act::UnitsOn => 63,
        Act::UnitsOff => 0,
        Act::Group {
            group,
            reference,
            ask,
        } => choose(
            reached(group, reference, r),
            asked_level(ask, group, r),
            r.level,
        ),
        _ => r.level,
    }
}

// The "addressed" byte that a function leaves.
fn obeyed_addressed(f: Function, r: Record) -> u8
    ensures { result ≡ (obeyed f r).addressed }
{
    match f {
        Function::AllUnitsOff => 0,
        _ => r.addressed,
    }
}

// The "addressed" byte that an act leaves a module that is unit n, by the house's own bytes.
fn act_addressed(act: Act, house: House, n: u8, r: Record) -> u8
    ensures { result ≡ (acted act house n r).addressed }
{
    match act {
        Act::Address { unit } => choose(n == unit, 1, choose(house.heard == 1, 0, r.addressed)),
        Act::Obey(f) => obeyed_addressed(f, r),
        _ => r.addressed,
    }
}

// Group g as a bit of a mask; there is none beyond the four.
fn only(g: u8) -> u8
    ensures { (result ≡ bit_of g) × (result ≤ 8) }
{
    if g <= 3 { 1 << g } else { 0 }
}

// The membership given where group k is among those told, a bit each, and else the membership that there was.
fn membership_told(told: u8, m: Membership, groups: Groups, k: u8) -> Membership
    ensures { result ≡ pick (bit k told) m (membership k groups) }
{
    let old = membership_in(k, groups);
    choose(bit_of(k, told), m, old)
}

// The groups with the membership given in those told, a bit each.
fn regrouped(told: u8, m: Membership, groups: Groups) -> Groups
    ensures { result ≡ regroup (λ k. pick (bit k told) m (membership k groups)) }
{
    let mut mask: u8 = 0;
    let mut presets = [0; GROUPS];
    let mut references = [0; GROUPS];
    for k in 0..GROUPS {
        let own = membership_told(told, m, groups, k as u8);
        mask = mask + choose(own.member, only(k as u8), 0);
        presets[k] = own.preset;
        references[k] = own.reference;
    }
    Groups {
        mask,
        presets,
        references,
    }
}

// The groups with group g joined: preset x there, and the reference, one above 16 being absolute.
fn join(g: u8, x: u8, reference: u8, groups: Groups) -> Groups
    ensures { result ≡ joined g x reference groups }
{
    regrouped(
        only(g),
        Membership {
            member: true,
            preset: x,
            reference: ABSOLUTE.min(reference),
        },
        groups,
    )
}

// The groups with those told left, a bit each.
fn leave(told: u8, groups: Groups) -> Groups
    ensures { result ≡ left told groups }
{
    regrouped(
        told,
        Membership {
            member: false,
            preset: 0,
            reference: 0,
        },
        groups,
    )
}

// False for the acts that are about groups, joining and leaving. These leave every level and every "addressed" byte, and all others the groups.
pub fn keeps_groups(act: Act) -> bool
    ensures { result ≡ keeps_groups act }
{
    !matches!(
        act,
        Act::Join { .. } | Act::JoinAt { .. } | Act::Leave { .. } | Act::LeaveHouse { .. }
    )
}

// The groups that an act leaves a module that is unit n, whatever the house's own bytes.
fn act_groups(act: Act, n: u8, r: Record) -> Groups
    ensures { (own : House) → result ≡ (acted act own n r).groups }
{
    match act {
        Act::Join {
            unit,
            group,
            reference,
        } => choose(
            n == unit,
            join(group, r.level, reference, r.groups),
            r.groups,
        ),
        Act::JoinAt { unit, group, level } => choose(
            n == unit,
            join(group, level_asked(level, r), ABSOLUTE, r.groups),
            r.groups,
        ),
        Act::Leave { unit, groups } => choose(n == unit, leave(groups, r.groups), r.groups),
        Act::LeaveHouse { groups } => leave(groups, r.groups),
        _ => r.groups,
    }
}

// The level of the record of unit n after an act. An absent unit stays as it is, here and below.
pub fn level_after(act: Act, n: u8, r: Record) -> u8
    ensures { (own : House) → result ≡ (step_record act own n r).level }
{
    choose(r.kind == 0, r.level, act_level(act, n, r))
}

// Its "addressed" byte, by the house's own bytes.
pub fn addressed_after(act: Act, house: House, n: u8, r: Record) -> u8
    ensures { result ≡ (step_record act house n r).addressed }
{
    choose(r.kind == 0, r.addressed, act_addressed(act, house, n, r))
}

// Its groups.
pub fn groups_after(act: Act, n: u8, r: Record) -> Groups
    ensures { (own : House) → result ≡ (step_record act own n r).groups }
{
    choose(r.kind == 0, r.groups, act_groups(act, n, r))
}

// The "command heard" byte after an act, where it was x before.
fn heard_after(act: Act, x: u8) -> u8
    ensures { result ≡ heard_after act x }
{
    match act {
        Act::Address { .. } => 0,
        Act::Obey(_) => 1,
        _ => x,
    }
}

// A house's own bytes after an act that leaves so many of its modules above level 0.
pub fn house_after(act: Act, house: House, above: u8) -> House
    ensures { result ≡ house_after act above house }
{
    House {
        heard: heard_after(act, house.heard),
        lit: above,
    }
}

// One shutter by value: its fields, tests of them and of a lifestyle, and what a motion makes of it. The table's bytes are the crate above.

#![tactic(auto)]

ghost use Rattle.std.specs.Prelude.{◌≡◌, eqb, set};
ghost use Rattle.ground.specs.Choice.{pick};
ghost use Rattle.plan.specs.Motions.{OPEN};
ghost use Rattle.shutter.specs.Shutters.{lifestyle_ok, fields_ok, included, opening_for};
ghost use Rattle.shutter.specs.Shutters.{with_opening, with_limit, with_protection, with_lifestyles, moved, cut, step_shutter};

use ground::{choose, number_at};
use plan::{Motion, OPEN};

// The lifestyles.
pub const LIFESTYLES: usize = 8;

// A shutter: present 0 or 1; its opening, 0 closed to 25 open, and its limit; sun protection 0 or 1; for each lifestyle a mark, 1 where it is included, and its
// opening there. Its bytes and no enums: `shutter_table::run` takes tables that break a rule, and its clause `table` says what becomes of any byte.
#[derive(Clone, Copy)]
pub struct Shutter {
    pub present: u8,
    pub opening: u8,
    pub limit: u8,
    pub protection: u8,
    pub marks: [u8; LIFESTYLES],
    pub openings: [u8; LIFESTYLES],
}

// Whether a lifestyle can have the mark and the opening.
pub fn lifestyle_valid(mark: u8, x: u8) -> bool
    ensures { result ≡ lifestyle_ok mark x }
{
    (mark <= 1) & (x <= OPEN) & ((mark == 1) | (x == 0))
}

// How far a shutter may be open: to its limit where sun protection is on, and else fully.
fn most(limit: u8, protection: u8) -> u8
    ensures { result ≡ pick (eqb protection 1) limit OPEN }
{
    if protection == 1 { limit } else { OPEN }
}

// Whether a shutter's fields beside its lifestyles' are in their ranges, and its opening not above a protected limit. That an absent shutter is all zeros is
// not asked here.
pub fn fields_valid(present: u8, opening: u8, limit: u8, protection: u8) -> bool
    ensures { result ≡ fields_ok present opening limit protection }
{
    (present <= 1) & (limit <= OPEN) & (protection <= 1) & (opening <= most(limit, protection))
}

// Eight numbers with another at one place; a place beyond them is none.
fn put_at(mut xs: [u8; LIFESTYLES], l: u8, x: u8) -> [u8; LIFESTYLES]
    ensures { result ≡ set xs l x }
{
    let i = l as usize;
    if i < LIFESTYLES {
        xs[i] = x;
    }
    xs
}

// The shutter with another opening.
fn with_opening(x: u8, s: Shutter) -> Shutter
    ensures { result ≡ with_opening x s }
{
    Shutter { opening: x, ..s }
}

// The shutter with another limit.
fn with_limit(x: u8, s: Shutter) -> Shutter
    ensures { result ≡ with_limit x s }
{
    Shutter { limit: x, ..s }
}

// The shutter with sun protection enabled, 1, or disabled, 0.
fn with_protection(p: u8, s: Shutter) -> Shutter
    ensures { result ≡ with_protection p s }
{
    Shutter { protection: p, ..s }
}

// The shutter with other marks and openings for the lifestyles.
fn with_lifestyles(marks: [u8; LIFESTYLES], openings: [u8; LIFESTYLES], s: Shutter) -> Shutter
    ensures { result ≡ with_lifestyles marks openings s }
{
    Shutter {
        marks,
        openings,
        ..s
    }
}

// The shutter with another mark and opening for one lifestyle.
fn with_lifestyle(l: u8, mark: u8, x: u8, s: Shutter) -> Shutter
    ensures { result ≡ with_lifestyles (set s.marks l mark) (set s.openings l x) s }
{
    with_lifestyles(put_at(s.marks, l, mark), put_at(s.openings, l, x), s)
}

// The shutter opened as far as it is to be in a lifestyle, where it is included.
fn begun(l: u8, s: Shutter) -> Shutter
    ensures { result ≡ pick (included l s) (with_opening (opening_for l s) s) s }
{
    if number_at(s.marks, l) == 1 {
        with_opening(number_at(s.openings, l), s)
    } else {
        s
    }
}

// What a motion makes of a shutter that it reaches, before the opening is cut.
fn moved(motion: Motion, s: Shutter) -> Shutter
    ensures { result ≡ moved motion s }
{
    match motion {
        Motion::SelfTest => s,
        Motion::OpenProtected { opening, .. } => with_protection(1, with_opening(opening, s)),
        Motion::Limit { limit, .. } => with_protection(1, with_limit(limit, s)),
        Motion::OpenUnprotected { opening, .. } => with_protection(0, with_opening(opening, s)),
        Motion::OpenHouse | Motion::OpenAll => with_protection(0, with_opening(OPEN, s)),
        Motion::Include {
            lifestyle,
            opening,
            ..
        } => with_lifestyle(lifestyle, 1, opening, s),
        Motion::Begin { lifestyle } => begun(lifestyle, s),
        Motion::Exclude { lifestyle, .. } => with_lifestyle(lifestyle, 0, 0, s),
        Motion::ExcludeAll => with_lifestyles([0; LIFESTYLES], [0; LIFESTYLES], s),
        Motion::CloseHouse | Motion::CloseAll => with_protection(1, with_opening(0, s)),
    }
}

// The shutter with its opening cut to the limit, where sun protection is on.
fn cut(s: Shutter) -> Shutter
    ensures { result ≡ cut s }
{
    let opening = choose(s.protection == 1, s.limit.min(s.opening), s.opening);
    with_opening(opening, s)
}

// What becomes of a shutter that a motion reaches; which unit it names is not looked at. Where protection is then on, an opening above the limit is cut to it.
// An opening or limit that there is not is for the caller to refuse (`plan::motion_fits`), and a lifestyle above 7 is none. A shutter whose present is not 1
// stays as it is.
pub fn step(motion: Motion, s: Shutter) -> Shutter
    ensures { result ≡ step_shutter motion s }
{
    if s.present == 1 {
        cut(moved(motion, s))
    } else {
        s
    }
}

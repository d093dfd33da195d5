// The lent bytes of a shutter table: whether they keep its rules, and a motion run on the shutters that it reaches.

#![tactic(auto)]

ghost use Rattle.std.specs.Prelude.{◌≡◌, true, false, [], ◌∷◌, ◌+◌, ◌*◌, ◌≤◌, ◌<◌, length};
ghost use Rattle.std.proofs.lemmas.List.Edits.{sets};
ghost use Rattle.ground.specs.Records.{put_at, Stepped, all_below};
ghost use Rattle.shutter.specs.Shutters.{LIFESTYLES, lifestyles_ok, no_lifestyles, shutter_ok, step_shutter};
ghost use Rattle.shutter_table.specs.Covers.{Covers, SteppedRun};
ghost use Rattle.shutter_table.specs.Eights.{EIGHTS, eight_ok};
ghost use Rattle.shutter_table.specs.Kept.{keeps_lifestyles};
ghost use Rattle.shutter_table.specs.ShutterRuns.{unit_named, motion_answer, shutters_after};
ghost use Rattle.shutter_table.specs.ShutterTable.{SHUTTERS, SHUTTER_BYTES, SHUTTER_TABLE_BYTES, shutter_at, shutters, shutters_ok, move_all};
ghost use Rattle.shutter_table.specs.ShutterTable.{opening_of, openings_changed};

use ground::{Refusal, count_of, zeros};
use plan::{Motion, motion_fits};
use shutter::{LIFESTYLES, Shutter, fields_valid, lifestyle_valid, step};

// The bytes of a shutter.
pub const SHUTTER_BYTES: usize = 20;

// The shutters of a house.
const UNITS: usize = 16;

// The shutters of all houses, A1 to P16.
pub const SHUTTERS: usize = 256;

// The bytes of a table.
pub const SHUTTER_TABLE_BYTES: usize = SHUTTERS * SHUTTER_BYTES;

// Shutters are judged eight at a time; eight whose bytes are all zeros are passed over.
const EIGHT: usize = 8;

const EIGHT_BYTES: usize = EIGHT * SHUTTER_BYTES;

const EIGHTS: usize = SHUTTERS / EIGHT;

// The bytes of a table as an array, so that their number stands in the type.
type Table = [u8; SHUTTER_TABLE_BYTES];

// Shutter i of a table.
fn load(t: &Table, i: usize) -> Shutter
    requires { i < SHUTTERS }
    ensures { result ≡ shutter_at t.now i }
{
    let at = i * SHUTTER_BYTES;
    Shutter {
        present: t[at],
        opening: t[at + 1],
        limit: t[at + 2],
        protection: t[at + 3],
        marks: [
            t[at + 4],
            t[at + 5],
            t[at + 6],
            t[at + 7],
            t[at + 8],
            t[at + 9],
            t[at + 10],
            t[at + 11],
        ],
        openings: [
            t[at + 12],
            t[at + 13],
            t[at + 14],
            t[at + 15],
            t[at + 16],
            t[at + 17],
            t[at + 18],
            t[at + 19],
        ],
    }
}

// Whether each lifestyle of shutter i can have its mark and its opening. The eight are tested straight from the bytes and with no early way out: the compiler
// then makes one test of them.
fn styles_ok(t: &Table, i: usize) -> bool
    requires { i < SHUTTERS }
    ensures { result ≡ lifestyles_ok LIFESTYLES (shutter_at t.now i) }
{
    let at = i * SHUTTER_BYTES;
    let mut ok = true;
    for l in 0..LIFESTYLES {
        ok &= lifestyle_valid(t[at + 4 + l], t[at + 12 + l]);
    }
    ok
}

// Whether no lifestyle of shutter i has a mark or an opening.
fn no_styles(t: &Table, i: usize) -> bool
    requires { i < SHUTTERS }
    ensures { result ≡ no_lifestyles LIFESTYLES (shutter_at t.now i) }
{
    let at = i * SHUTTER_BYTES;
    let mut none = true;
    for l in 0..LIFESTYLES {
        none &= (t[at + 4 + l] == 0) & (t[at + 12 + l] == 0);
    }
    none
}

// Whether shutter i keeps the rules: an absent one is all zeros.
fn shutter_ok(t: &Table, i: usize) -> bool
    requires { i < SHUTTERS }
    ensures { result ≡ shutter_ok (shutter_at t.now i) }
{
    let at = i * SHUTTER_BYTES;
    if t[at] == 0 {
        return (t[at + 1] == 0) & (t[at + 2] == 0) & (t[at + 3] == 0) & no_styles(t, i);
    }
    if !fields_valid(t[at], t[at + 1], t[at + 2], t[at + 3]) {
        return false;
    }
    styles_ok(t, i)
}

// Whether each shutter of the e-th eight keeps the rules. It ends at the first that does not.
fn each_ok(t: &Table, e: usize) -> bool
    requires { e < EIGHTS }
    ensures { result ≡ eight_ok e t.now }
{
    let first = e * EIGHT;
    for n in 0..EIGHT {
        if !shutter_ok(t, first + n) {
            return false;
        }
    }
    true
}

// The same, and eight absent shutters are passed over.
fn eight_ok(t: &Table, e: usize) -> bool
    requires { e < EIGHTS }
    ensures { result ≡ eight_ok e t.now }
{
    let from = e * EIGHT_BYTES;
    if zeros(&t[from..from + EIGHT_BYTES]) {
        return true;
    }
    each_ok(t, e)
}

// Whether each shutter keeps the rules.
fn all_ok(t: &Table) -> bool
    ensures { result ≡ all_below SHUTTERS (λ i. shutter_ok (shutter_at t.now i)) }
{
    let mut ok = true;
    for e in 0..EIGHTS {
        ok &= eight_ok(t, e);
    }
    ok
}

// Whether the bytes are a shutter table that keeps the rules.
pub fn valid(t: &[u8]) -> bool
    ensures { result ≡ shutters_ok t.now }
{
    match t.as_array() {
        Some(whole) => all_ok(whole),
        None => false,
    }
}

// Puts eight bytes at a place of a table, and says that they are eight.
fn put_eight(t: &mut Table, at: usize, xs: [u8; LIFESTYLES])
    requires { at + LIFESTYLES ≤ SHUTTER_TABLE_BYTES }
    ensures { (t.new ≡ sets t.old at xs) × (length xs ≡ LIFESTYLES) }
{
    t[at] = xs[0];
    t[at + 1] = xs[1];
    t[at + 2] = xs[2];
    t[at + 3] = xs[3];
    t[at + 4] = xs[4];
    t[at + 5] = xs[5];
    t[at + 6] = xs[6];
    t[at + 7] = xs[7];
}

// Puts a shutter at place i of a table.
fn store(t: &mut Table, i: usize, s: Shutter)
    requires { i < SHUTTERS }
    ensures { t.new ≡ put_at shutters t.old i s }
{
    let at = i * SHUTTER_BYTES;
    t[at] = s.present;
    t[at + 1] = s.opening;
    t[at + 2] = s.limit;
    t[at + 3] = s.protection;
    put_eight(t, at + 4, s.marks);
    put_eight(t, at + 12, s.openings);
}

// Puts what a motion can change of a shutter beside its lifestyles: the three bytes after that of its presence.
fn store_fields(t: &mut Table, i: usize, stepped: Shutter)
    requires { i < SHUTTERS }
    ensures { t.new ≡ sets t.old (i * SHUTTER_BYTES + 1) (stepped.opening ∷ stepped.limit ∷ stepped.protection ∷ []) }
{
    let at = i * SHUTTER_BYTES;
    t[at + 1] = stepped.opening;
    t[at + 2] = stepped.limit;
    t[at + 3] = stepped.protection;
}

// Whether a motion leaves the marks and openings for the lifestyles.
fn keeps_lifestyles(motion: Motion) -> bool
    ensures { result ≡ keeps_lifestyles motion }
{
    !matches!(
        motion,
        Motion::Include { .. } | Motion::Exclude { .. } | Motion::ExcludeAll
    )
}

// Steps shutter i of a table by a motion, and answers 1 where its opening changed. An absent shutter stays as it is. WHOLE may be false where the motion leaves
// the lifestyles, whose sixteen bytes are then not stored. It is a const parameter, so that each of the two has a loop of its own: with the choice of what to
// store in one loop each turn took a quarter more instructions.
fn step_at<const WHOLE: bool>(t: &mut Table, i: usize, motion: Motion) -> usize
    requires { (i < SHUTTERS) × (WHOLE ≡ false → keeps_lifestyles motion ≡ true) }
    ensures { Stepped shutters opening_of (step_shutter motion) i t.old t.new result }
{
    if t[i * SHUTTER_BYTES] != 1 {
        return 0;
    }
    let before = load(t, i);
    let stepped = step(motion, before);
    if WHOLE {
        store(t, i, stepped);
    } else {
        store_fields(t, i, stepped);
    }
    count_of(before.opening == stepped.opening)
}

// The places that a motion reaches: how many they are, and the first of them.
#[derive(Clone, Copy)]
struct Places {
    first: usize,
    many: usize,
}

// So many places from the first on.
fn reaching(first: usize, many: usize) -> Places
    ensures { result ≡ record { first = first; many = many } }
{
    Places { first, many }
}

// The places that a motion for a house reaches: one unit, the sixteen of the house, those of every house, or none.
fn places_of(motion: Motion, house: usize) -> Places
    requires { (house < 16) × (unit_named motion < 16) }
    ensures { Covers motion house result.first result.many }
{
    let first = house * UNITS;
    match motion {
        Motion::SelfTest => reaching(0, 0),
        Motion::OpenProtected { unit, .. }
        | Motion::Limit { unit, .. }
        | Motion::OpenUnprotected { unit, .. }
        | Motion::Include { unit, .. }
        | Motion::Exclude { unit, .. } => reaching(first + unit as usize, 1),
        Motion::OpenHouse | Motion::CloseHouse => reaching(first, UNITS),
        // The others are for every house.
        _ => reaching(0, SHUTTERS),
    }
}

// The unit that a motion names; 0 where it names none: no `Option`, since the definition `unit_named` says so.
fn unit_named(motion: Motion) -> u8
    ensures { result ≡ unit_named motion }
{
    match motion {
        Motion::OpenProtected { unit, .. }
        | Motion::Limit { unit, .. }
        | Motion::OpenUnprotected { unit, .. }
        | Motion::Include { unit, .. }
        | Motion::Exclude { unit, .. } => unit,
        _ => 0,
    }
}

// Steps so many shutters from a place on, and answers how many openings changed.
fn step_run<const WHOLE: bool>(t: &mut Table, first: usize, many: usize, motion: Motion) -> usize
    requires { (first + many ≤ SHUTTERS) × (WHOLE ≡ false → keeps_lifestyles motion ≡ true) }
    ensures { SteppedRun motion first many t.old t.new result }
{
    let mut count: usize = 0;
    for n in 0..many {
        count += step_at::<WHOLE>(t, first + n, motion);
    }
    count
}

// Runs a motion on the shutters that it reaches, and answers how many openings changed.
fn run_motion(t: &mut Table, house: usize, motion: Motion) -> usize
    requires { (house < 16) × (unit_named motion < 16) }
    ensures { (t.new ≡ move_all motion house t.old) × (result ≡ openings_changed t.old t.new) }
{
    let p = places_of(motion, house);
    if keeps_lifestyles(motion) {
        step_run::<false>(t, p.first, p.many, motion)
    } else {
        step_run::<true>(t, p.first, p.many, motion)
    }
}

// Runs a motion for a house on a table, and answers how many openings changed. Refused: a table of another length, then a house or unit above 15, then an
// opening above 25. The table's rules are not judged.
pub fn run(t: &mut [u8], house: u8, motion: Motion) -> Result<usize, Refusal>
    ensures answer { result ≡ motion_answer motion house t.old }
    ensures table { t.new ≡ shutters_after motion house t.old }
{
    let Some(whole) = t.as_mut_array() else {
        return Err(Refusal::ShutterTable);
    };
    if !((house <= 15) & (unit_named(motion) <= 15)) {
        return Err(Refusal::Message);
    }
    if !motion_fits(motion) {
        return Err(Refusal::Opening);
    }
    Ok(run_motion(whole, house as usize, motion))
}

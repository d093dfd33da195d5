// The lent bytes of a module table: whether they keep its rules, and an act run on the records of a house.

#![tactic(auto)]

ghost use Rattle.std.specs.Prelude.{◌≡◌, true, false, ℕ, ◌+◌, ◌*◌, ◌≤◌, ◌<◌, length};
ghost use Rattle.std.proofs.lemmas.List.Edits.{sets};
ghost use Rattle.ground.specs.Choice.{pick};
ghost use Rattle.ground.specs.Records.{bytes_at, step_each, Stepped, all_below, each_ok};
ghost use Rattle.record.specs.declared.Record.{Record};
ghost use Rattle.record.specs.declared.House.{House};
ghost use Rattle.record.specs.Layout.{GROUPS, RECORD_BYTES, RECORDS, HOUSES, UNITS, TABLE_BYTES};
ghost use Rattle.record.specs.Layout.{present, record_at, modules, put, house_at, put_house};
ghost use Rattle.record.specs.ModuleTable.{groups_ok, record_ok, heard_ok, lit_of, lit_in, table_ok, obeyed, step_record, level_of, run_act, changed};
ghost use Rattle.record.specs.Parts.{keeps_groups};
ghost use Rattle.module_table.specs.ModuleRuns.{act_answer, modules_after};
ghost use Rattle.module_table.specs.Units.{units_ok};
ghost use Rattle.module_table.specs.Reaches.{may_change, Spares};

use ground::{Refusal, choose, count_of, zeros};
use message::Function;
use plan::{Act, bit_of};
use quick::quick_each;
use record::step::{addressed_after, groups_after, house_after, keeps_groups, level_after};
use record::{
    GROUPS, Groups, HEARD_AT, HOUSES, House, LIT_AT, RECORD_BYTES, Record, TABLE_BYTES, UNITS,
    fields_valid, group_valid, heard_valid,
};

mod quick;

// The bytes of a house's records.
const UNITS_BYTES: usize = UNITS * RECORD_BYTES;

// The bytes of a table as an array, so that their number stands in the type.
type Table = [u8; TABLE_BYTES];

// Four bytes of a table, from place at + k on.
fn four_at(t: &Table, at: usize, k: usize) -> [u8; GROUPS]
    requires { (at + RECORD_BYTES ≤ TABLE_BYTES) × (k ≤ 8) }
    ensures { result ≡ bytes_at t.now at k GROUPS }
{
    [t[at + k], t[at + (k + 1)], t[at + (k + 2)], t[at + (k + 3)]]
}

// Record i of a table.
fn load(t: &Table, i: usize) -> Record
    requires { i < RECORDS }
    ensures { result ≡ record_at t.now i }
{
    let at = i * RECORD_BYTES;
    Record {
        kind: t[at],
        level: t[at + 1],
        addressed: t[at + 2],
        groups: Groups {
            mask: t[at + 3],
            presets: four_at(t, at, 4),
            references: four_at(t, at, 8),
        },
    }
}

// Puts four bytes at a place of a table, and says that they are four.
fn put_four(t: &mut Table, at: usize, xs: [u8; GROUPS])
    requires { at + GROUPS ≤ TABLE_BYTES }
    ensures { (t.new ≡ sets t.old at xs) × (length xs ≡ GROUPS) }
{
    t[at] = xs[0];
    t[at + 1] = xs[1];
    t[at + 2] = xs[2];
    t[at + 3] = xs[3];
}

// Puts a record at place i of a table.
fn store(t: &mut Table, i: usize, r: Record)
    requires { i < RECORDS }
    ensures { t.new ≡ put t.old i r }
{
    let at = i * RECORD_BYTES;
    t[at] = r.kind;
    t[at + 1] = r.level;
    t[at + 2] = r.addressed;
    t[at + 3] = r.groups.mask;
    put_four(t, at + 4, r.groups.presets);
    put_four(t, at + 8, r.groups.references);
}

// The bytes of a house beside its records': in this crate they are read here, and written below, and nowhere else.
fn house_at(t: &Table, house: usize) -> House
    requires { house < HOUSES }
    ensures { result ≡ house_at t.now house }
{
    House {
        heard: t[HEARD_AT + house],
        lit: t[LIT_AT + house],
    }
}

fn put_house(t: &mut Table, house: usize, own: House)
    requires { house < HOUSES }
    ensures { t.new ≡ put_house t.old house own }
{
    t[HEARD_AT + house] = own.heard;
    t[LIT_AT + house] = own.lit;
}

// Whether the presets and references of record i keep the rules. The four are tested straight from the bytes and with no early way out.
fn groups_ok(t: &Table, i: usize) -> bool
    requires { i < RECORDS }
    ensures { result ≡ groups_ok GROUPS (record_at t.now i) }
{
    let at = i * RECORD_BYTES;
    let mut ok = true;
    for g in 0..GROUPS {
        ok &= group_valid(
            t[at],
            bit_of(g as u8, t[at + 3]),
            t[at + 4 + g],
            t[at + 8 + g],
        );
    }
    ok
}

// Whether record i of a table keeps the rules. An absent module that is in no group has no preset and no reference by the rules of groups, so
// that these are not looked at again.
fn record_ok(t: &Table, i: usize) -> bool
    requires { i < RECORDS }
    ensures { result ≡ record_ok (record_at t.now i) }
{
    let at = i * RECORD_BYTES;
    let fields = fields_valid(t[at], t[at + 1], t[at + 2], t[at + 3]);
    let bare = (t[at + 1] == 0) & (t[at + 2] == 0) & (t[at + 3] == 0);
    fields & groups_ok(t, i) & (!(t[at] == 0) | bare)
}

// 1 where the module of record i is above level 0, else 0.
fn lit_at(t: &Table, i: usize) -> usize
    requires { i < RECORDS }
    ensures { (result ≡ lit_of (record_at t.now i)) × (result ≤ 1) }
{
    let r = load(t, i);
    count_of(r.level == 0)
}

// Whether each record of a house keeps the rules, by these rules one by one.
fn judge_each(t: &Table, house: usize) -> bool
    requires { house < HOUSES }
    ensures { result ≡ each_ok modules record_ok (house * UNITS) UNITS t.now }
{
    let first = house * UNITS;
    let mut ok = true;
    for n in 0..UNITS {
        ok &= record_ok(t, first + n);
    }
    ok
}

// Whether each record of a house keeps the rules, and whether its byte says how many modules are lit. The records of a house with no module
// are passed over, and where the quick test finds no fault the exact one is not asked.
fn units_ok(t: &Table, house: usize) -> bool
    requires { house < HOUSES }
    ensures { result ≡ units_ok t.now house }
{
    let own = house_at(t, house);
    let from = house * UNITS_BYTES;
    if zeros(&t[from..from + UNITS_BYTES]) {
        return own.lit == 0;
    }
    let quick = quick_each(t, house);
    let counted = own.lit == quick.lit as u8;
    if quick.ok {
        return counted;
    }
    judge_each(t, house) & counted
}

// Whether those of every house do.
fn all_units_ok(t: &Table) -> bool
    ensures { result ≡ all_below HOUSES (units_ok t.now) }
{
    let mut ok = true;
    for house in 0..HOUSES {
        ok &= units_ok(t, house);
    }
    ok
}

// Whether a house's "command heard" byte keeps the rules.
fn heard_ok(t: &Table, house: usize) -> bool
    requires { house < HOUSES }
    ensures { result ≡ heard_ok (house_at t.now house).heard }
{
    heard_valid(house_at(t, house).heard)
}

// Whether that of each house does.
fn all_heard_ok(t: &Table) -> bool
    ensures { result ≡ all_below HOUSES (λ h. heard_ok (house_at t.now h).heard) }
{
    let mut ok = true;
    for h in 0..HOUSES {
        ok &= heard_ok(t, h);
    }
    ok
}

// Whether the bytes are a table that keeps the rules.
pub fn valid(t: &[u8]) -> bool
    ensures { result ≡ table_ok t.now }
{
    match t.as_array() {
        Some(whole) => all_units_ok(whole) & all_heard_ok(whole),
        None => false,
    }
}

// Which records of a house may change: that of one unit, and those whose "addressed" byte is `floor` or more. A unit above 15 is none,
// a floor of 0 is any record, 1 those that are addressed, and 2 none, since that byte is 0 or 1. Numbers: one comparison a record tells it.
#[derive(Clone, Copy)]
struct Reach {
    unit: u8,
    floor: u8,
}

fn reaching(unit: u8, floor: u8) -> Reach
    ensures { result ≡ record { unit = unit; floor = floor } }
{
    Reach { unit, floor }
}

// Which records a function may change.
fn reach_by(f: Function) -> Reach
    ensures { (n : ℕ) (r : Record) → may_change result n r ≡ false → obeyed f r ≡ r }
{
    match f {
        Function::On | Function::Off | Function::Dim | Function::Bright => reaching(255, 1),
        Function::AllLightsOn | Function::AllLightsOff | Function::AllUnitsOff => reaching(255, 0),
        _ => reaching(255, 2),
    }
}

// Which records an act may change, by the house's own bytes.
fn reach_of(act: Act, own: House) -> Reach
    ensures { Spares act own result }
{
    match act {
        Act::Nothing => reaching(255, 2),
        // An address reaches those that are addressed too where the house has heard a command, and else no other.
        Act::Address { unit } => reaching(unit, choose(own.heard == 1, 1, 2)),
        Act::Obey(f) => reach_by(f),
        Act::Join { unit, .. }
        | Act::Level { unit, .. }
        | Act::JoinAt { unit, .. }
        | Act::Leave { unit, .. } => reaching(unit, 2),
        Act::UnitsOn | Act::UnitsOff | Act::LeaveHouse { .. } | Act::Group { .. } => reaching(
            255, 0,
        ),
    }
}

// Steps record i of a table, as that of unit n, where a module is there and the act keeps its groups: two of its bytes are stored.
// Answers 1 where its level changed.
fn step_level(t: &mut Table, i: usize, act: Act, own: House, n: u8) -> usize
    requires { (i < RECORDS) × (present (record_at t.old i) ≡ true) × (keeps_groups act ≡ true) }
    ensures { Stepped modules level_of (step_record act own n) i t.old t.new result }
{
    let before = load(t, i);
    let level = level_after(act, n, before);
    let addressed = addressed_after(act, own, n, before);
    let at = i * RECORD_BYTES;
    t[at + 1] = level;
    t[at + 2] = addressed;
    count_of(before.level == level)
}

// The same where the act may change its groups. No level changes, whatever the house's own bytes.
fn step_groups(t: &mut Table, i: usize, act: Act, n: u8) -> usize
    requires { (i < RECORDS) × (present (record_at t.old i) ≡ true) × (keeps_groups act ≡ false) }
    ensures { (own : House) → Stepped modules level_of (step_record act own n) i t.old t.new result }
{
    let before = load(t, i);
    let groups = groups_after(act, n, before);
    store(t, i, Record { groups, ..before });
    0
}

// Steps record i of a table, as that of unit n, and answers 1 where its level changed. An absent unit stays as it is.
fn step_record(t: &mut Table, i: usize, act: Act, own: House, n: u8) -> usize
    requires { i < RECORDS }
    ensures { Stepped modules level_of (step_record act own n) i t.old t.new result }
{
    if t[i * RECORD_BYTES] == 0 {
        return 0;
    }
    if keeps_groups(act) {
        return step_level(t, i, act, own, n);
    }
    step_groups(t, i, act, n)
}

// The same, and a record that the act does not reach is passed over by a look at one byte.
fn step_at(t: &mut Table, i: usize, act: Act, own: House, n: u8, o: Reach) -> usize
    requires { (i < RECORDS) × Spares act own o }
    ensures { Stepped modules level_of (step_record act own n) i t.old t.new result }
{
    if (o.floor <= t[i * RECORD_BYTES + 2]) | (n == o.unit) {
        step_record(t, i, act, own, n)
    } else {
        0
    }
}

// How many levels of a house changed, and how many of its modules are above level 0 after it.
#[derive(Clone, Copy)]
struct HouseStepped {
    count: usize,
    lit: usize,
}

// Steps the sixteen records of a house.
fn step_house(t: &mut Table, house: usize, act: Act, own: House) -> HouseStepped
    requires { house < HOUSES }
    ensures { (t.new ≡ step_each modules (step_record act own) (house * UNITS) UNITS t.old)
        × (result.count ≡ changed t.old t.new) × (result.lit ≡ lit_in t.new house) × (result.lit ≤ UNITS) }
{
    let first = house * UNITS;
    let o = reach_of(act, own);
    let mut count: usize = 0;
    let mut lit: usize = 0;
    for n in 0..UNITS {
        count += step_at(t, first + n, act, own, n as u8, o);
        lit += lit_at(t, first + n);
    }
    HouseStepped { count, lit }
}

// Runs an act for a house: its sixteen records, and then its own bytes. Answers how many levels changed.
fn run_act(t: &mut Table, house: usize, act: Act) -> usize
    requires { house < HOUSES }
    ensures { (t.new ≡ run_act act house t.old) × (result ≡ changed t.old t.new) }
{
    let own = house_at(t, house);
    let stepped = step_house(t, house, act, own);
    put_house(t, house, house_after(act, own, stepped.lit as u8));
    stepped.count
}

// Runs an act for a house on the bytes of a module table, and answers how many levels changed. Refused where their length is not a table's,
// and where the house is above 15: the bytes are then left as they are.
pub fn run(t: &mut [u8], house: u8, act: Act) -> Result<usize, Refusal>
    ensures answer { result ≡ act_answer act house t.old }
    ensures table { t.new ≡ modules_after act house t.old }
{
    let Some(whole) = t.as_mut_array() else {
        return Err(Refusal::Table);
    };
    if 15 < house {
        return Err(Refusal::Message);
    }
    Ok(run_act(whole, house as usize, act))
}

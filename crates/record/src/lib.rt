// One module's record and a house's own bytes, by value: their fields, the rules of valid ones, and what an act does to them. The
// table's bytes are the crate above; their sizes stand here, once for all, beside specs/Layout.antt.

#![tactic(auto)]

ghost use Rattle.std.specs.Prelude.{◌≡◌};
ghost use Rattle.record.specs.ModuleTable.{level_ok, fields_ok, preset_ok, reference_ok, group_ok, heard_ok};

use plan::ABSOLUTE;

pub mod step;

// The groups of a house.
pub const GROUPS: usize = 4;

// The bytes of a record.
pub const RECORD_BYTES: usize = 12;

// The units of a house.
pub const UNITS: usize = 16;

// The houses.
pub const HOUSES: usize = 16;

// The records of all houses.
pub const RECORDS: usize = HOUSES * UNITS;

// Where the "command heard" bytes begin.
pub const HEARD_AT: usize = RECORDS * RECORD_BYTES;

// Where the bytes begin that say how many modules of a house are lit.
pub const LIT_AT: usize = HEARD_AT + HOUSES;

// The bytes of a house beside its records'.
pub const HOUSE_BYTES: usize = 2;

// The bytes of a table.
pub const TABLE_BYTES: usize = HEARD_AT + HOUSES * HOUSE_BYTES;

// What a module is in the four groups: bit g of the mask is set for a member of group g; its preset there, and its reference 0 to 15, or 16
// for an absolute member.
#[derive(Clone, Copy)]
pub struct Groups {
    pub mask: u8,
    pub presets: [u8; GROUPS],
    pub references: [u8; GROUPS],
}

// What a module is in one of them. A flag with values beside it: of one that is no member they are bytes too, which `module_table::run` leaves as they are.
#[derive(Clone, Copy)]
pub struct Membership {
    pub member: bool,
    pub preset: u8,
    pub reference: u8,
}

// A module: kind 0 none, 1 lamp, 2 appliance. Its bytes and no enums, here and in a house: `module_table::run` takes tables that break a rule, and its clause
// `table` says what becomes of any byte.
#[derive(Clone, Copy)]
pub struct Record {
    pub kind: u8,
    pub level: u8,
    pub addressed: u8,
    pub groups: Groups,
}

// The bytes of a house beside its records': 1 where it has heard a command since an address, else 0; and how many of its modules are
// above level 0.
#[derive(Clone, Copy)]
pub struct House {
    pub heard: u8,
    pub lit: u8,
}

// Whether a module of the kind can have the level or preset.
fn level_ok(kind: u8, x: u8) -> bool
    ensures { result ≡ level_ok kind x }
{
    (x <= 63) & (!(kind == 2) | (x == 0) | (x == 63))
}

// Whether a module of the kind can have the preset, as a member of the group or not.
fn preset_ok(kind: u8, joined: bool, x: u8) -> bool
    ensures { result ≡ preset_ok kind joined x }
{
    level_ok(kind, x) & (joined | (x == 0))
}

// Whether a member of a group, or a module that is none, can have the reference.
fn reference_ok(joined: bool, x: u8) -> bool
    ensures { result ≡ reference_ok joined x }
{
    (x <= ABSOLUTE) & (joined | (x == 0))
}

// Whether a module of the kind can have the preset and the reference in a group, as a member or not.
pub fn group_valid(kind: u8, joined: bool, preset: u8, reference: u8) -> bool
    ensures { result ≡ group_ok kind joined preset reference }
{
    preset_ok(kind, joined, preset) & reference_ok(joined, reference)
}

// Whether a record's fields beside its presets and references are in their ranges. That an absent module is all zeros is not asked here.
pub fn fields_valid(kind: u8, level: u8, addressed: u8, mask: u8) -> bool
    ensures { result ≡ fields_ok kind level addressed mask }
{
    (kind <= 2) & level_ok(kind, level) & (addressed <= 1) & (mask <= 15)
}

// Whether a "command heard" byte keeps the rules.
pub fn heard_valid(heard: u8) -> bool
    ensures { result ≡ heard_ok heard }
{
    heard <= 1
}

// A quick test of the records of a house: twelve bytes are three numbers, and a rule is tested of four bytes at once. With no branch, and
// with numbers of 32 bits only, the records are tested side by side. A yes is proved to be right; after a no the rules are asked one by one.
ghost use Rattle.std.specs.Prelude.{◌≡◌, true, ◌+◌, ◌*◌, ◌≤◌, ◌<◌, length, get_or};
ghost use Rattle.ground.specs.Records.{each_ok};
ghost use Rattle.record.specs.declared.Record.{Record};
ghost use Rattle.record.specs.Layout.{HOUSES, UNITS, TABLE_BYTES, modules};
ghost use Rattle.record.specs.ModuleTable.{record_ok, lit_in};
ghost use Rattle.module_table.specs.Quick.{WordOf, InWords};

use crate::Table;
use ground::choose;
use record::{RECORD_BYTES, UNITS};

// Four bytes of 1.
const ONES: u32 = 0x01010101;

// The number of four bytes, the first lowest. In this shape, and over a part of four bytes, they are read at once.
fn word_of(s: &[u8]) -> u32
    requires { length s.now ≡ 4 }
    ensures { WordOf result (get_or s.now 0 0) (get_or s.now 1 0) (get_or s.now 2 0) (get_or s.now 3 0) }
{
    s[0] as u32 | (s[1] as u32) << 8 | (s[2] as u32) << 16 | (s[3] as u32) << 24
}

// The number of the four bytes from a place on.
fn word_at(t: &Table, at: usize) -> u32
    requires { at + 4 ≤ TABLE_BYTES }
    ensures { WordOf result (get_or t.now at 0) (get_or t.now (at + 1) 0) (get_or t.now (at + 2) 0)
        (get_or t.now (at + 3) 0) }
{
    word_of(&t[at..at + 4])
}

// Bits that are set where a record, given as three numbers, breaks a rule; 0 only for one that keeps them. In turn: bits that no field may
// have, kind 3, an absent module whose first four bytes are not 0 (the others are 0 then by its mask), a preset and a reference that their
// group may not have, an appliance's level and presets that are not all or nothing, and a reference of 17 to 31.
fn faults(fields: u32, presets: u32, references: u32) -> u32
    ensures { (r : Record) → InWords r fields presets references → result ≡ 0 → record_ok r ≡ true }
{
    let kind = fields % 256;
    let level = fields / 256 % 256;
    let appliance = kind / 2 % 2;
    // The mask's bit for a group becomes the lowest bit of that group's byte.
    let members = (fields / 0x01000000 * 0x00204081) & ONES;
    (fields & 0xF0FEC0FC)
        | (kind & (kind / 2))
        | choose(kind == 0, fields, 0)
        | (presets & (0xFFFFFFFF - members * 63))
        | (references & (0xFFFFFFFF - members * 31))
        | ((level ^ (level % 2 * 63)) & (appliance * 63))
        | ((presets ^ ((presets & ONES) * 63)) & (appliance * 0x3F3F3F3F))
        | (((references & 0x1F1F1F1F) + 0x0F0F0F0F) & 0x20202020)
}

// Whether the quick test finds no fault, and how many modules are above level 0.
#[derive(Clone, Copy)]
pub(crate) struct Quick {
    pub(crate) ok: bool,
    pub(crate) lit: u32,
}

// Tests each record of a house.
pub(crate) fn quick_each(t: &Table, house: usize) -> Quick
    requires { house < HOUSES }
    ensures { (result.ok ≡ true → each_ok modules record_ok (house * UNITS) UNITS t.now ≡ true) × (result.lit ≡ lit_in t.now house)
        × (result.lit ≤ UNITS) }
{
    let first = house * UNITS;
    let mut bad: u32 = 0;
    let mut lit: u32 = 0;
    for n in 0..UNITS {
        let at = (first + n) * RECORD_BYTES;
        let fields = word_at(t, at);
        bad |= faults(fields, word_at(t, at + 4), word_at(t, at + 8));
        lit += choose(fields / 256 % 256 == 0, 0, 1);
    }
    Quick { ok: bad == 0, lit }
}

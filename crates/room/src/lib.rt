// A room: its lent module table and shutter table, judged once, and a message applied to them.

#![tactic(auto)]

ghost use Rattle.std.specs.Prelude.{◌≡◌, true};
ghost use Rattle.room.specs.Rooms.{room_of, room_ok, room_after, apply_answer, apply_report, room_report, tallied};
ghost use Rattle.room.specs.Lent.{room_verdict, levels_answer, openings_answer};

use ground::Refusal;
use message::Message;
use plan::{Plan, house_of, plan_for};
use record::TABLE_BYTES;
use shutter_table::SHUTTER_TABLE_BYTES;

pub mod mains;
pub mod routes;

// What has changed in a room.
#[derive(Clone, Copy)]
pub struct Changes {
    // How many modules have another level than before.
    pub levels: usize,
    // How many shutters have another opening than before.
    pub openings: usize,
}

// The counts of an answer as one count, which the exported routines pack: sixteen bits each.
pub fn tally(a: Result<Changes, Refusal>) -> Result<usize, Refusal>
    ensures { result ≡ tallied a }
{
    let c = a?;
    Ok(c.levels % 65536 + c.openings % 65536 * 65536)
}

// Judges both tables, for a route: why they cannot be used, if they cannot.
pub(crate) fn judge(table: &[u8], shutters: &[u8]) -> Result<(), Refusal>
    ensures { result ≡ room_verdict (room_of table.now shutters.now) }
{
    if table.len() != TABLE_BYTES {
        return Err(Refusal::Table);
    }
    if shutters.len() != SHUTTER_TABLE_BYTES {
        return Err(Refusal::ShutterTable);
    }
    if !module_table::valid(table) {
        return Err(Refusal::Record);
    }
    if !shutter_table::valid(shutters) {
        return Err(Refusal::ShutterRecord);
    }
    Ok(())
}

// What the module table answers, as the room's answer: no opening has changed.
fn of_levels(a: Result<usize, Refusal>) -> Result<Changes, Refusal>
    ensures { result ≡ levels_answer a }
{
    let levels = a?;
    Ok(Changes {
        levels,
        openings: 0,
    })
}

// What the shutter table answers, as the room's answer: no level has changed.
fn of_openings(a: Result<usize, Refusal>) -> Result<Changes, Refusal>
    ensures { result ≡ openings_answer a }
{
    let openings = a?;
    Ok(Changes {
        levels: 0,
        openings,
    })
}

// As `apply`, on tables that the caller has judged, so that a route of several messages judges them once.
pub(crate) fn apply_valid(
    table: &mut [u8],
    shutters: &mut [u8],
    m: Message,
) -> Result<Changes, Refusal>
    requires { room_ok (room_of table.old shutters.old) ≡ true }
    ensures answer { result ≡ apply_answer m (room_of table.old shutters.old) }
    ensures room { room_of table.new shutters.new ≡ room_after m (room_of table.old shutters.old) }
{
    let plan = plan_for(m)?;
    match plan {
        Plan::Run(act) => of_levels(module_table::run(table, house_of(m), act)),
        Plan::Move(motion) => of_openings(shutter_table::run(shutters, house_of(m), motion)),
    }
}

// Applies a message to a module table and a shutter table, and answers how many modules have another level and how many shutters another opening than
// before. Where it is refused, both are left as they are.
// Refused, in this order: 1, 16, 2, 3, 17, 4, 18.
pub fn apply(table: &mut [u8], shutters: &mut [u8], m: Message) -> Result<Changes, Refusal>
    ensures answer { result ≡ apply_answer m (room_of table.old shutters.old) }
    ensures report { room_report result ≡ apply_report m (room_of table.old shutters.old) }
    ensures room { room_of table.new shutters.new ≡ room_after m (room_of table.old shutters.old) }
{
    if table.len() != TABLE_BYTES {
        return Err(Refusal::Table);
    }
    if shutters.len() != SHUTTER_TABLE_BYTES {
        return Err(Refusal::ShutterTable);
    }
    if !message::valid(m) {
        return Err(Refusal::Message);
    }
    if !module_table::valid(table) {
        return Err(Refusal::Record);
    }
    if !shutter_table::valid(shutters) {
        return Err(Refusal::ShutterRecord);
    }
    apply_valid(table, shutters, m)
}

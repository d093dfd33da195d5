// What the commands of type 0 ask of the shutters, by unit, data byte and command byte.
ghost use Rattle.std.specs.Prelude.{◌≡◌};
ghost use Rattle.plan.specs.Motions.{motion_plan, brought_by};

use crate::{Motion, Plan};
use ground::Refusal;

// What a command asks, with the opening and the lifestyle that the data holds; a command that asks nothing of shutters is not carried.
pub(crate) fn motion_plan(unit: u8, data: u8, command: u8) -> Result<Plan, Refusal>
    ensures { result ≡ motion_plan unit «data» command }
{
    let opening = data % 32;
    let lifestyle = data / 32;
    match command {
        0x01 => Ok(Plan::Move(Motion::OpenProtected { unit, opening })),
        0x02 => Ok(Plan::Move(Motion::Limit {
            unit,
            limit: opening,
        })),
        0x03 => Ok(Plan::Move(Motion::OpenUnprotected { unit, opening })),
        0x04 => Ok(Plan::Move(Motion::OpenHouse)),
        0x05 => Ok(Plan::Move(Motion::OpenAll)),
        0x07 => Ok(Plan::Move(Motion::Include {
            unit,
            lifestyle,
            opening,
        })),
        0x08 => Ok(Plan::Move(Motion::Begin { lifestyle })),
        0x09 => Ok(Plan::Move(Motion::Exclude { unit, lifestyle })),
        0x0A => Ok(Plan::Move(Motion::ExcludeAll)),
        0x0B => Ok(Plan::Move(Motion::CloseHouse)),
        0x0C => Ok(Plan::Move(Motion::CloseAll)),
        _ => if (command == 0x0E) | (command == 0x0F) {
            Ok(Plan::Move(Motion::SelfTest))
        } else {
            Err(Refusal::NotCarried)
        },
    }
}

// The opening that a motion brings, and 0 where it brings none: no `Option`, since the definition `brought_by` says so.
pub(crate) fn brought_by(motion: Motion) -> u8
    ensures { result ≡ brought_by motion }
{
    match motion {
        Motion::OpenProtected { opening, .. }
        | Motion::OpenUnprotected { opening, .. }
        | Motion::Include { opening, .. } => opening,
        Motion::Limit { limit, .. } => limit,
        _ => 0,
    }
}

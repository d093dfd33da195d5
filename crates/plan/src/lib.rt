// What a message asks of the modules of its house or of the shutters, with the parts that its data byte holds. No table is looked at.

#![tactic(auto)]

ghost use Rattle.std.specs.Prelude.{◌≡◌, Ok};
ghost use Rattle.ground.specs.Refusals.{judged, refuses};
ghost use Rattle.plan.specs.Motions.{motion_fits};
ghost use Rattle.plan.specs.Plans.{bit, house_of, plan_of, carried, fits, plan_causes, plan_answer, plan_report};

use ground::Refusal;
use message::{Function, Message};

mod extended;
mod motions;

// The opening of a shutter that is fully open.
pub const OPEN: u8 = 25;

// The reference of a membership, or of a group command, that is absolute: those that are relative have one of 0 to 15. A number, as the table's byte has it.
pub const ABSOLUTE: u8 = 16;

// What is asked of the members of a group.
#[derive(Clone, Copy)]
pub enum GroupAct {
    // They go to their presets.
    Execute,
    // They go to 0.
    PutOff,
    // Those that are lamps step as dim.
    StepDim,
    // Those that are lamps step as bright.
    StepBright,
}

// What is asked of the sixteen modules of a house. A unit is a number 0 to 15, a group 0 to 3, a level 0 to 63 and a reference 0 to 15, or
// 16 for absolute; bit g of `groups` is set for group g.
#[derive(Clone, Copy)]
pub enum Act {
    // Heard, and no module changes.
    Nothing,
    // The unit is addressed; where the house has heard a command, every other unit is unaddressed.
    Address {
        unit: u8,
    },
    // Those that the function reaches carry it out.
    Obey(Function),
    // The unit joins the group at its current level, with the reference.
    Join {
        unit: u8,
        group: u8,
        reference: u8,
    },
    // The unit goes to the level.
    Level {
        unit: u8,
        level: u8,
    },
    // The unit joins the group with the level as its preset. It is then an absolute member.
    JoinAt {
        unit: u8,
        group: u8,
        level: u8,
    },
    // All units go to 63.
    UnitsOn,
    // All units go to 0.
    UnitsOff,
    // The unit leaves the groups.
    Leave {
        unit: u8,
        groups: u8,
    },
    // All units leave the groups.
    LeaveHouse {
        groups: u8,
    },
    // The members of the group that a command with the reference reaches do what is asked of them.
    Group {
        group: u8,
        reference: u8,
        ask: GroupAct,
    },
}

// What is asked of the shutters. A unit is a number 0 to 15, an opening or limit 0 (closed) to 25 (open), a lifestyle 0 to 7; data can bring an opening up to
// 31, which `motion_fits` tells.
#[derive(Clone, Copy)]
pub enum Motion {
    // Heard, and no shutter changes.
    SelfTest,
    // The unit opens to the opening, and its sun protection is enabled.
    OpenProtected {
        unit: u8,
        opening: u8,
    },
    // The unit's limit is set, and its sun protection is enabled.
    Limit {
        unit: u8,
        limit: u8,
    },
    // The unit opens to the opening, and its sun protection is disabled.
    OpenUnprotected {
        unit: u8,
        opening: u8,
    },
    // All shutters of the house open fully, sun protection disabled.
    OpenHouse,
    // All shutters of every house open fully, sun protection disabled.
    OpenAll,
    // The unit is included in the lifestyle at the opening.
    Include {
        unit: u8,
        lifestyle: u8,
        opening: u8,
    },
    // In every house those included in the lifestyle go to their openings for it.
    Begin {
        lifestyle: u8,
    },
    // The unit is excluded from the lifestyle.
    Exclude {
        unit: u8,
        lifestyle: u8,
    },
    // In every house all are excluded from all lifestyles.
    ExcludeAll,
    // All shutters of the house close, sun protection enabled.
    CloseHouse,
    // All shutters of every house close, sun protection enabled.
    CloseAll,
}

// What becomes of a message: an act is run on modules, a motion on shutters.
#[derive(Clone, Copy)]
pub enum Plan {
    Run(Act),
    Move(Motion),
}

// Whether bit k of a byte is set. A byte has no bit above 7.
pub fn bit_of(k: u8, x: u8) -> bool
    ensures { result ≡ bit k x }
{
    if k < 8 { (x >> k) % 2 == 1 } else { false }
}

// The house that a message is for.
pub fn house_of(m: Message) -> u8
    ensures { result ≡ house_of m }
{
    match m {
        Message::Address { house, .. }
        | Message::Function { house, .. }
        | Message::Extended { house, .. } => house,
    }
}

// What a message asks. Its house and unit are not judged.
fn asked(m: Message) -> Result<Plan, Refusal>
    ensures { result ≡ plan_of m }
{
    match m {
        Message::Address { unit, .. } => Ok(Plan::Run(Act::Address { unit })),
        Message::Function { function, .. } => Ok(Plan::Run(Act::Obey(function))),
        Message::Extended {
            unit,
            data,
            command,
            ..
        } => {
            if command / 16 == 0 {
                motions::motion_plan(unit, data, command)
            } else {
                extended::extended_plan(unit, data, command)
            }
        }
    }
}

// Whether the opening or limit that a motion brings, if it brings one, is one that there is.
pub fn motion_fits(motion: Motion) -> bool
    ensures { result ≡ motion_fits motion }
{
    motions::brought_by(motion) <= OPEN
}

// Whether the opening that a plan brings, if it brings one, is one that there is.
fn fits(p: Plan) -> bool
    ensures { result ≡ fits (Ok p) }
{
    match p {
        Plan::Run(_) => true,
        Plan::Move(motion) => motion_fits(motion),
    }
}

// Whether a message asks for an act or a motion. Its house and unit are not judged.
pub fn carried(m: Message) -> bool
    ensures { result ≡ carried m }
{
    asked(m).is_ok()
}

// What a message asks for: refused where its house or unit is above 15, where it is not carried, and where its opening is above 25.
pub fn plan_for(m: Message) -> Result<Plan, Refusal>
    ensures answer { result ≡ plan_answer m }
    ensures report { plan_report result ≡ judged (plan_causes m) (plan_report (plan_of m)) refuses }
{
    if !message::valid(m) {
        return Err(Refusal::Message);
    }
    let plan = asked(m)?;
    if !fits(plan) {
        return Err(Refusal::Opening);
    }
    Ok(plan)
}

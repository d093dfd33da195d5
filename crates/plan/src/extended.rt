// What the extended commands ask, by unit, data byte and command byte.
ghost use Rattle.std.specs.Prelude.{◌≡◌};
ghost use Rattle.plan.specs.Plans.{reference_in, leave_plan, group_plan, execute_plan, step_plan, status_plan, extended_plan};

use crate::{ABSOLUTE, Act, GroupAct, Plan, bit_of};
use ground::Refusal;

// The reference that the data names: bit 5 makes the group relative to the low four bits.
fn reference_in(data: u8) -> u8
    ensures { result ≡ reference_in «data» }
{
    if bit_of(5, data) { data % 16 } else { ABSOLUTE }
}

fn leave_plan(unit: u8, data: u8) -> Result<Plan, Refusal>
    ensures { result ≡ leave_plan unit «data» }
{
    match data / 16 {
        0 => Ok(Plan::Run(Act::Leave {
            unit,
            groups: data % 16,
        })),
        15 => Ok(Plan::Run(Act::LeaveHouse { groups: data % 16 })),
        _ => Err(Refusal::NotCarried),
    }
}

// What is asked of the members of the data's group, by the data's reference.
fn group_plan(data: u8, ask: GroupAct) -> Result<Plan, Refusal>
    ensures { result ≡ group_plan «data» ask }
{
    Ok(Plan::Run(Act::Group {
        group: data / 64,
        reference: reference_in(data),
        ask,
    }))
}

fn execute_plan(data: u8) -> Result<Plan, Refusal>
    ensures { result ≡ execute_plan «data» }
{
    if bit_of(4, data) {
        group_plan(data, GroupAct::PutOff)
    } else {
        group_plan(data, GroupAct::Execute)
    }
}

fn step_plan(data: u8) -> Result<Plan, Refusal>
    ensures { result ≡ step_plan «data» }
{
    if bit_of(4, data) {
        group_plan(data, GroupAct::StepBright)
    } else {
        group_plan(data, GroupAct::StepDim)
    }
}

fn status_plan(data: u8) -> Result<Plan, Refusal>
    ensures { result ≡ status_plan «data» }
{
    if !bit_of(5, data) | bit_of(4, data) | (data % 16 == 0) {
        Ok(Plan::Run(Act::Nothing))
    } else {
        Err(Refusal::NotCarried)
    }
}

pub(crate) fn extended_plan(unit: u8, data: u8, command: u8) -> Result<Plan, Refusal>
    ensures { result ≡ extended_plan unit «data» command }
{
    match command {
        0x30 => Ok(Plan::Run(Act::Join {
            unit,
            group: data / 64,
            reference: reference_in(data),
        })),
        0x31 => Ok(Plan::Run(Act::Level {
            unit,
            level: data % 64,
        })),
        0x32 => Ok(Plan::Run(Act::JoinAt {
            unit,
            group: data / 64,
            level: data % 64,
        })),
        0x33 => Ok(Plan::Run(Act::UnitsOn)),
        0x34 => Ok(Plan::Run(Act::UnitsOff)),
        0x35 => leave_plan(unit, data),
        0x36 => execute_plan(data),
        0x3C => step_plan(data),
        0x37 => status_plan(data),
        _ => if (0x38 <= command) & (command <= 0x3B) {
            Ok(Plan::Run(Act::Nothing))
        } else {
            Err(Refusal::NotCarried)
        },
    }
}

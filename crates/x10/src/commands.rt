// A radio command as numbers and bytes.
ghost use Rattle.std.specs.Prelude.{◌≡◌};
ghost use Rattle.x10.specs.Commands.{command_from, three_listed, command_bytes};

use radio::RadioCommand;

// The three numbers of a radio command: 0 on, 1 off, 2 bright, 3 dim; its house; its unit, 0 where it has none. Numbers, as C hands them in.
#[derive(Clone, Copy)]
pub struct Three {
    pub command: u8,
    pub house: u8,
    pub unit: u8,
}

// The radio command that three numbers say. Where they make none, one of house 16, which the writer refuses by 2 in its own order.
pub(crate) fn command_from(command: u8, house: u8, unit: u8) -> RadioCommand
    ensures { result ≡ command_from command house unit }
{
    match command {
        0 => RadioCommand::On { house, unit },
        1 => RadioCommand::Off { house, unit },
        2 => RadioCommand::Bright { house },
        3 => RadioCommand::Dim { house },
        _ => RadioCommand::Bright { house: 16 },
    }
}

// The three numbers of a radio command.
pub(crate) fn three_of(command: RadioCommand) -> Three
    ensures { three_listed result ≡ command_bytes command }
{
    match command {
        RadioCommand::On { house, unit } => Three {
            command: 0,
            house,
            unit,
        },
        RadioCommand::Off { house, unit } => Three {
            command: 1,
            house,
            unit,
        },
        RadioCommand::Bright { house } => Three {
            command: 2,
            house,
            unit: 0,
        },
        RadioCommand::Dim { house } => Three {
            command: 3,
            house,
            unit: 0,
        },
    }
}

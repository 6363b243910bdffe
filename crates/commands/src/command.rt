// The commands of a command file.
ghost use Rattle.std.specs.Prelude.{◌≡◌, ◌++◌, is_ok, if◌then◌else◌, Some};
ghost use Rattle.commands.specs.Commands.{encoded, Redecoded};
ghost use Rattle.commands.specs.Words.{said};

use crate::bank::BankKind;
use policy::entry::PolicyNumber;
use std::alloc::AllocError;
use std::fmt;

// The first byte of each command, named as the patterns of `decode` match it.
pub const MAKE: u8 = 0x01;

pub const WRITE: u8 = 0x02;

pub const READ: u8 = 0x03;

pub const STEP: u8 = 0x04;

pub const DOWN: u8 = 0x05;

pub const UP: u8 = 0x06;

pub const LIST: u8 = 0x07;

// One command with its operands. The bank kind of a make is kept as its byte: an unknown one is refused later.
#[derive(Clone, Copy, PartialEq, Eq, Debug)]
pub enum Command {
    Make {
        bank: u8,
        stations: u8,
        count: u32,
        value: PolicyNumber,
    },
    Write {
        station: u8,
        value: PolicyNumber,
    },
    Read {
        station: u8,
    },
    Step {
        station: u8,
    },
    Down {
        writer: u8,
        reader: u8,
    },
    Up {
        writer: u8,
        reader: u8,
    },
    List,
}

impl Command {
    // Appends the command's bytes; for want of memory nothing is appended.
    #[tactic(auto, using(crate::proofs::RoundTrips::make_redecoded))]
    pub fn encode(&self, out: &mut Vec<u8>) -> Result<(), AllocError>
        ensures value { out.new.items ≡ (if is_ok result then out.old.items ++ encoded self.now else out.old.items) }
        ensures redecoded { Redecoded self.now }
    {
        // Each arm appends once, so that a command is appended whole or not at all.
        match self {
            Command::Make {
                bank,
                stations,
                count,
                value: PolicyNumber(number),
            } => {
                let [c3, c2, c1, c0] = count.to_be_bytes();
                let [v3, v2, v1, v0] = number.to_be_bytes();
                out.extend_from_slice(&[MAKE, *bank, *stations, c3, c2, c1, c0, v3, v2, v1, v0])
            }
            Command::Write {
                station,
                value: PolicyNumber(number),
            } => {
                let [v3, v2, v1, v0] = number.to_be_bytes();
                out.extend_from_slice(&[WRITE, *station, v3, v2, v1, v0])
            }
            Command::Read { station } => out.extend_from_slice(&[READ, *station]),
            Command::Step { station } => out.extend_from_slice(&[STEP, *station]),
            Command::Down { writer, reader } => out.extend_from_slice(&[DOWN, *writer, *reader]),
            Command::Up { writer, reader } => out.extend_from_slice(&[UP, *writer, *reader]),
            Command::List => out.extend_from_slice(&[LIST]),
        }
    }
}

// Printed in words, with no line's end. The bank kind of a make is printed by name, or by its byte where no bank has that kind.
impl fmt::Display for Command {
    ghost output = { λ x. Some (said x) };

    fn fmt<W: fmt::Write>(&self, f: &mut fmt::Formatter<W>) -> fmt::Result {
        match self {
            Command::Make {
                bank,
                stations,
                count,
                value,
            } => {
                match BankKind::try_from(*bank) {
                    Ok(kind) => write!(f, "make {kind}")?,
                    Err(_) => write!(f, "make bank {bank}")?,
                }
                write!(f, " stations {stations} count {count} value {value}")
            }
            Command::Write { station, value } => write!(f, "write station {station} value {value}"),
            Command::Read { station } => write!(f, "read station {station}"),
            Command::Step { station } => write!(f, "step station {station}"),
            Command::Down { writer, reader } => write!(f, "down writer {writer} reader {reader}"),
            Command::Up { writer, reader } => write!(f, "up writer {writer} reader {reader}"),
            Command::List => write!(f, "list"),
        }
    }
}

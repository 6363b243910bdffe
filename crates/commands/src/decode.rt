// From bytes to commands.
ghost use Rattle.std.specs.Prelude.{◌≡◌};
ghost use Rattle.commands.specs.Commands.{decoded, seen, Reencoded};

use crate::command::{Command, DOWN, LIST, MAKE, READ, STEP, UP, WRITE};
use policy::entry::PolicyNumber;
use policy::refusal::Refusal;

// The first command of the input and what stands behind it; `None` at the end of the input.
#[tactic(auto, using(crate::proofs::RoundTrips::reencoded_typed, std::proofs::lemmas::Bool::Decides::nat_tests))]
pub fn decode(input: &[u8]) -> Result<Option<(Command, &[u8])>, Refusal>
    ensures value { seen result ≡ decoded input.now }
    ensures reencoded { Reencoded input.now }
{
    match input {
        [] => Ok(None),
        &[MAKE, bank, n, c3, c2, c1, c0, v3, v2, v1, v0, ref rest @ ..] => {
            let count = u32::from_be_bytes([c3, c2, c1, c0]);
            let value = PolicyNumber(u32::from_be_bytes([v3, v2, v1, v0]));
            let command = Command::Make {
                bank,
                stations: n,
                count,
                value,
            };
            Ok(Some((command, rest)))
        }
        &[WRITE, station, v3, v2, v1, v0, ref rest @ ..] => {
            let value = PolicyNumber(u32::from_be_bytes([v3, v2, v1, v0]));
            Ok(Some((Command::Write { station, value }, rest)))
        }
        &[READ, station, ref rest @ ..] => Ok(Some((Command::Read { station }, rest))),
        &[STEP, station, ref rest @ ..] => Ok(Some((Command::Step { station }, rest))),
        &[DOWN, writer, reader, ref rest @ ..] => {
            Ok(Some((Command::Down { writer, reader }, rest)))
        }
        &[UP, writer, reader, ref rest @ ..] => Ok(Some((Command::Up { writer, reader }, rest))),
        [LIST, rest @ ..] => Ok(Some((Command::List, rest))),
        [MAKE..=LIST, ..] => Err(Refusal::CutShort),
        _ => Err(Refusal::UnknownByte),
    }
}

#[cfg(test)]
mod tests {
    use super::*;
    use std::process::Abort;
    use std::test::Fail;

    // One file with each command once.
    const FILE: [u8; 29] =
        *b"\x01\x00\x10\x00\x01\x02\x03\x04\x05\x06\x07\x02\x03\xff\xfe\xfd\xfc\x03\x10\x04\x01\x05\x01\x02\x06\x02\x01\x07\x09";

    #[test]
    fn each_command_is_encoded_as_it_was_read(rt: HostRuntime) -> Result<(), Fail> {
        let mut again = Vec::new(rt.alloc());
        let mut rest: &[u8] = &FILE;
        for _ in 0..7 {
            let (command, behind) = decode(rest)?.ok_or("a command of the file is missing")?;
            command.encode(&mut again)?;
            rest = behind;
        }
        assert_eq!(rt; again.as_slice(), &FILE[0..28]);
        assert_eq!(rt; rest, &FILE[28..29]);
        Ok(())
    }

    #[test]
    fn each_cut_is_refused(rt: HostRuntime) -> Result<(), Fail> {
        all_cuts(&rt, &FILE[0..11])?;
        all_cuts(&rt, &FILE[11..17])?;
        all_cuts(&rt, &FILE[17..19])?;
        all_cuts(&rt, &FILE[19..21])?;
        all_cuts(&rt, &FILE[21..24])?;
        all_cuts(&rt, &FILE[24..27])
    }

    // Each part of the command that lacks an operand byte is refused, and the whole is not.
    fn all_cuts(rt: &impl Abort, command: &[u8]) -> Result<(), Fail> {
        assert!(rt; decode(command).is_ok());
        for cut in 1..command.len() {
            let refusal = decode(&command[0..cut])
                .err()
                .ok_or("a command cut short is accepted")?;
            assert_eq!(rt; refusal.number(), 10);
        }
        Ok(())
    }

    #[test]
    fn each_unknown_byte_is_refused(rt: HostRuntime) {
        for byte in 8..=255u8 {
            assert!(rt; is_unknown(&[byte]));
            assert!(rt; is_unknown(&[byte, 1, 1, 1, 1, 1, 1, 1, 1, 1, 1]));
        }
        assert!(rt; is_unknown(&[0, 7]));
    }

    fn is_unknown(input: &[u8]) -> bool {
        decode(input).is_err_and(|refusal| refusal.number() == 9)
    }

    #[test]
    fn no_input_is_the_end(rt: HostRuntime) {
        assert!(rt; matches!(decode(&[]), Ok(None)));
    }
}

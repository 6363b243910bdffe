// The commands of a file, one after another.
ghost use Rattle.std.specs.Prelude.{◌≡◌, ◌<◌, ⊤, IfSome, length};
ghost use Rattle.std.specs.Iterator.{MakesProgress, YieldsFirst, item_count};
ghost use Rattle.commands.specs.Files.{bytes_left, outcomes, unread};

use crate::command::Command;
use crate::decode::decode;
use policy::refusal::Refusal;

// Gives the commands of a file in order, and behind them the refusal at which reading stops, if any.
#[derive(Clone, Copy)]
pub struct Commands<'a> {
    rest: &'a [u8],
}

impl<'a> Commands<'a> {
    // The commands of a file with these bytes.
    pub fn new(input: &'a [u8]) -> Self
        ensures text { unread result ≡ outcomes input.now }
        ensures bytes { bytes_left result ≡ length input.now }
    {
        Commands { rest: input }
    }
}

// Behind a refusal there is nothing.
#[tactic(auto, using(crate::proofs::Outcomes::outcomes_end, crate::proofs::Outcomes::outcomes_more, crate::proofs::Outcomes::outcomes_stop))]
impl Iterator for Commands<'_> {
    type Item = Result<Command, Refusal>;

    ghost next_gives = { YieldsFirst unread };

    ghost remaining = { item_count unread };

    fn next(&mut self) -> Option<Result<Command, Refusal>>
        ensures steps { YieldsFirst unread self.old result self.new }
        ensures goes { MakesProgress (λ _. ⊤) (item_count unread) self.old result self.new }
        ensures shorter { IfSome result (λ r. bytes_left self.new < bytes_left self.old) }
    {
        match decode(self.rest) {
            Ok(None) => None,
            Ok(Some((command, rest))) => {
                self.rest = rest;
                Some(Ok(command))
            }
            Err(refusal) => {
                self.rest = &[];
                Some(Err(refusal))
            }
        }
    }
}

#[cfg(test)]
mod tests {
    use super::*;

    #[test]
    fn a_refusal_is_the_last_item(rt: HostRuntime) {
        let mut commands = Commands::new(&[7, 3, 2, 8, 7]);
        assert_eq!(rt; commands.next(), Some(Ok(Command::List)));
        assert_eq!(rt; commands.next(), Some(Ok(Command::Read { station: 2 })));
        assert_eq!(rt; commands.next(), Some(Err(Refusal::UnknownByte)));
        assert_eq!(rt; commands.next(), None);
    }
}

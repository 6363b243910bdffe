// The text of a command file: one line for each command, and one for the refusal at which reading stops.
ghost use Rattle.std.specs.Prelude.{◌≡◌, IfOk};
ghost use Rattle.std.specs.String.{string_bytes};
ghost use Rattle.explain.specs.Texts.{explained, LineEach, Tells};

use commands::file::Commands;
use itoa::Buffer;
use std::alloc::{AllocError, Global};

// The file in words.
#[tactic(auto, using(crate::proofs::Lines::few_lines, crate::proofs::Lines::whole_text, crate::proofs::TextLaws::line_each, crate::proofs::TextLaws::tells))]
pub fn explain(heap: Global, input: &[u8]) -> Result<String, AllocError>
    ensures text { IfOk result (λ t. string_bytes t ≡ explained input.now) }
    ensures lines { LineEach input.now }
    ensures tells { Tells input.now }
{
    let mut out = String::new(heap);
    for (number, outcome) in (1u64..).zip(Commands::new(input)) {
        // Pushed, since as a piece of the `writeln!` it makes a short line take a quarter more instructions.
        out.push_str(Buffer::new().format(number))?;
        match outcome {
            Ok(command) => writeln!(out, " {command}")?,
            Err(refusal) => writeln!(out, " no {}", refusal.number())?,
        }
    }
    Ok(out)
}

#[cfg(test)]
mod tests {
    use super::*;
    use std::test::Fail;

    #[test]
    fn a_cut_file_ends_with_its_refusal(rt: HostRuntime) -> Result<(), Fail> {
        let text = explain(rt.alloc(), &[5, 1, 2, 2, 3, 0, 0, 0])?;
        assert_eq!(rt;
            text.as_bytes(),
            b"1 down writer 1 reader 2\n2 no 10\n".as_slice()
        );
        Ok(())
    }

    #[test]
    fn an_unknown_byte_ends_the_text(rt: HostRuntime) -> Result<(), Fail> {
        let text = explain(rt.alloc(), &[7, 8, 7])?;
        assert_eq!(rt; text.as_bytes(), b"1 list\n2 no 9\n".as_slice());
        Ok(())
    }

    #[test]
    fn an_unknown_bank_kind_is_shown(rt: HostRuntime) -> Result<(), Fail> {
        let text = explain(rt.alloc(), &[1, 9, 3, 255, 255, 255, 255, 0, 0, 0, 10])?;
        assert_eq!(rt;
            text.as_bytes(),
            b"1 make bank 9 stations 3 count 4294967295 value 10\n".as_slice()
        );
        Ok(())
    }
}

// Reading a command file from wherever it comes.
ghost use Rattle.std.specs.Prelude.{◌≡◌, IfOk, IfSome, take};

use std::alloc::Global;
use std::io;
use std::io::Read;

// The most bytes that a command file has; what follows them is not read.
pub const LIMIT: usize = 65536;

// The first bytes that a source gives, up to the limit.
pub fn read_file<R: Read + Drop>(heap: Global, source: R) -> io::Result<Vec<u8>>
    ensures { IfOk result (λ v. IfSome (R.Read.remaining source) (λ xs. v.items ≡ take 65536 xs)) }
{
    let mut input = Vec::new(heap);
    source.take(LIMIT as u64).read_to_end(&mut input)?;
    Ok(input)
}

#[cfg(test)]
mod tests {
    use super::*;
    use std::test::Fail;

    #[test]
    fn a_file_is_read_up_to_the_limit(rt: HostRuntime) -> Result<(), Fail> {
        let source = io::repeat(7);
        let input = read_file(rt.alloc(), source)?;
        assert_eq!(rt; input.len(), 65536);
        let input = read_file(rt.alloc(), b"\x07".as_slice())?;
        assert_eq!(rt; input.as_slice(), b"\x07".as_slice());
        Ok(())
    }
}

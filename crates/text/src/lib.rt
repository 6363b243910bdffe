// Numbers written as decimal text into an output buffer.
#![tactic(auto)]

ghost use Rattle.std.specs.Prelude.{◌≡◌, ◌++◌, is_ok, if◌then◌else◌, decimal};

use itoa::Buffer;
use std::alloc::AllocError;

// Appends the number in decimal; for want of memory nothing is appended.
pub fn push_decimal(out: &mut Vec<u8>, number: u64) -> Result<(), AllocError>
    ensures { out.new.items ≡ (if is_ok result then out.old.items ++ decimal number else out.old.items) }
{
    let mut buffer = Buffer::new();
    out.extend_from_slice(buffer.format(number).as_bytes())
}

#[cfg(test)]
mod tests {
    use super::*;
    use std::test::Fail;

    #[test]
    fn numbers_are_appended(rt: HostRuntime) -> Result<(), Fail> {
        let mut out = Vec::new(rt.alloc());
        push_decimal(&mut out, 0)?;
        push_decimal(&mut out, 10)?;
        push_decimal(&mut out, u64::MAX)?;
        assert_eq!(rt; out.as_slice(), b"01018446744073709551615".as_slice());
        Ok(())
    }
}

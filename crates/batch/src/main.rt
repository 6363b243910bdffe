// Replays a stream of command files: each with its length in four bytes, highest first, in front of it. Behind each account stands an empty line.
#![tactic(auto)]

ghost use Rattle.std.specs.Prelude.{◌<◌, length, IfSome};

use account::play::play;
use commands::input::LIMIT;
use std::io::{Read, Write};

fn main(rt: HostRuntime) -> anyhow::Result<()> {
    let heap = rt.alloc();
    let mut input = Vec::new(heap);
    rt.stdin().read_to_end(&mut input)?;
    let mut rest = input.as_slice();
    // no iterator of files: what it gives and leaves would have to be stated for one loop
    while let Some((file, behind)) = next_file(rest) {
        let text = play(heap, file)?;
        rt.stdout().write_all(&text)?;
        rt.stdout().write_all(b"\n")?;
        rest = behind;
    }
    Ok(())
}

// What is replayed of the next file, and the stream behind the file; none at the end, or where a file is cut.
fn next_file(stream: &[u8]) -> Option<(&[u8], &[u8])>
    ensures { IfSome result (λ p. length p.1.now < length stream.now) }
{
    let (size, rest) = stream.split_first_chunk()?;
    let size = u32::from_be_bytes(*size) as usize;
    let (file, behind) = rest.split_at_checked(size)?;
    Some((&file[..size.min(LIMIT)], behind))
}

// Replays a command file: reads it from standard input and prints the outcome of every command, piece by piece.
#![tactic(auto)]

use account::page::Page;
use account::player::Player;
use commands::input::{LIMIT, read_file};
use std::io::Write;

fn main(rt: HostRuntime) -> anyhow::Result<()> {
    let heap = rt.alloc();
    let input = read_file(heap, rt.stdin())?;
    let mut player = Player::new(&input);
    let mut page = Page::new();
    while player.next(heap, &mut page)? {
        rt.stdout().write_all(page.text())?;
    }
    if input.len() == LIMIT {
        eprintln!(rt; "replay: {LIMIT} bytes were read; what follows them was not")?;
    }
    Ok(())
}

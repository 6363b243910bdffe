// The account of a pile of banks: a split over a renumbered board and a post, of three stations.
#![tactic(auto)]

mod drive;

use crate::drive::account;
use banks::record::Record;
use heap_banks::pile::pile;
use policy::entry::{NameRule, PolicyEntry, PolicyNumber};

fn numbered(tag: u32, number: u32) -> Record<u32, PolicyNumber> {
    Record {
        tag,
        value: PolicyNumber(number),
    }
}

fn entered(tag: u32, number: u32, rule: NameRule) -> Record<u32, PolicyEntry> {
    let number = PolicyNumber(number);
    Record {
        tag,
        value: PolicyEntry {
            number,
            first_day: 10,
            last_day: 375,
            rule,
        },
    }
}

fn main(rt: HostRuntime) -> anyhow::Result<()> {
    println!(rt; "policy numbers")?;
    let mut numbers = pile(rt.alloc(), numbered(0, 7))?;
    account(&rt, &mut numbers, numbered(1, 9))?;
    println!(rt; "policy entries")?;
    let mut entries = pile(rt.alloc(), entered(0, 7, NameRule::Permitted))?;
    account(&rt, &mut entries, entered(1, 9, NameRule::Excluded))?;
    Ok(())
}

// The law of the register's stamps, held by a contract.
ghost use Rattle.std.specs.Prelude.{◌≡◌, ℕ, ◌*◌};
ghost use Rattle.machine.specs.Rules.{LawOfRuns, RefusalsLeave};
ghost use Rattle.machine.specs.Steps.{SpreadsOnce};
ghost use Rattle.machine.specs.Wrong.{Breaks, quiet_act, early_act, tied_act};
ghost use Rattle.stamps.specs.Makes.{Make, Laws};

// The law of every run, for every make of stamps of the type S and every value type V.
fn whole_law<S, V>()
    ensures law { (m : Make S) → Laws m → LawOfRuns V m }
    ensures refusals { (m : Make S) → RefusalsLeave V m }
    ensures spreads { (n s : ℕ) → SpreadsOnce n s }
{}

// How many accepted steps a done operation of a register takes. The contract holds the law that says so of every run.
pub fn accepted_steps<S, V>(stations: u8) -> u64
    ensures value { result ≡ 3 * stations }
    ensures law { (m : Make S) → Laws m → LawOfRuns V m }
    ensures refusals { (m : Make S) → RefusalsLeave V m }
    ensures spreads { (n s : ℕ) → SpreadsOnce n s }
{
    whole_law::<S, V>();
    3 * stations as u64
}

// The plausible wrong machines: a read that does not spread, a write stamped at its opening, stamps compared by count alone.
const WRONG_MACHINES: u8 = 3;

// Each of them breaks the law in a run of three stations.
fn witnesses()
    ensures { Breaks quiet_act × Breaks early_act × Breaks tied_act }
{}

// How many plausible wrong machines the law is shown to rule out.
pub fn ruled_out() -> u8
    ensures value { result ≡ 3 }
    ensures each { Breaks quiet_act × Breaks early_act × Breaks tied_act }
{
    witnesses();
    WRONG_MACHINES
}

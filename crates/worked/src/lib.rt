// The worked values of stamps and of the register, held by one contract.
#![tactic(auto)]

ghost use Rattle.std.specs.Prelude.{◌≡◌, true};
ghost use Rattle.worked.specs.Worked.{Worked};

// Whether the calls of stamps give their worked values. They do, and the definitions of stamps and of the machine give all of them.
pub fn worked_values() -> bool
    ensures calls { result ≡ true }
    ensures definitions { Worked }
{
    stamps::worked::worked_values()
}

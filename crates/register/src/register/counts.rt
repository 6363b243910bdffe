// What a register counts.
ghost use Rattle.std.specs.Prelude.{◌≡◌};

use crate::register::Register;

impl<S: Copy, V: Copy> Register<S, V> {
    // How many journal lines are in use.
    pub fn used(&self) -> u64
        ensures { result ≡ self.now.used }
    {
        self.used
    }
}

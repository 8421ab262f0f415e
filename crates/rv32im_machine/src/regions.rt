#![tactic(auto, unfolding(crate::specs::State::restored))]

ghost use Rattle.std.specs.Prelude.{◌≡◌, ◌<◌, All};
ghost use Rattle.rv32im_machine.specs.State.{restored};
ghost use Rattle.rv32im_machine.specs.Language.{with_store};

use crate::machines::Machine;

impl Machine {
    /// Puts these registers, each 0 to 31, back to the values that were kept, one after another. It takes no memory.
    pub fn restore(&mut self, registers: &[u8])
        requires { All (λ register. register < 32) registers.now }
        ensures { self.new ≡ with_store (restored registers.now self.old.store) self.old }
    {
        let mut rest = registers;
        while let [register, more @ ..] = rest {
            let value = self.kept().get(*register);
            self.set_register(*register, value);
            rest = more;
        }
    }
}

ghost use Rattle.std.specs.Prelude.{◌≡◌, ◌<◌, ◌==◌, replicate, slice_index, slice_set, true, if◌then◌else◌};

use std::marker::Model;

/// The 32 registers of RV32I (RISC-V Unprivileged ISA, chapter 2); register 0 reads 0 and writes to it are dropped.
#[derive(Clone, Copy)]
pub struct Registers {
    words: [u32; 32],
}

impl Model for Registers {
    ghost use Rattle.std.specs.Prelude.{◌≡◌, ℕ, List, slice_index};

    ghost Value = { List ℕ };

    ghost view = { λ r. r.words };

    ghost inverse = { λ words. record { words = words } };

    ghost invariant = { λ r. slice_index r.words 0 ≡ 0 };
}

impl Registers {
    /// All registers 0. It takes no memory.
    pub fn new() -> Registers
        ensures { result ≡ replicate 32 0 }
    {
        Registers { words: [0; 32] }
    }

    /// The value of a register, 0 to 31.
    pub fn get(&self, register: u8) -> u32
        requires { register < 32 }
        ensures { result ≡ slice_index self.now register }
    {
        self.words[register as usize]
    }

    /// Sets a register, 0 to 31; a write to register 0 changes nothing.
    pub fn set(&mut self, register: u8, value: u32)
        requires { register < 32 }
        ensures { self.new ≡ (if register == 0 then self.old else slice_set self.old register value) }
    {
        if register != 0 {
            self.words[register as usize] = value;
        }
    }

    /// Whether each register has the value that it has in other registers. It takes no memory.
    #[tactic(auto, using(crate::proofs::SameWords::words_same))]
    pub fn is_same(&self, other: &Registers) -> bool
        ensures { result ≡ true → self.now ≡ other.now }
    {
        self.words == other.words
    }
}

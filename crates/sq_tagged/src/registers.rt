//! The registers.

ghost use Rattle.std.specs.Prelude.{◌≡◌, List, length};
ghost use Rattle.sq_isa.specs.Registers.{written};
ghost use Rattle.law_follow.specs.Values.{Num, Holds};
ghost use Rattle.law_follow.specs.GraphRuns.{register_value};
ghost use Rattle.sq_tagged.specs.Views.{value_of, registers_of};

use crate::values::Value;
use sq_isa::Reg;

/// x0 to x31.
#[derive(Drop)]
pub struct Registers {
    values: [Value; 32],
}

impl Registers {
    /// All registers are the number 0.
    pub fn zeros() -> Registers
        ensures { registers_of result ≡ (λ r. Holds (Num 0)) }
    {
        Registers {
            values: [Value::Num(0); 32],
        }
    }

    /// What a register holds.
    #[tactic(auto, unfolding(crate::specs::Views::registers_of))]
    pub fn get(&self, r: Reg) -> Value
        ensures { value_of result ≡ register_value r (registers_of self.now) }
    {
        let number = r.number();
        if number == 0 {
            Value::Num(0)
        } else {
            self.values[number as usize]
        }
    }

    /// Writes a register, but for x0.
    pub fn set(&mut self, r: Reg, value: Value)
        ensures { registers_of self.new ≡ written r (Holds (value_of value)) (registers_of self.old) }
    {
        let number = r.number();
        if number != 0 {
            self.values[number as usize] = value;
        }
    }
}

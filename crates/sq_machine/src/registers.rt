//! Registers and pc of a hart.

ghost use Rattle.std.specs.Prelude.{◌≡◌};
ghost use Rattle.sq_machine.specs.State.{with_register, with_reservation, jump, advance, finish, next_pc, target_of, address_of};
ghost use Rattle.sq_machine.specs.Views.{state_of};

use crate::hart::Hart;
use sq_isa::Reg;

impl Hart {
    /// The number in a register.
    #[tactic(auto, unfolding(crate::specs::Views::state_of))]
    pub fn register(&self, r: Reg) -> u32
        ensures { result ≡ (state_of self.now).registers r }
    {
        self.registers[r.number() as usize]
    }

    /// The program counter.
    #[tactic(auto, unfolding(crate::specs::Views::state_of))]
    pub fn pc(&self) -> u32
        ensures { result ≡ (state_of self.now).pc }
    {
        self.pc
    }

    /// The address of the next instruction.
    pub fn next_pc(&self) -> u32
        ensures { result ≡ next_pc (state_of self.now) }
    {
        self.pc().wrapping_add(4)
    }

    /// The address that an offset from this instruction gives.
    pub fn target(&self, offset: i32) -> u32
        ensures { result ≡ target_of offset (state_of self.now) }
    {
        self.pc().wrapping_add(offset.cast_unsigned())
    }

    /// The address that a register and an offset give.
    pub fn address(&self, rs: Reg, offset: i32) -> u32
        ensures { result ≡ address_of rs offset (state_of self.now) }
    {
        self.register(rs).wrapping_add(offset.cast_unsigned())
    }

    /// Writes a register, but for x0.
    pub fn set_register(&mut self, r: Reg, value: u32)
        ensures { state_of self.new ≡ with_register r value (state_of self.old) }
    {
        let number = r.number();
        if number != 0 {
            self.registers[number as usize] = value;
        }
    }

    /// Goes to another instruction.
    #[tactic(auto, unfolding(crate::specs::Views::state_of, crate::specs::State::jump))]
    pub fn jump(&mut self, target: u32)
        ensures { state_of self.new ≡ jump target (state_of self.old) }
    {
        self.pc = target;
    }

    /// Goes to the next instruction.
    pub fn advance(&mut self)
        ensures { state_of self.new ≡ advance (state_of self.old) }
    {
        self.jump(self.next_pc());
    }

    /// Writes a register and goes to the next instruction.
    pub fn finish(&mut self, rd: Reg, value: u32)
        ensures { state_of self.new ≡ finish rd value (state_of self.old) }
    {
        let next = self.next_pc();
        self.set_register(rd, value);
        self.jump(next);
    }

    /// Reserves an address, or none.
    #[tactic(auto, unfolding(crate::specs::Views::state_of, crate::specs::State::with_reservation))]
    pub fn reserve(&mut self, reservation: Option<u32>)
        ensures { state_of self.new ≡ with_reservation reservation (state_of self.old) }
    {
        self.reservation = reservation;
    }
}

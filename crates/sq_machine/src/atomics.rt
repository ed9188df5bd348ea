//! Atomic operations, which are plain where one hart runs.

ghost use Rattle.std.specs.Prelude.{◌≡◌};
ghost use Rattle.sq_isa.specs.Accesses.{is_reserved};
ghost use Rattle.sq_machine.specs.Rows.{lr_row, sc_row, amo_row, atomic_row};
ghost use Rattle.sq_machine.specs.Steps.{IsQuietStep};
ghost use Rattle.sq_machine.specs.Views.{state_of, world_of};

use crate::hart::Hart;
use crate::moved::Moved;
use crate::world::World;
use sq_isa::{AtomicOp, Reg, atomic_value};
use sq_system::Halt;

impl Hart {
    /// LR.
    fn load_reserved(&mut self, rd: Reg, rs: Reg) -> Moved
        ensures { IsQuietStep (lr_row rd rs (state_of self.old)) result (state_of self.old) (state_of self.new) }
    {
        let address = self.register(rs);
        match self.word(address) {
            Some(number) => {
                self.reserve(Some(address));
                self.finish(rd, number);
                Moved::Went
            }
            None => Moved::Ended(Halt::Load(address)),
        }
    }

    /// Whether an address is reserved.
    #[tactic(auto, unfolding(crate::specs::Views::state_of))]
    fn is_reserved(&self, address: u32) -> bool
        ensures { result ≡ is_reserved address (state_of self.now).reservation }
    {
        match self.reservation {
            Some(reserved) => address == reserved,
            None => false,
        }
    }

    /// SC.
    fn store_conditional(&mut self, world: &World, rd: Reg, rs: Reg, src: Reg) -> Moved
        ensures { IsQuietStep (sc_row (world_of world.now) rd rs src (state_of self.old)) result (state_of self.old) (state_of self.new) }
    {
        let address = self.register(rs);
        if !self.may_store(world, address, 4) {
            return Moved::Ended(Halt::Store(address));
        }
        let number = self.register(src);
        let reserved = self.is_reserved(address);
        self.reserve(None);
        if reserved {
            self.put_number(address, 4, number);
            self.finish(rd, 0);
        } else {
            self.finish(rd, 1);
        }
        Moved::Went
    }

    /// An operation that loads the old word and stores a result.
    fn read_modify_write(
        &mut self,
        world: &World,
        op: AtomicOp,
        rd: Reg,
        rs: Reg,
        src: Reg,
    ) -> Moved
        ensures { IsQuietStep (amo_row (world_of world.now) op rd rs src (state_of self.old)) result (state_of self.old) (state_of self.new) }
    {
        let address = self.register(rs);
        if !self.may_store(world, address, 4) {
            return Moved::Ended(Halt::Store(address));
        }
        let number = self.register(src);
        match self.word(address) {
            Some(old) => {
                self.put_number(address, 4, atomic_value(op, old, number));
                self.finish(rd, old);
                Moved::Went
            }
            None => Moved::Ended(Halt::Store(address)),
        }
    }

    /// An atomic operation.
    pub fn atomic(&mut self, world: &World, op: AtomicOp, rd: Reg, rs: Reg, src: Reg) -> Moved
        ensures { IsQuietStep (atomic_row (world_of world.now) op rd rs src (state_of self.old)) result (state_of self.old) (state_of self.new) }
    {
        match op {
            AtomicOp::Lr => self.load_reserved(rd, rs),
            AtomicOp::Sc => self.store_conditional(world, rd, rs, src),
            AtomicOp::Swap
            | AtomicOp::Add
            | AtomicOp::Xor
            | AtomicOp::And
            | AtomicOp::Or
            | AtomicOp::Min
            | AtomicOp::Max
            | AtomicOp::MinU
            | AtomicOp::MaxU => self.read_modify_write(world, op, rd, rs, src),
        }
    }
}

//! Instructions that are no system call, one function a kind.

ghost use Rattle.std.specs.Prelude.{◌≡◌, ◌+◌, ◌<◌, ◌≤◌, ◌^◌, IsTrue};
ghost use Rattle.byteorder.specs.Endian.{little_bytes};
ghost use Rattle.sq_system.specs.World.{is_writable, is_range};
ghost use Rattle.sq_isa.specs.Accesses.{store_width};
ghost use Rattle.sq_machine.specs.Rows.{lui_row, auipc_row, jal_row, jalr_row, branch_row, load_row, store_row, may_store, op_imm_row, op_row};
ghost use Rattle.sq_machine.specs.State.{with_bytes};
ghost use Rattle.sq_machine.specs.Steps.{IsQuietStep};
ghost use Rattle.sq_machine.specs.Views.{state_of, world_of};

use crate::hart::Hart;
use crate::moved::Moved;
use crate::world::World;
use sq_isa::{Cond, ImmOp, LoadKind, Reg, RegOp, StoreKind, taken, value, value_imm};
use sq_system::Halt;

impl Hart {
    /// LUI.
    pub fn lui(&mut self, rd: Reg, upper: u32) -> Moved
        ensures { IsQuietStep (lui_row rd upper (state_of self.old)) result (state_of self.old) (state_of self.new) }
    {
        self.finish(rd, upper << 12);
        Moved::Went
    }

    /// AUIPC.
    pub fn auipc(&mut self, rd: Reg, upper: u32) -> Moved
        ensures { IsQuietStep (auipc_row rd upper (state_of self.old)) result (state_of self.old) (state_of self.new) }
    {
        let sum = self.pc().wrapping_add(upper << 12);
        self.finish(rd, sum);
        Moved::Went
    }

    /// JAL.
    pub fn jal(&mut self, rd: Reg, offset: i32) -> Moved
        ensures { IsQuietStep (jal_row rd offset (state_of self.old)) result (state_of self.old) (state_of self.new) }
    {
        let target = self.target(offset);
        let link = self.next_pc();
        self.set_register(rd, link);
        self.jump(target);
        Moved::Went
    }

    /// JALR: the target is read before the link is written.
    pub fn jalr(&mut self, rd: Reg, rs: Reg, offset: i32) -> Moved
        ensures { IsQuietStep (jalr_row rd rs offset (state_of self.old)) result (state_of self.old) (state_of self.new) }
    {
        let target = self.address(rs, offset);
        let link = self.next_pc();
        self.set_register(rd, link);
        self.jump(target - target % 2);
        Moved::Went
    }

    /// A branch.
    pub fn branch(&mut self, cond: Cond, a: Reg, b: Reg, offset: i32) -> Moved
        ensures { IsQuietStep (branch_row cond a b offset (state_of self.old)) result (state_of self.old) (state_of self.new) }
    {
        if taken(cond, self.register(a), self.register(b)) {
            self.jump(self.target(offset));
        } else {
            self.advance();
        }
        Moved::Went
    }

    /// A load.
    pub fn load(&mut self, kind: LoadKind, rd: Reg, rs: Reg, offset: i32) -> Moved
        ensures { IsQuietStep (load_row kind rd rs offset (state_of self.old)) result (state_of self.old) (state_of self.new) }
    {
        let address = self.address(rs, offset);
        match self.loaded(kind, address) {
            Some(number) => {
                self.finish(rd, number);
                Moved::Went
            }
            None => Moved::Ended(Halt::Load(address)),
        }
    }

    /// A store.
    pub fn store(&mut self, world: &World, kind: StoreKind, rs: Reg, src: Reg, offset: i32) -> Moved
        ensures { IsQuietStep (store_row (world_of world.now) kind rs src offset (state_of self.old)) result (state_of self.old) (state_of self.new) }
    {
        let address = self.address(rs, offset);
        let width = store_width(kind);
        if !self.may_store(world, address, width) {
            return Moved::Ended(Halt::Store(address));
        }
        let number = self.register(src);
        self.put_number(address, width, number);
        self.advance();
        Moved::Went
    }

    /// An operation on a register and an immediate.
    pub fn op_imm(&mut self, op: ImmOp, rd: Reg, rs: Reg, imm: i32) -> Moved
        ensures { IsQuietStep (op_imm_row op rd rs imm (state_of self.old)) result (state_of self.old) (state_of self.new) }
    {
        let number = value_imm(op, self.register(rs), imm);
        self.finish(rd, number);
        Moved::Went
    }

    /// An operation on two registers.
    pub fn op(&mut self, op: RegOp, rd: Reg, a: Reg, b: Reg) -> Moved
        ensures { IsQuietStep (op_row op rd a b (state_of self.old)) result (state_of self.old) (state_of self.new) }
    {
        let number = value(op, self.register(a), self.register(b));
        self.finish(rd, number);
        Moved::Went
    }

    /// Whether the n bytes from `x` on are writable.
    #[tactic(auto, unfolding(crate::specs::Views::state_of))]
    pub fn are_writable(&mut self, world: &World, x: u32, n: u32) -> bool
        ensures value { result ≡ is_range (is_writable (world_of world.now)) x n }
        ensures end { IsTrue result → x + n ≤ 2 ^ 32 }
        ensures state { state_of self.new ≡ state_of self.old }
    {
        world.are_writable(x, n, &mut self.data_piece)
    }

    /// Whether a store of so many bytes may be made at an address.
    pub fn may_store(&mut self, world: &World, address: u32, width: u32) -> bool
        requires { 0 < width }
        ensures value { result ≡ may_store (world_of world.now) address width }
        ensures end { IsTrue result → address + width ≤ 2 ^ 32 }
        ensures state { state_of self.new ≡ state_of self.old }
    {
        address % width == 0 && self.are_writable(world, address, width)
    }

    /// The lowest `width` bytes of a number from an address on.
    pub fn put_number(&mut self, address: u32, width: u32, number: u32)
        requires width { width ≤ 4 }
        requires end { address + width ≤ 2 ^ 32 }
        ensures { state_of self.new ≡ with_bytes address (little_bytes width number) (state_of self.old) }
    {
        let bytes = number.to_le_bytes();
        self.put_bytes(address, &bytes[..width as usize]);
    }
}

/// How many bytes a store takes.
fn store_width(kind: StoreKind) -> u32
    ensures value { result ≡ store_width kind }
    ensures least { 0 < result }
    ensures most { result ≤ 4 }
{
    match kind {
        StoreKind::Sb => 1,
        StoreKind::Sh => 2,
        StoreKind::Sw => 4,
    }
}

//! What a watched run changes.

ghost use Rattle.std.specs.Prelude.{◌≡◌, ◌+◌, ◌≤◌, ◌^◌};
ghost use Rattle.law_follow.specs.Values.{Code};
ghost use Rattle.law_follow.specs.GraphRuns.{register_value};
ghost use Rattle.law_program.specs.Monitored.{with_link};
ghost use Rattle.sq_tagged.specs.Views.{tag_of, value_of};
ghost use Rattle.sq_monitor.specs.Views.{watched_of};
ghost use Rattle.sq_monitor.specs.Steps.{moved_of, finished_state};

use crate::moved::Moved;
use sq_isa::Reg;
use sq_tagged::{Made, Registers, Store, Tag, Value};

/// A hardware thread whose registers and memory hold tagged values.
#[derive(Drop)]
pub struct Hart {
    /// The address of the instruction that comes. 2^32 stands behind the last one.
    pub pc: u64,
    pub registers: Registers,
    pub store: Store,
}

/// The address behind an instruction.
fn address_behind(at: u32) -> Tag
    requires { at + 4 ≤ 2 ^ 32 }
    ensures { tag_of result ≡ Code (at + 4) }
{
    match at.checked_add(4) {
        Some(next) => Tag::Code(next),
        None => Tag::End,
    }
}

impl Hart {
    /// Goes to another instruction.
    #[tactic(auto, unfolding(crate::specs::Views::watched_of))]
    pub fn jump(&mut self, to: u64)
        ensures { watched_of self.new ≡ record (watched_of self.old) { pc = to } }
    {
        self.pc = to;
    }

    /// What a register holds.
    #[tactic(auto, unfolding(crate::specs::Views::watched_of))]
    pub fn register(&self, r: Reg) -> Value
        ensures { value_of result ≡ register_value r (watched_of self.now).core.registers }
    {
        self.registers.get(r)
    }

    /// Writes the address of the next instruction to a register.
    #[tactic(auto, unfolding(crate::specs::Views::watched_of))]
    pub fn link(&mut self, at: u32, rd: Reg)
        requires { at + 4 ≤ 2 ^ 32 }
        ensures { watched_of self.new ≡ record (watched_of self.old) { core = with_link rd at (watched_of self.old).core } }
    {
        self.registers.set(rd, Value::Tagged(address_behind(at)));
    }

    /// Goes to the next instruction with what this one made, but where the run ends or breaks.
    #[tactic(auto, unfolding(crate::specs::Views::watched_of))]
    pub fn finish(&mut self, at: u32, rd: Reg, made: Made) -> Moved
        ensures moved { result ≡ moved_of made }
        ensures state { watched_of self.new ≡ finished_state at rd made (watched_of self.old) }
    {
        match made {
            Made::Gives(value) => {
                self.registers.set(rd, value);
                self.pc = u64::from(at) + 4;
                Moved::Went
            }
            Made::Ends(halt) => Moved::Ended(halt),
            Made::Breaks(kind) => Moved::Broke(kind),
        }
    }
}

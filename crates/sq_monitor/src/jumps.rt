//! Where jumps and branches go.

ghost use Rattle.std.specs.Prelude.{◌≡◌, ℕ, ◌+◌, ◌≤◌, ◌^◌};
ghost use Rattle.sq_isa.specs.Words.{even};
ghost use Rattle.law_follow.specs.Values.{Tagged, Code};
ghost use Rattle.law_follow.specs.Arithmetic.{is_taken};
ghost use Rattle.law_follow.specs.Jumps.{number_jump, name_jump, indirect_jump, part_jump};
ghost use Rattle.law_follow.specs.GraphRuns.{Core, register_value};
ghost use Rattle.law_program.specs.Reached.{target_from};
ghost use Rattle.law_program.specs.Monitored.{with_link, at_address, jumped, branched, jalr_jump};
ghost use Rattle.sq_tagged.specs.Views.{setting_of, value_of, half_in};
ghost use Rattle.sq_monitor.specs.Steps.{go_to, IsQuietStep};
ghost use Rattle.sq_monitor.specs.Views.{watched_of};

use crate::hart::Hart;
use crate::moved::Moved;
use law_follow::Kind;
use sq_isa::{Cond, Reg};
use sq_tagged::{AddressHalf, Setting, Tag, Value, is_taken, is_upper_half};

/// The first number that is no address.
const END: u64 = 1 << 32;

/// A jump to a number: a break where the byte there is executable.
#[tactic(auto, unfolding(sq_tagged::specs::Views::setting_of))]
fn number_target(setting: &Setting, x: u32) -> Result<u64, Kind>
    ensures { (link at : ℕ) (core : Core) → go_to link at core result ≡ jumped link at core (number_jump (setting_of setting.now) x) }
{
    if setting.is_executable(x) {
        Err(Kind::Jump)
    } else {
        Ok(u64::from(x))
    }
}

/// A jump to an address: to a number where it isn't in text.
fn name_target(setting: &Setting, to: u32) -> Result<u64, Kind>
    ensures { (link at : ℕ) (core : Core) → go_to link at core result ≡ jumped link at core (name_jump (setting_of setting.now) to) }
{
    if setting.is_in_text(to) {
        Ok(u64::from(to))
    } else {
        number_target(setting, to - to % 2)
    }
}

/// A jump to an address of code plus an offset.
fn code_target(setting: &Setting, offset: i32, to: u64) -> Result<u64, Kind>
    ensures { (link at : ℕ) (core : Core) → go_to link at core result ≡ jumped link at core (indirect_jump (setting_of setting.now) offset (Tagged (Code to))) }
{
    if offset == 0 { Ok(to) } else { Err(Kind::Jump) }
}

/// A jump to what a register holds plus an offset.
fn indirect_target(setting: &Setting, offset: i32, value: Value) -> Result<u64, Kind>
    ensures { (link at : ℕ) (core : Core) → go_to link at core result ≡ jumped link at core (indirect_jump (setting_of setting.now) offset (value_of value)) }
{
    match value {
        Value::Num(x) => {
            let sum = x.wrapping_add(offset.cast_unsigned());
            number_target(setting, sum - sum % 2)
        }
        Value::Tagged(tag) => match tag {
            Tag::Code(to) => code_target(setting, offset, u64::from(to)),
            Tag::End => code_target(setting, offset, END),
            Tag::Part { .. } => Err(Kind::Jump),
        },
    }
}

/// A jump whose offset is the lower half of an address.
fn part_target(setting: &Setting, to: u32, offset: i32, value: Value) -> Result<u64, Kind>
    ensures { (link at : ℕ) (core : Core) → go_to link at core result ≡ jumped link at core (part_jump (setting_of setting.now) to offset (value_of value)) }
{
    if is_upper_half(to, offset, value) {
        name_target(setting, to)
    } else {
        Err(Kind::Half)
    }
}

/// Where JALR goes.
fn jalr_target(setting: &Setting, half: AddressHalf, offset: i32, value: Value) -> Result<u64, Kind>
    ensures { (link at : ℕ) (core : Core) → go_to link at core result ≡ jumped link at core (jalr_jump (setting_of setting.now) (half_in half) offset (value_of value)) }
{
    match half {
        AddressHalf::Lower(to) => part_target(setting, to, offset, value),
        AddressHalf::Plain | AddressHalf::Upper { .. } => indirect_target(setting, offset, value),
    }
}

/// The address that an offset gives from an instruction.
pub fn target_from(at: u32, offset: i32) -> u32
    ensures { result ≡ target_from at offset }
{
    at.wrapping_add(offset.cast_unsigned())
}

impl Hart {
    /// JAL.
    pub fn jal(&mut self, at: u32, rd: Reg, target: u32) -> Moved
        requires { at + 4 ≤ 2 ^ 32 }
        ensures { IsQuietStep (at_address target (with_link rd at (watched_of self.old).core)) result (watched_of self.old) (watched_of self.new) }
    {
        self.link(at, rd);
        self.jump(u64::from(target));
        Moved::Went
    }

    /// JALR: the jump is read before the link is written.
    pub fn jalr(
        &mut self,
        setting: &Setting,
        at: u32,
        half: AddressHalf,
        rd: Reg,
        rs: Reg,
        offset: i32,
    ) -> Moved
        requires { at + 4 ≤ 2 ^ 32 }
        ensures { IsQuietStep (jumped rd at (watched_of self.old).core (jalr_jump (setting_of setting.now) (half_in half) offset (register_value rs (watched_of self.old).core.registers))) result (watched_of self.old) (watched_of self.new) }
    {
        let value = self.register(rs);
        match jalr_target(setting, half, offset, value) {
            Ok(target) => {
                self.link(at, rd);
                self.jump(target);
                Moved::Went
            }
            Err(kind) => Moved::Broke(kind),
        }
    }

    /// A branch.
    pub fn branch(
        &mut self,
        setting: &Setting,
        at: u32,
        cond: Cond,
        a: Reg,
        b: Reg,
        target: u32,
    ) -> Moved
        ensures { IsQuietStep (branched at target (watched_of self.old).core (is_taken (setting_of setting.now) cond (register_value a (watched_of self.old).core.registers) (register_value b (watched_of self.old).core.registers))) result (watched_of self.old) (watched_of self.new) }
    {
        match is_taken(setting, cond, self.register(a), self.register(b)) {
            Some(true) => {
                self.jump(u64::from(target));
                Moved::Went
            }
            Some(false) => {
                self.jump(u64::from(at) + 4);
                Moved::Went
            }
            None => Moved::Broke(Kind::Arithmetic),
        }
    }
}

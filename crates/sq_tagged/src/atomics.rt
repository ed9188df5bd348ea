//! Atomic operations on tagged values.

ghost use Rattle.std.specs.Prelude.{◌≡◌, ◌+◌, ◌≤◌, ◌^◌, IfOk, OnErr};
ghost use Rattle.law_follow.specs.Accesses.{aligned_cells, lr_cells, update, atomic_row, atomic_at};
ghost use Rattle.law_follow.specs.Arithmetic.{atomic_result};
ghost use Rattle.sq_tagged.specs.Rows.{IsQuiet, sc_row, amo_row};
ghost use Rattle.sq_tagged.specs.Views.{setting_of, store_of, value_of};

use crate::accesses::word_value;
use crate::arithmetic::atomic_result;
use crate::made::Made;
use crate::setting::Setting;
use crate::store::Store;
use crate::values::Value;
use law_follow::Kind;
use sq_isa::AtomicOp;
use sq_num::Memory;
use sq_system::Halt;

impl Store {
    /// LR.
    fn load_reserved(&mut self, x: u32) -> Made
        ensures { IsQuiet (lr_cells x (store_of self.old) (aligned_cells (store_of self.old) x 4)) result (store_of self.old) (store_of self.new) }
    {
        match self.word_cells(x) {
            None => Made::Ends(Halt::Load(x)),
            Some(cells) => match word_value(&cells) {
                Ok(value) => {
                    self.reserve(Some(x));
                    Made::Gives(value)
                }
                Err(kind) => Made::Breaks(kind),
            },
        }
    }

    /// SC.
    fn store_conditional(&mut self, setting: &Setting, x: u32, src: Value) -> Result<Made, Memory>
        ensures ok { IfOk result (λ made. IsQuiet (sc_row (setting_of setting.now) x (value_of src) (store_of self.old)) made (store_of self.old) (store_of self.new)) }
        ensures kept { OnErr result (store_of self.new ≡ store_of self.old) }
    {
        if !setting.may_store(x, 4) {
            return Ok(Made::Ends(Halt::Store(x)));
        }
        let reserved = self.is_reserved(x);
        if reserved {
            self.make_ready(x, 4)?;
            self.put_word(x, src);
            self.reserve(None);
            Ok(Made::Gives(Value::Num(0)))
        } else {
            self.reserve(None);
            Ok(Made::Gives(Value::Num(1)))
        }
    }

    /// Stores the result of an operation on the old value.
    fn update(&mut self, op: AtomicOp, x: u32, old: Value, src: Value) -> Result<Made, Memory>
        requires { x + 4 ≤ 2 ^ 32 }
        ensures ok { IfOk result (λ made. IsQuiet (update x (value_of old) (store_of self.old) (atomic_result op (value_of old) (value_of src))) made (store_of self.old) (store_of self.new)) }
        ensures kept { OnErr result (store_of self.new ≡ store_of self.old) }
    {
        match atomic_result(op, old, src) {
            None => Ok(Made::Breaks(Kind::Arithmetic)),
            Some(new) => {
                self.make_ready(x, 4)?;
                self.put_word(x, new);
                Ok(Made::Gives(old))
            }
        }
    }

    /// An operation that loads the old value and stores a result.
    fn read_modify_write(
        &mut self,
        setting: &Setting,
        op: AtomicOp,
        x: u32,
        src: Value,
    ) -> Result<Made, Memory>
        ensures ok { IfOk result (λ made. IsQuiet (amo_row (setting_of setting.now) op x (value_of src) (store_of self.old)) made (store_of self.old) (store_of self.new)) }
        ensures kept { OnErr result (store_of self.new ≡ store_of self.old) }
    {
        if !setting.may_store(x, 4) {
            return Ok(Made::Ends(Halt::Store(x)));
        }
        match self.word_cells(x) {
            None => Ok(Made::Ends(Halt::Store(x))),
            Some(cells) => match word_value(&cells) {
                Ok(old) => self.update(op, x, old, src),
                Err(kind) => Ok(Made::Breaks(kind)),
            },
        }
    }

    /// An atomic operation outside text.
    fn atomic_outside(
        &mut self,
        setting: &Setting,
        op: AtomicOp,
        x: u32,
        src: Value,
    ) -> Result<Made, Memory>
        ensures ok { IfOk result (λ made. IsQuiet (atomic_row (setting_of setting.now) op x (value_of src) (store_of self.old)) made (store_of self.old) (store_of self.new)) }
        ensures kept { OnErr result (store_of self.new ≡ store_of self.old) }
    {
        match op {
            AtomicOp::Lr => Ok(self.load_reserved(x)),
            AtomicOp::Sc => self.store_conditional(setting, x, src),
            AtomicOp::Swap
            | AtomicOp::Add
            | AtomicOp::Xor
            | AtomicOp::And
            | AtomicOp::Or
            | AtomicOp::Min
            | AtomicOp::Max
            | AtomicOp::MinU
            | AtomicOp::MaxU => self.read_modify_write(setting, op, x, src),
        }
    }

    /// An atomic operation at an address.
    pub fn atomic(
        &mut self,
        setting: &Setting,
        op: AtomicOp,
        x: u32,
        src: Value,
    ) -> Result<Made, Memory>
        ensures ok { IfOk result (λ made. IsQuiet (atomic_at (setting_of setting.now) op x (value_of src) (store_of self.old)) made (store_of self.old) (store_of self.new)) }
        ensures kept { OnErr result (store_of self.new ≡ store_of self.old) }
    {
        if setting.meets_text(x, 4) {
            Ok(Made::Breaks(Kind::Text))
        } else {
            self.atomic_outside(setting, op, x, src)
        }
    }
}

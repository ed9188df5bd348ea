//! System calls (ECALL). Their numbers and error codes are those of Linux on RISC-V.

ghost use Rattle.std.specs.Prelude.{◌≡◌};
ghost use Rattle.sq_system.specs.Calls.{effect_of, read_effect, write_effect, brk_answer, answer_of};

/// What a call finds.
#[derive(Clone, Copy, Debug, PartialEq, Eq)]
pub struct CallArgs {
    /// The number of the call, from a7.
    pub number: u32,
    /// The arguments, from a0, a1 and a2.
    pub a0: u32,
    pub a1: u32,
    pub a2: u32,
    /// RAM: `size` bytes from `base` on.
    pub base: u32,
    pub size: u32,
    /// How many bytes of the input are left.
    pub left: u32,
    /// Whether the buffer of a2 bytes at a1 is wholly in memory.
    pub readable: bool,
    /// Whether that buffer is wholly writable.
    pub writable: bool,
}

/// What a call does.
#[derive(Clone, Copy, Debug, PartialEq, Eq)]
pub enum Effect {
    /// The run ends.
    Exit { status: u32 },
    /// The buffer is written to a file descriptor.
    Write { fd: u32 },
    /// So many bytes of the input go into the buffer.
    Read { count: u32 },
    /// The end of RAM in use is answered.
    Brk { answer: u32 },
    /// The call fails with an error code.
    Fail { code: u32 },
    /// The call is not known.
    Ask,
}

const EXIT: u32 = 93;

const EXIT_GROUP: u32 = 94;

const READ: u32 = 63;

const WRITE: u32 = 64;

const BRK: u32 = 214;

/// A bad file descriptor (EBADF).
const BAD_DESCRIPTOR: u32 = 9;

/// A bad address (EFAULT).
const BAD_ADDRESS: u32 = 14;

/// No such call (ENOSYS).
const NO_CALL: u32 = 38;

/// The effect of a call, by its row in the table. It takes no memory.
pub fn call_effect(call: &CallArgs) -> Effect
    ensures { result ≡ effect_of call.now }
{
    match call.number {
        EXIT | EXIT_GROUP => Effect::Exit { status: call.a0 },
        READ => read_effect(call),
        WRITE => write_effect(call),
        BRK => Effect::Brk {
            answer: brk_answer(call),
        },
        _ => Effect::Ask,
    }
}

/// `read`: only from 0, the input, and into a buffer that is wholly writable.
fn read_effect(call: &CallArgs) -> Effect
    ensures { result ≡ read_effect call.now }
{
    if call.a0 != 0 {
        return Effect::Fail {
            code: BAD_DESCRIPTOR,
        };
    }
    if !call.writable {
        return Effect::Fail { code: BAD_ADDRESS };
    }
    Effect::Read {
        count: call.a2.min(call.left),
    }
}

/// `write`: only to 1 and 2, and from a buffer that is wholly in memory.
fn write_effect(call: &CallArgs) -> Effect
    ensures { result ≡ write_effect call.now }
{
    if call.a0 != 1 && call.a0 != 2 {
        return Effect::Fail {
            code: BAD_DESCRIPTOR,
        };
    }
    if !call.readable {
        return Effect::Fail { code: BAD_ADDRESS };
    }
    Effect::Write { fd: call.a0 }
}

/// `brk`: what is asked for where it is in RAM or at its end, else the base.
fn brk_answer(call: &CallArgs) -> u32
    ensures { result ≡ brk_answer call.now }
{
    let end = u64::from(call.base) + u64::from(call.size);
    if call.base <= call.a0 && u64::from(call.a0) <= end {
        call.a0
    } else {
        call.base
    }
}

/// What a0 becomes by an effect of a call, or None where the run ends. It takes no memory.
pub fn call_answer(call: &CallArgs, effect: &Effect) -> Option<u32>
    ensures { result ≡ answer_of call.now effect.now }
{
    match effect {
        Effect::Exit { .. } => None,
        Effect::Write { .. } => Some(call.a2),
        Effect::Read { count } => Some(*count),
        Effect::Brk { answer } => Some(*answer),
        Effect::Fail { code } => Some(code.wrapping_neg()),
        Effect::Ask => Some(NO_CALL.wrapping_neg()),
    }
}

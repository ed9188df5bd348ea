//! What a record commands.

ghost use Rattle.std.specs.Prelude.{◌≡◌, ◌+◌, ◌<◌, ◌≤◌, slice_index, IfSome};
ghost use Rattle.sq_hex.specs.Records.{two_at, count_of, offset_of, command_of};
ghost use Rattle.sq_hex.specs.States.{IsInMemory};

/// The command of a record.
#[derive(Clone, Copy, Debug, PartialEq, Eq)]
pub enum Command {
    /// To load its data at its offset from the base.
    Data,
    End,
    /// To count offsets from this address.
    Base(u32),
    /// To start at this address.
    Start(u32),
}

fn byte_at(bytes: &[u8], at: usize) -> u32
    ensures { result ≡ slice_index bytes.now at }
{
    u32::from(bytes.get(at).copied().unwrap_or(0))
}

/// The number in two bytes, the highest first.
fn two_at(bytes: &[u8], at: usize) -> u32
    requires { at ≤ 8 }
    ensures value { result ≡ two_at bytes.now at }
    ensures small { result < 65536 }
{
    256 * byte_at(bytes, at) + byte_at(bytes, at + 1)
}

/// The offset of a record.
pub fn offset_of(bytes: &[u8]) -> u32
    ensures value { result ≡ offset_of bytes.now }
    ensures small { result < 65536 }
{
    two_at(bytes, 1)
}

/// The command of the record with these bytes, or None where its type or its length is none of those.
#[tactic(auto, unfolding(crate::specs::Records::command_of))]
pub fn command_of(bytes: &[u8]) -> Option<Command>
    ensures value { result ≡ command_of bytes.now }
    ensures base { IfSome result (λ command. IsInMemory command) }
    ensures offsets { result ≡ Some Command.Data → offset_of bytes.now + count_of bytes.now ≤ 65536 }
{
    let count = byte_at(bytes, 0);
    let kind = byte_at(bytes, 3);
    if kind == 0 && offset_of(bytes) + count <= 65_536 {
        Some(Command::Data)
    } else if kind == 1 && count == 0 {
        Some(Command::End)
    } else if kind == 2 && count == 2 {
        Some(Command::Base(16 * two_at(bytes, 4)))
    } else if kind == 3 && count == 4 {
        Some(Command::Start(16 * two_at(bytes, 4) + two_at(bytes, 6)))
    } else if kind == 4 && count == 2 {
        Some(Command::Base(65_536 * two_at(bytes, 4)))
    } else if kind == 5 && count == 4 {
        Some(Command::Start(65_536 * two_at(bytes, 4) + two_at(bytes, 6)))
    } else {
        None
    }
}

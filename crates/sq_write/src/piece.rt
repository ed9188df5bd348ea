//! A piece of the output.

use sq_num::Memory;
use std::marker::Model;

/// A piece of memory as the file stores it: the bytes at its address, then zeros up to its size.
#[derive(Drop)]
pub(crate) struct Piece {
    pub address: u32,
    pub load_address: u32,
    pub bytes: Vec<u8>,
    pub size: u32,
    /// 1 can be executed (PF_X), 2 written (PF_W), 4 read (PF_R).
    pub flags: u32,
}

impl Model for Piece {
    ghost use Rattle.sq_write.specs.Output.{Piece};

    ghost Value = { Piece };

    ghost view = { λ p. record { address = p.address; load_address = p.load_address; bytes = p.bytes.items; size = p.size; flags = p.flags } };
}

impl Piece {
    ghost use Rattle.std.specs.Prelude.{◌≡◌, ◌<◌, ◌^◌, ◌++◌, length, OnOk};

    /// Text, which can be read and executed and is loaded where it stands.
    pub fn text(address: u32, bytes: Vec<u8>) -> Piece
        requires { length bytes.items < 2 ^ 32 }
        ensures { result ≡ record { address = address; load_address = address; bytes = bytes.items; size = length bytes.items; flags = 5 } }
    {
        Piece {
            address,
            load_address: address,
            size: bytes.len() as u32,
            bytes,
            flags: 5,
        }
    }

    pub fn address(&self) -> u32
        ensures { result ≡ self.now.address }
    {
        self.address
    }

    /// How many bytes of it stand in the file.
    pub fn stored(&self) -> u32
        requires { length self.now.bytes < 2 ^ 32 }
        ensures { result ≡ length self.now.bytes }
    {
        self.bytes.len() as u32
    }

    /// Appends the bytes of it that stand in the file.
    pub fn push_bytes(&self, file: &mut Vec<u8>) -> Result<(), Memory>
        ensures { OnOk result (file.new.items ≡ file.old.items ++ self.now.bytes) }
    {
        file.extend_from_slice(&self.bytes)?;
        Ok(())
    }
}

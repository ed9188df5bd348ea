//! What a run changes.

use sq_memory::contents::Contents;

/// A hardware thread with its memory and its input.
#[derive(Drop)]
pub struct Hart {
    /// The program counter.
    pub pc: u32,
    /// x0 to x31.
    pub registers: [u32; 32],
    pub memory: Contents<u8>,
    /// The whole input, of which the first `read` bytes were read.
    pub input: Vec<u8>,
    pub read: usize,
    /// The address that LR reserved.
    pub reservation: Option<u32>,
    /// The places of the pieces that served the last fetch and the last write. They only save time.
    pub code_piece: usize,
    pub data_piece: usize,
}

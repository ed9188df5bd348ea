//! What becomes of blocks by the steps of a certificate.

mod carrying;
mod landing;
mod making;
pub mod replays;

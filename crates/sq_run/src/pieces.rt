//! The pieces of a file as the machine takes them.

ghost use Rattle.std.specs.Prelude.{◌≡◌, map, IfOk};
ghost use Rattle.sq_elf.specs.Images.{seen as image_piece};
ghost use Rattle.sq_machine.specs.Starts.{seen};
ghost use Rattle.sq_run.specs.FileRuns.{start_piece};

use sq_elf::{Image, Piece};
use sq_machine::LoadedPiece;
use sq_num::Memory;
use sq_system::{Extent, Piece as MachinePiece};
use std::alloc::Global;

/// The piece with its bytes.
fn loaded_piece<'a>(piece: &Piece<'a>) -> LoadedPiece<'a>
    ensures { seen result ≡ start_piece (image_piece piece.now) }
{
    let extent = Extent {
        address: piece.address,
        length: piece.length,
    };
    LoadedPiece {
        piece: MachinePiece {
            extent,
            flags: piece.flags,
        },
        bytes: piece.bytes,
    }
}

/// The pieces of the image in order.
pub fn loaded_pieces<'a>(alloc: Global, image: &Image<'a>) -> Result<Vec<LoadedPiece<'a>>, Memory>
    ensures { IfOk result (λ loaded. map seen loaded.items ≡ map start_piece image.now) }
{
    let mut loaded = Vec::new(alloc);
    for piece in image.pieces() {
        loaded.push(loaded_piece(piece))?;
    }
    Ok(loaded)
}

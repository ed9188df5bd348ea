//! The pieces of a text between its marks.

ghost use Rattle.std.specs.Prelude.{◌≡◌, ◌≢◌, ℕ, ◌<◌, ◌≤◌, ◌∷◌, length, slice_index, IfSome};
ghost use Rattle.std.specs.Option.{option_map};
ghost use Rattle.sq_cert.specs.Pieces.{pieces, pieces_behind};

/// Where the first mark stands, or the text ends.
fn first_mark(text: &[u8], mark: u8) -> usize
    ensures within { result ≤ length text.now }
    ensures plain { (k : ℕ) → k < result → slice_index text.now k ≢ mark }
    ensures mark { result < length text.now → slice_index text.now result ≡ mark }
{
    for (end, byte) in text.iter().enumerate() {
        if *byte == mark {
            return end;
        }
    }
    text.len()
}

/// The first piece, and the text behind its mark, where there is one.
pub(crate) fn first_piece(text: &[u8], mark: u8) -> (&[u8], Option<&[u8]>)
    ensures pieces { pieces mark text.now ≡ result.0.now ∷ pieces_behind mark (option_map (λ behind. behind.now) result.1) }
    ensures falls { IfSome result.1 (λ behind. length behind.now < length text.now) }
{
    let end = first_mark(text, mark);
    if end == text.len() {
        (text, None)
    } else {
        (&text[..end], Some(&text[end + 1..]))
    }
}

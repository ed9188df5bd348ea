//! The lines that commands print.

ghost use Rattle.std.specs.Prelude.{◌≡◌, ◌+◌, ◌≤◌, ◌++◌, length, decimal};
ghost use Rattle.sq_top.specs.Packing.{packed_text, sizes_text};
ghost use Rattle.sq_top.specs.Folding.{folded_text};
ghost use Rattle.sq_top.specs.Hexing.{hex_line};
ghost use Rattle.sq_top.specs.CertEndings.{proved_line};

use crate::folding::FoldedFile;
use sq_hex::line_count;
use sq_num::{Line, Packed};

/// The line that tells the sizes of a packing.
#[tactic(auto, unfolding(crate::specs::Packing::packed_text))]
pub fn packed_line(packed: &Packed) -> Line
    ensures { result ≡ packed_text packed.now }
{
    sizes_line(
        packed.text_before,
        packed.text_after,
        packed.loaded_before,
        packed.loaded_after,
    )
}

/// The line that tells the sizes of a folding.
#[tactic(auto, unfolding(crate::specs::Folding::folded_text))]
pub fn folded_line(folded: &FoldedFile) -> Line
    ensures { result ≡ folded_text folded.now }
{
    sizes_line(
        folded.text_before,
        folded.text_after,
        folded.loaded_before,
        folded.loaded_after,
    )
}

/// `text A -> B, loaded C -> D` and a newline: at most 63 bytes.
fn sizes_line(text_before: u32, text_after: u32, loaded_before: u32, loaded_after: u32) -> Line
    ensures { result ≡ sizes_text text_before text_after loaded_before loaded_after }
{
    let mut line = Line::new();
    push_labelled(&mut line, "text ", text_before);
    push_labelled(&mut line, " -> ", text_after);
    push_labelled(&mut line, ", loaded ", loaded_before);
    push_labelled(&mut line, " -> ", loaded_after);
    line.push_text("\n");
    line
}

/// `hex N`, N the records of the text, and a newline: at most 25 bytes.
#[tactic(auto, unfolding(crate::specs::Hexing::hex_line))]
pub fn hex_line(text: &[u8]) -> Line
    ensures { result ≡ hex_line text.now }
{
    let mut line = Line::new();
    line.push_text("hex ");
    line.push_number(line_count(text) as u64);
    line.push_text("\n");
    line
}

/// `proved N`, N the steps of a certificate, and a newline: at most 18 bytes.
pub fn proved_line(steps: u32) -> Line
    ensures { result ≡ proved_line steps }
{
    let mut line = Line::new();
    push_labelled(&mut line, "proved ", steps);
    line.push_text("\n");
    line
}

/// Appends a label and a number of at most ten digits.
pub fn push_labelled(line: &mut Line, label: &str, number: u32)
    requires { length line.old + length label.now + 10 ≤ 96 }
    ensures text { line.new ≡ line.old ++ label.now ++ decimal number }
    ensures short { length line.new ≤ length line.old + length label.now + 10 }
{
    line.push_text(label);
    line.push_number(u64::from(number));
}

//! A graph at its places.

ghost use Rattle.std.specs.Prelude.{◌≡◌};
ghost use Rattle.sq_isa.specs.Ranges.{IsSigned};
ghost use Rattle.sq_write.specs.Points.{new_address, new_start, call_link, offset_to};

use sq_graph::Graph;
use sq_isa::Reg;
use sq_layout::Places;

/// A graph, the places of its blocks and procedures, and where its text starts.
#[derive(Clone, Copy)]
pub(crate) struct Placed<'a> {
    pub g: &'a Graph,
    pub places: &'a Places,
    pub lo: u32,
}

impl Placed<'_> {
    ghost use Rattle.sq_write.specs.Standing.{IsPlaced};

    /// The new address of a block. Each name that the graph uses is a block's.
    pub fn address(&self, block: u32) -> u32
        requires { IsPlaced self.now }
        ensures { result ≡ new_address self.now.g.now.graph self.now.lo block }
    {
        self.places.address(block).unwrap_or(0)
    }

    /// Where a procedure starts.
    pub fn start(&self, procedure: u32) -> u32
        requires { IsPlaced self.now }
        ensures { result ≡ new_start self.now.g.now.graph self.now.lo procedure }
    {
        self.places.procedure(procedure).unwrap_or(0)
    }

    /// The register that holds where a procedure returns to.
    pub fn link(&self, procedure: u32) -> Reg
        ensures { result ≡ call_link self.now.g.now.graph procedure }
    {
        if procedure < self.g.procedures() {
            self.g.link(procedure)
        } else {
            Reg::from_low_bits(0)
        }
    }
}

/// The offset that leads from one address to another.
pub(crate) fn offset_to(from: u32, to: u32) -> i32
    requires { IsSigned 32 (offset_to from to) }
    ensures { result ≡ offset_to from to }
{
    (i64::from(to) - i64::from(from)) as i32
}

//! Certificates, and their texts.

ghost use Rattle.std.specs.Prelude.{◌≡◌, [], ◌∷◌, ◌++◌, length, IfOk, OnOk, OnErr};
ghost use Rattle.sq_cert.specs.Texts.{text_of};

use crate::line::push_step;
use crate::step::Step;
use sq_num::Memory;
use std::alloc::Global;
use std::marker::Model;

/// The steps that lead from a file to its output, in their order.
#[derive(Debug, Drop)]
pub struct Cert {
    steps: Vec<Step>,
}

impl Model for Cert {
    ghost use Rattle.std.specs.Prelude.{List};
    ghost use Rattle.sq_cert.specs.declared.step.Step.{Step};

    ghost Value = { List Step };

    ghost view = { λ c. c.steps.items };
}

impl Cert {
    /// No steps. It takes no memory.
    pub fn new(alloc: Global) -> Cert
        ensures { result ≡ [] }
    {
        Cert {
            steps: Vec::new(alloc),
        }
    }

    /// Appends a step, or leaves the steps as they were for want of memory.
    pub fn push(&mut self, step: Step) -> Result<(), Memory>
        ensures ok { OnOk result (self.new ≡ self.old ++ step ∷ []) }
        ensures err { OnErr result (self.new ≡ self.old) }
    {
        self.steps.push(step)?;
        Ok(())
    }

    /// The steps in their order.
    pub fn steps(&self) -> &[Step]
        ensures { result.now ≡ self.now }
    {
        self.steps.as_slice()
    }

    /// The text of the certificate.
    pub fn text(&self) -> Result<Vec<u8>, Memory>
        ensures { IfOk result (λ text. text.items ≡ text_of self.now) }
    {
        let mut text = Vec::new(*self.steps.allocator());
        text.extend_from_slice(b"squeeze certificate 1\n")?;
        for step in &self.steps {
            push_step(&mut text, step)?;
        }
        text.extend_from_slice(b"end\n")?;
        Ok(text)
    }
}

//! Certificates as they are read.

ghost use Rattle.std.specs.Prelude.{◌≡◌, ◌<◌, ◌≤◌, ◌+◌, nat_eq, if◌then◌else◌, length, [], List, Some, None, IfOk};
ghost use Rattle.std.specs.List.{All};
ghost use Rattle.sq_cert.specs.declared.step.Step.{Step as Told};
ghost use Rattle.sq_cert.specs.Pieces.{newline, pieces};
ghost use Rattle.sq_cert.specs.Readings.{reading, reading_of, reading_behind};
ghost use Rattle.sq_cert.specs.Steps.{HasForm};
ghost use Rattle.sq_cert.specs.Texts.{text_of};

use crate::cert::Cert;
use crate::line::step_of;
use crate::piece::first_piece;
use sq_num::Memory;
use std::alloc::Global;

/// What a text says as a certificate.
#[derive(Debug, Drop)]
pub struct Reading {
    /// The steps in front of the first line at fault.
    pub cert: Cert,
    /// The number of that line, counted from 1, or None where the text is that of the certificate.
    pub fault: Option<u32>,
}

/// The line behind the last one, where it is at fault.
fn fault_behind(behind: &[u8], last: u32) -> Option<u32>
    requires { last < 4294967295 }
    ensures { result ≡ (if nat_eq (length behind.now) 0 then None else Some (last + 1)) }
{
    if behind.is_empty() {
        None
    } else {
        Some(last + 1)
    }
}

/// What the lines behind the first one say.
fn read_steps(alloc: Global, lines: &[u8]) -> Result<Reading, Memory>
    requires { length lines.now ≤ 134217728 }
    ensures { IfOk result (λ said. said ≡ reading_behind [] (pieces newline lines.now)) }
{
    let mut cert = Cert::new(alloc);
    let mut rest = lines;
    let mut number = 2u32;
    loop {
        let (line, behind) = first_piece(rest, b'\n');
        let Some(behind) = behind else {
            let fault = Some(number);
            return Ok(Reading { cert, fault });
        };
        if line == b"end".as_slice() {
            let fault = fault_behind(behind, number);
            return Ok(Reading { cert, fault });
        }
        let Some(step) = step_of(alloc, line)? else {
            let fault = Some(number);
            return Ok(Reading { cert, fault });
        };
        cert.push(step)?;
        rest = behind;
        number += 1;
    }
}

/// What the text says.
fn read_text(alloc: Global, text: &[u8]) -> Result<Reading, Memory>
    requires { length text.now ≤ 134217728 }
    ensures { IfOk result (λ said. said ≡ reading_of text.now) }
{
    let (first, lines) = first_piece(text, b'\n');
    if let Some(lines) = lines {
        if first == b"squeeze certificate 1".as_slice() {
            return read_steps(alloc, lines);
        }
    }
    let cert = Cert::new(alloc);
    let fault = Some(1);
    Ok(Reading { cert, fault })
}

/// What the text says: the steps of which it is the text, or its first line at fault and the steps in front of that.
pub fn read_cert(alloc: Global, text: &[u8]) -> Result<Reading, Memory>
    requires { length text.now ≤ 134217728 }
    ensures value { IfOk result (λ said. said ≡ reading_of text.now) }
    ensures form { IfOk result (λ said. All HasForm said.cert) }
    ensures few { IfOk result (λ said. length said.cert ≤ length text.now + 1) }
    ensures text { IfOk result (λ said. said.fault ≡ None → text.now ≡ text_of said.cert) }
    ensures each { IfOk result (λ said. (steps : List Told) → All HasForm steps → text.now ≡ text_of steps → said ≡ reading steps None) }
{
    read_text(alloc, text)
}

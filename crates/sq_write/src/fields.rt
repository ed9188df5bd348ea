//! Appending fields to a file, least byte first.

ghost use Rattle.std.specs.Prelude.{◌≡◌, ◌++◌, length, replicate, OnOk};
ghost use Rattle.sq_write.specs.Output.{words, halves, gap};

use byteorder::{ByteOrder, LittleEndian};
use sq_num::Memory;

/// Appends each number as four bytes.
pub fn push_words(file: &mut Vec<u8>, numbers: &[u32]) -> Result<(), Memory>
    ensures { OnOk result (file.new.items ≡ file.old.items ++ words numbers.now) }
{
    for number in numbers {
        let mut field = [0; 4];
        LittleEndian::write_u32(&mut field, *number);
        file.extend_from_slice(&field)?;
    }
    Ok(())
}

/// Appends each number as two bytes.
pub fn push_halves(file: &mut Vec<u8>, numbers: &[u16]) -> Result<(), Memory>
    ensures { OnOk result (file.new.items ≡ file.old.items ++ halves numbers.now) }
{
    for number in numbers {
        let mut field = [0; 2];
        LittleEndian::write_u16(&mut field, *number);
        file.extend_from_slice(&field)?;
    }
    Ok(())
}

/// Appends zeros up to a multiple of 4.
pub fn push_gap(file: &mut Vec<u8>) -> Result<(), Memory>
    ensures { OnOk result (file.new.items ≡ file.old.items ++ replicate (gap (length file.old.items)) 0) }
{
    let gap = (4 - file.len() % 4) % 4;
    let zeros = [0; 3];
    file.extend_from_slice(&zeros[..gap])?;
    Ok(())
}

/// Appends zeros up to a multiple of 4, and then the part.
pub fn push_part(file: &mut Vec<u8>, part: &[u8]) -> Result<(), Memory>
    ensures { OnOk result (file.new.items ≡ file.old.items ++ (replicate (gap (length file.old.items)) 0 ++ part.now)) }
{
    push_gap(file)?;
    file.extend_from_slice(part)?;
    Ok(())
}

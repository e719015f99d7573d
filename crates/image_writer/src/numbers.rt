//! Numbers, the highest byte first.

ghost use Rattle.std.specs.Prelude.{◌≡◌, ◌++◌, ◌<◌, ◌^◌, length, OnOk};
ghost use Rattle.std.specs.List.{flat_map, All};
ghost use Rattle.classfile.specs.Spelling.{u1, u2, u4};
ghost use Rattle.image_format.specs.Texts.{u8, units_text, named_text};

use byteorder::{BigEndian, ByteOrder};
use std::alloc::AllocError;

pub(crate) fn push_u8(out: &mut Vec<u8>, number: u8) -> Result<(), AllocError>
    ensures { OnOk result (out.new.items ≡ out.old.items ++ u1 number) }
{
    out.extend_from_slice(&number.to_be_bytes())
}

pub(crate) fn push_u16(out: &mut Vec<u8>, number: u16) -> Result<(), AllocError>
    ensures { OnOk result (out.new.items ≡ out.old.items ++ u2 number) }
{
    let mut bytes = [0; 2];
    BigEndian::write_u16(&mut bytes, number);
    out.extend_from_slice(&bytes)
}

pub(crate) fn push_u32(out: &mut Vec<u8>, number: u32) -> Result<(), AllocError>
    ensures { OnOk result (out.new.items ≡ out.old.items ++ u4 number) }
{
    let mut bytes = [0; 4];
    BigEndian::write_u32(&mut bytes, number);
    out.extend_from_slice(&bytes)
}

pub(crate) fn push_u64(out: &mut Vec<u8>, number: u64) -> Result<(), AllocError>
    ensures { OnOk result (out.new.items ≡ out.old.items ++ u8 number) }
{
    let mut bytes = [0; 8];
    BigEndian::write_u64(&mut bytes, number);
    out.extend_from_slice(&bytes)
}

/// The count of units, and the units.
pub(crate) fn push_units(out: &mut Vec<u8>, units: &[u16]) -> Result<(), AllocError>
    requires { length units.now < 2 ^ 16 }
    ensures text { OnOk result (out.new.items ≡ out.old.items ++ units_text units.now) }
    // As the type has it.
    ensures units { All (λ unit. unit < 2 ^ 16) units.now }
{
    push_u16(out, units.len() as u16)?;
    for unit in units {
        push_u16(out, *unit)?;
    }
    Ok(())
}

/// The count of bytes, and the bytes.
pub(crate) fn push_named(out: &mut Vec<u8>, name: &[u8]) -> Result<(), AllocError>
    requires { length name.now < 2 ^ 16 }
    ensures { OnOk result (out.new.items ≡ out.old.items ++ named_text name.now) }
{
    push_u16(out, name.len() as u16)?;
    out.extend_from_slice(name)
}

//! Bytes in hexadecimal digits.

ghost use Rattle.std.specs.Prelude.{◌≡◌, ◌++◌, IfOk, OnOk};
ghost use Rattle.std.specs.List.{flat_map};
ghost use Rattle.std.specs.String.{string_bytes};
ghost use Rattle.inspection.specs.Texts.{digest_in, hex_of, version_in};

use std::alloc::{AllocError, Global};

/// How many bytes a digest has.
const DIGEST: usize = 32;

/// The version that the bytes of an image say.
pub(crate) fn version_of(bytes: &[u8]) -> u32
    ensures { result ≡ version_in bytes.now }
{
    let high = bytes.get(4).copied().unwrap_or(0);
    let low = bytes.get(5).copied().unwrap_or(0);
    u32::from(high) * 256 + u32::from(low)
}

/// The digest at the end of the bytes of an image, in hexadecimal digits.
pub(crate) fn digest_text(alloc: Global, bytes: &[u8]) -> Result<String, AllocError>
    ensures { IfOk result (λ text. string_bytes text ≡ flat_map hex_of (digest_in bytes.now)) }
{
    let (_, digest) = bytes.split_at(bytes.len().saturating_sub(DIGEST));
    let mut text = String::new(alloc);
    for byte in digest {
        add_byte(&mut text, *byte)?;
    }
    Ok(text)
}

/// Adds a byte in two digits.
#[tactic(auto, using(std::proofs::lemmas::Fmt::hex_byte))]
fn add_byte(text: &mut String, byte: u8) -> Result<(), AllocError>
    ensures { OnOk result (string_bytes text.new ≡ string_bytes text.old ++ hex_of byte) }
{
    write!(text, "{byte:02x}")
}

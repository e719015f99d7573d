//! What stands round the parts of an image: its magic number, its version, its digest.

ghost use Rattle.std.specs.Prelude.{◌≡◌, ◌≢◌, IfOk, IfErr, MatchOption};
ghost use Rattle.std.specs.Bool.{Decides};
ghost use Rattle.sha2.specs.Sha256.{sha256};
ghost use Rattle.classfile.specs.Spelling.{u2};
ghost use Rattle.image_format.specs.declared.version.Version.{Version as Format};
ghost use Rattle.image_format.specs.Texts.{version_number};
ghost use Rattle.image_parser.specs.HeaderFaults.{HeaderFails, IsFramed, IsSealed};
ghost use Rattle.image_parser.specs.reading.Frames.{IsUnsealed};

use image_format::version::Version;
use sha2::{Digest, Sha256};

/// What is wrong with bytes as an image before its parts are looked into.
#[derive(Clone, Copy, Debug)]
pub(crate) enum HeaderFault {
    /// There are fewer than 42 bytes.
    Truncated,
    /// They do not begin with `JPIM`.
    Magic,
    /// The version is neither 1 nor 2.
    Version,
    /// The last 32 bytes are not the digest of all before.
    Digest,
}

/// Whether bytes are the same.
pub(crate) fn is_same(a: &[u8], b: &[u8]) -> bool
    ensures { Decides result (a.now ≡ b.now) }
{
    a == b
}

/// Whether these are the digest of some bytes.
fn is_digest(front: &[u8], digest: &[u8]) -> bool
    ensures { Decides result (digest.now ≡ sha256 front.now) }
{
    let mut hasher = Sha256::new();
    hasher.update(front);
    let wanted = hasher.finalize();
    is_same(digest, &wanted)
}

/// The version of this number.
fn version_of(number: &[u8]) -> Option<Version>
    ensures { MatchOption result ((v : Format) → number.now ≢ u2 (version_number v))
        (λ v. number.now ≡ u2 (version_number v)) }
{
    if is_same(number, &[0, 1]) {
        return Some(Version::One);
    }
    if is_same(number, &[0, 2]) {
        return Some(Version::Two);
    }
    None
}

/// Whether the last 32 bytes are the digest of all before.
pub(crate) fn is_sealed(bytes: &[u8]) -> bool
    ensures { Decides result (IsSealed bytes.now) }
{
    let (front, digest) = bytes.split_at(bytes.len().saturating_sub(32));
    is_digest(front, digest)
}

/// The version, and what stands between it and the digest, which is not looked at.
///
/// # Errors
/// The first of these that holds: fewer than 42 bytes, another magic number, another version.
pub(crate) fn unsealed_parts(bytes: &[u8]) -> Result<(Version, &[u8]), HeaderFault>
    ensures parts { IfOk result (λ x. IsUnsealed bytes.now x.0 x.1.now) }
    ensures fault { IfErr result (HeaderFails bytes.now) }
{
    if bytes.len() < 42 {
        return Err(HeaderFault::Truncated);
    }
    let (front, _) = bytes.split_at(bytes.len() - 32);
    let (magic, rest) = front.split_at(4);
    if !is_same(magic, &[0x4A, 0x50, 0x49, 0x4D]) {
        return Err(HeaderFault::Magic);
    }
    let (number, parts) = rest.split_at(2);
    let Some(version) = version_of(number) else {
        return Err(HeaderFault::Version);
    };
    Ok((version, parts))
}

/// The version, and what stands between it and the digest.
///
/// # Errors
/// The first of these that holds: fewer than 42 bytes, another magic number, another version, another digest.
pub(crate) fn parts_of(bytes: &[u8]) -> Result<(Version, &[u8]), HeaderFault>
    ensures parts { IfOk result (λ x. IsFramed bytes.now x.0 x.1.now) }
    ensures fault { IfErr result (HeaderFails bytes.now) }
{
    let (version, parts) = unsealed_parts(bytes)?;
    if !is_sealed(bytes) {
        return Err(HeaderFault::Digest);
    }
    Ok((version, parts))
}

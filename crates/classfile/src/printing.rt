//! The characters of 16-bit units, for a reader.

ghost use Rattle.std.specs.Prelude.{◌≡◌, ◌∷◌, ◌<◌, ◌&&◌, [], length, unwrap_or, if◌then◌else◌};
ghost use Rattle.std.specs.Prelude.{IfSome, MatchOption};
ghost use Rattle.std.specs.Char.Utf16.{is_high_surrogate, is_low_surrogate, surrogate_pair_char, lone_unit_char};
ghost use Rattle.classfile.specs.Printing.{printed_chars};

/// The character that two units spell, where they are a pair of surrogates.
fn character_of_pair(high: u16, low: u16) -> Option<char>
    ensures { result ≡ (if is_high_surrogate high && is_low_surrogate low
        then Some (surrogate_pair_char high low) else None) }
{
    if 0xD800 <= high && high < 0xDC00 && 0xDC00 <= low && low < 0xE000 {
        let offset = u32::from(high - 0xD800) * 0x400 + u32::from(low - 0xDC00);
        char::from_u32(0x1_0000 + offset)
    } else {
        None
    }
}

/// The character of a unit by itself, and `?` of a surrogate.
fn character_alone(unit: u16) -> char
    ensures { result ≡ unwrap_or (lone_unit_char unit) 63 }
{
    char::from_u32(u32::from(unit)).unwrap_or('?')
}

/// The first character of units, and the units after it. A pair of surrogates is one character, and a surrogate that
/// has no partner is `?`.
pub(crate) fn first_character(units: &[u16]) -> Option<(char, &[u16])>
    ensures shorter { IfSome result (λ x. length x.1.now < length units.now) }
    ensures first { MatchOption result (units.now ≡ [])
        (λ x. printed_chars units.now ≡ x.0 ∷ printed_chars x.1.now) }
{
    let (first, rest) = units.split_first()?;
    let Some((second, after)) = rest.split_first() else {
        return Some((character_alone(*first), rest));
    };
    match character_of_pair(*first, *second) {
        Some(character) => Some((character, after)),
        None => Some((character_alone(*first), rest)),
    }
}

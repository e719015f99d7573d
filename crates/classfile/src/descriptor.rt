//! Descriptors of fields and methods, read byte by byte.

ghost use Rattle.std.specs.Prelude.{◌≡◌, ◌↔◌, ◌==◌, IsTrue, if◌then◌else◌};
ghost use Rattle.classfile.specs.Grammar.{IsMethodDescriptor};
ghost use Rattle.classfile.specs.reading.Descriptors.{is_base, step, scan, is_field, is_method, is_class_name};
ghost use Rattle.classfile.specs.reading.Descriptors.{lacks_semicolon};

/// A state of the scan of a descriptor: what may stand next.
#[derive(Clone, Copy, Drop)]
pub(crate) enum ScanState {
    /// The bracket before the parameters.
    Open,
    /// A type after `depth` `[`, or the end of the parameters.
    Parameter { depth: u8 },
    /// A parameter's class name.
    ParameterName { is_empty: bool },
    /// The last type, after `depth` `[`.
    Last { depth: u8, may_be_void: bool },
    LastName { is_empty: bool },
    End,
    Bad,
}

/// Whether a byte is the letter of a base type (JVMS 4.3.2, table 4.3-A).
fn is_base(byte: u8) -> bool
    ensures { result ≡ is_base byte }
{
    matches!(byte, b'B' | b'C' | b'D' | b'F' | b'I' | b'J' | b'S' | b'Z')
}

#[tactic(auto, unfolding(crate::specs::reading::Descriptors::step))]
fn parameter_step(depth: u8, byte: u8) -> ScanState
    ensures { result ≡ step (ScanState.Parameter depth) byte }
{
    match byte {
        b')' if depth == 0 => ScanState::Last {
            depth: 0,
            may_be_void: true,
        },
        b'[' if depth < 255 => ScanState::Parameter { depth: depth + 1 },
        b'L' => ScanState::ParameterName { is_empty: true },
        _ if is_base(byte) => ScanState::Parameter { depth: 0 },
        _ => ScanState::Bad,
    }
}

#[tactic(auto, unfolding(crate::specs::reading::Descriptors::step))]
fn last_step(depth: u8, may_be_void: bool, byte: u8) -> ScanState
    ensures { result ≡ step (ScanState.Last depth may_be_void) byte }
{
    match byte {
        b'V' if may_be_void => ScanState::End,
        b'[' if depth < 255 => ScanState::Last {
            depth: depth + 1,
            may_be_void: false,
        },
        b'L' => ScanState::LastName { is_empty: true },
        _ if is_base(byte) => ScanState::End,
        _ => ScanState::Bad,
    }
}

/// One more byte of a class name, which a `;` ends: then comes the state `after`, if the name isn't empty.
fn name_step(is_empty: bool, inside: ScanState, after: ScanState, byte: u8) -> ScanState
    ensures { result ≡ (if byte == 59 then (if is_empty then ScanState.Bad else after) else inside) }
{
    match byte {
        b';' if is_empty => ScanState::Bad,
        b';' => after,
        _ => inside,
    }
}

#[tactic(auto, unfolding(crate::specs::reading::Descriptors::step))]
fn step(state: ScanState, byte: u8) -> ScanState
    ensures { result ≡ step state byte }
{
    match state {
        ScanState::Open if byte == b'(' => ScanState::Parameter { depth: 0 },
        ScanState::Parameter { depth } => parameter_step(depth, byte),
        ScanState::ParameterName { is_empty } => {
            let inside = ScanState::ParameterName { is_empty: false };
            name_step(is_empty, inside, ScanState::Parameter { depth: 0 }, byte)
        }
        ScanState::Last { depth, may_be_void } => last_step(depth, may_be_void, byte),
        ScanState::LastName { is_empty } => {
            let inside = ScanState::LastName { is_empty: false };
            name_step(is_empty, inside, ScanState::End, byte)
        }
        ScanState::Open | ScanState::End | ScanState::Bad => ScanState::Bad,
    }
}

/// Whether the bytes lead from a state to the end. Nothing does from a bad state.
#[tactic(auto, using(crate::proofs::DescriptorsLemmas::bad_stays_bad))]
fn scan(state: ScanState, bytes: &[u8]) -> bool
    ensures { result ≡ scan state bytes.now }
{
    let mut state = state;
    for byte in bytes {
        if matches!(state, ScanState::Bad) {
            return false;
        }
        state = step(state, *byte);
    }
    matches!(state, ScanState::End)
}

pub(crate) fn is_field(bytes: &[u8]) -> bool
    ensures { result ≡ is_field bytes.now }
{
    scan(
        ScanState::Last {
            depth: 0,
            may_be_void: false,
        },
        bytes,
    )
}

pub(crate) fn is_method(bytes: &[u8]) -> bool
    ensures { result ≡ is_method bytes.now }
{
    scan(ScanState::Open, bytes)
}

/// Whether a text is a method descriptor (JVMS 4.3.3).
pub fn is_method_descriptor(text: &[u8]) -> bool
    ensures { IsTrue result ↔ IsMethodDescriptor text.now }
{
    is_method(text)
}

fn lacks_semicolon(bytes: &[u8]) -> bool
    ensures { result ≡ lacks_semicolon bytes.now }
{
    let mut lacks = true;
    for byte in bytes {
        lacks = (*byte != b';') & lacks;
    }
    lacks
}

/// An array's descriptor, or a name that is not empty and has no `;`.
#[tactic(auto, unfolding(crate::specs::reading::Descriptors::is_class_name))]
pub(crate) fn is_class_name(bytes: &[u8]) -> bool
    ensures { result ≡ is_class_name bytes.now }
{
    match bytes {
        [] => false,
        [b'[', ..] => is_field(bytes),
        [_, ..] => lacks_semicolon(bytes),
    }
}

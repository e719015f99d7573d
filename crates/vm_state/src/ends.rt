//! How threads end.

ghost use Rattle.std.specs.Prelude.{◌≡◌};
ghost use Rattle.vm_state.specs.Endings.{ending_of};

use built_in::class_id::ClassId;
use std::fmt;

/// Why a thread could not go on.
#[derive(Clone, Copy, Debug)]
pub enum FaultKind {
    /// A rule was broken that JVMS leaves to verification.
    Fault,
    /// Something that the machine leaves out.
    Unsupported,
    /// A class, field or method that is not there.
    Missing,
}

impl fmt::Display for FaultKind {
    fn fmt<W: fmt::Write>(&self, f: &mut fmt::Formatter<W>) -> fmt::Result {
        match self {
            FaultKind::Fault => write!(f, "Fault"),
            FaultKind::Unsupported => write!(f, "Unsupported"),
            FaultKind::Missing => write!(f, "Missing"),
        }
    }
}

/// How a thread ended.
#[derive(Clone, Copy)]
pub enum End {
    /// Its `main` returned.
    Returned,
    /// An exception of this class was caught by no frame (JVMS 2.10).
    Uncaught(ClassId),
    Faulted(FaultKind),
}

/// How far a thread has come, as it is seen from outside.
#[derive(Clone, Copy, Debug)]
pub enum Ending {
    /// It has not ended.
    Going,
    Returned,
    Uncaught(ClassId),
    Faulted(FaultKind),
}

impl Ending {
    /// What is seen of a thread that ended so.
    pub fn of(end: End) -> Ending
        ensures { result ≡ ending_of end }
    {
        match end {
            End::Returned => Ending::Returned,
            End::Uncaught(class) => Ending::Uncaught(class),
            End::Faulted(kind) => Ending::Faulted(kind),
        }
    }
}

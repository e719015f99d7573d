//! Verdicts on classes.

ghost use Rattle.std.specs.Prelude.{◌≡◌, ◌<◌, length, slice_get, slice_set};
ghost use Rattle.initializer_analysis.specs.Words.{mark_word, reason_word};

use std::fmt;
use std::marker::Model;
use use_graph::mark::Mark;

/// Why a class is not initialized at build time. The last four are found by running its initializer, and by nothing
/// else.
#[derive(Clone, Copy)]
pub enum Reason {
    /// It was asked to be initialized at run time.
    Forced,
    /// Its code bears this mark, and none before it.
    Marked(Mark),
    /// It uses itself by way of others.
    Cycle,
    /// It uses the given class of this number, which is not accepted, and none before it that is not.
    DependsOn(u32),
    /// Its initializer raises an exception, also one that it would catch.
    Raised,
    /// Its initializer looks into an object of another class, or changes one.
    ForeignObject,
    /// Its initializer costs more than the budget.
    Budget,
    /// Its initializer could not go on.
    Faulted,
}

impl Reason {
    /// Its word, for a reader: its name, or that of the mark.
    pub fn word(self) -> &'static str
        ensures { result.now ≡ reason_word self }
    {
        match self {
            Reason::Forced => "Forced",
            Reason::Marked(mark) => mark_word(mark),
            Reason::Cycle => "Cycle",
            Reason::DependsOn(_) => "DependsOn",
            Reason::Raised => "Raised",
            Reason::ForeignObject => "ForeignObject",
            Reason::Budget => "Budget",
            Reason::Faulted => "Faulted",
        }
    }
}

fn mark_word(mark: Mark) -> &'static str
    ensures { result.now ≡ mark_word mark }
{
    match mark {
        Mark::Prints => "Prints",
        Mark::Throws => "Throws",
        Mark::Monitors => "Monitors",
        Mark::ForeignWrite => "ForeignWrite",
        Mark::ForeignRead => "ForeignRead",
        Mark::Unsupported => "Unsupported",
        Mark::Missing => "Missing",
    }
}

// By hand, since a derived one would ask for one of each mark.
impl fmt::Debug for Reason {
    fn fmt<W: fmt::Write>(&self, f: &mut fmt::Formatter<W>) -> fmt::Result {
        match self {
            Reason::DependsOn(class) => write!(f, "DependsOn({class})"),
            reason => f.write_str(reason.word()),
        }
    }
}

/// What becomes of a class at build time.
#[derive(Clone, Copy)]
pub enum Verdict {
    /// It is accepted, after all classes of lower waves.
    Wave(usize),
    Refused(Reason),
}

/// The verdicts on all given classes, by their numbers.
#[derive(Drop)]
pub struct Verdicts {
    verdicts: Vec<Verdict>,
}

impl Model for Verdicts {
    ghost use Rattle.std.specs.Prelude.{List};
    ghost use Rattle.initializer_analysis.specs.declared.verdict.Verdict.{Verdict as Held};

    ghost Value = { List Held };

    ghost view = { λ v. v.verdicts.items };
}

impl Verdicts {
    /// These verdicts, by numbers of classes.
    pub fn of(verdicts: Vec<Verdict>) -> Verdicts
        ensures { result ≡ verdicts.items }
    {
        Verdicts { verdicts }
    }

    /// The verdicts, by the numbers of the classes.
    pub fn as_slice(&self) -> &[Verdict]
        ensures { result.now ≡ self.now }
    {
        self.verdicts.as_slice()
    }

    /// Puts the verdict on a class in its place.
    pub fn put(&mut self, class: u32, verdict: Verdict)
        requires { class < length self.old }
        ensures { self.new ≡ slice_set self.old class verdict }
    {
        self.verdicts[class as usize] = verdict;
    }

    /// The verdict on a class, if it is given.
    pub fn of_class(&self, class: u32) -> Option<Verdict>
        ensures { result ≡ slice_get self.now class }
    {
        self.verdicts.get(class as usize).copied()
    }
}

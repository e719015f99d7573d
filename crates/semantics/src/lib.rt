//! What a program does, apart from any opcode: one instruction as a tree of accesses to what threads share, one
//! step of one thread, runs over schedules, what is seen of them, the classes that may be initialized at build time,
//! and the two starts. The definitions stand in `specs/`. Each function here is a law: its contract is what is proved,
//! and calling it does nothing.
#![tactic(auto)]

ghost use Rattle.semantics.specs.Laws.{RunsJoin};
ghost use Rattle.semantics.specs.Answers.{AnswersDecide};
ghost use Rattle.semantics.specs.Alone.{StepsAgree, StopsAgree};
ghost use Rattle.semantics.specs.Settling.{StopExcludes, OneStop, SettlesOrStops};
ghost use Rattle.semantics.specs.Acceptance.{OneRegion, WiderEnvironment};
ghost use Rattle.semantics.specs.Erasure.{ErasedUnseen};
ghost use Rattle.semantics.specs.Headline.{LazyToImage, ImageToLazy};
ghost use Rattle.semantics.specs.Drops.{DroppedUnseen};
ghost use Rattle.semantics.specs.Soundness.{RunsWithin, StopsWithin, LowerIsClosed, ParentsAreUsed};

/// A run over one schedule, and then one over another, is a run over both, one after the other.
pub fn runs_join()
    ensures { RunsJoin }
{}

/// How an instruction ends, and what it does before, depend on its frame and on the answers of its accesses alone.
pub fn answers_decide()
    ensures { AnswersDecide }
{}

/// An initializer that runs alone leaves the same region at the same cost, whether each of its calls is taken as one
/// whole body or instruction by instruction.
pub fn steps_agree()
    ensures { StepsAgree }
{}

/// Big steps and small steps of an initializer are stopped by the same thing.
pub fn stops_agree()
    ensures { StopsAgree }
{}

/// An initializer that settles within a budget is not refused or barred within it, and one that is refused or barred
/// is so for one reason.
pub fn refused_once()
    ensures excludes { StopExcludes }
    ensures one { OneStop }
{}

/// Within any budget each initializer settles, is refused, or is barred by what is seen in its code.
pub fn settles_or_stops()
    ensures { SettlesOrStops }
{}

/// An accepted class has one region.
pub fn one_region()
    ensures { OneRegion }
{}

/// With more accepted classes at hand an initializer leaves the same region at the same cost.
pub fn wider_environment()
    ensures { WiderEnvironment }
{}

/// Nobody sees from outside what is erased of a lazy world: both worlds have printed the same, and their threads have
/// come as far.
pub fn erased_unseen()
    ensures { ErasedUnseen }
{}

/// What the lazy procedure shows of a program under some schedule, a run from its image shows under some schedule.
pub fn lazy_to_image()
    ensures { LazyToImage }
{}

/// What a run from a program's image shows under some schedule, the lazy procedure shows under some schedule.
pub fn image_to_lazy()
    ensures { ImageToLazy }
{}

/// A run from an image, and one from that image without objects that nothing else in it names, show the same.
pub fn dropped_unseen()
    ensures { DroppedUnseen }
{}

/// What an analysis says of code holds of whatever runs: in each world that a run leads to, a frame that stands on the
/// initialization of a class is of an activity that may run for it, and what it needs or begins is a use of the class.
pub fn runs_within()
    ensures { RunsWithin }
{}

/// A class whose code bars nothing, with all its uses at hand, whose finals refer to objects of classes at hand, is not
/// barred at build time: where it is stopped, it is refused.
pub fn stops_within()
    ensures { StopsWithin }
{}

/// With all accepted classes of lower waves at hand, finals at hand refer to objects of classes at hand alone.
pub fn lower_is_closed()
    ensures { LowerIsClosed }
{}

/// The parents of a class of the program are among the uses that an analysis finds by its bounds.
pub fn parents_are_used()
    ensures { ParentsAreUsed }
{}

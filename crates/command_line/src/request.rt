//! What a command line requests.
ghost use Rattle.std.specs.Prelude.{◌≡◌};
ghost use Rattle.command_line.specs.Files.{building_with, files_of, with_files};

/// A command and what its arguments request. Texts are as given.
#[derive(Drop)]
pub enum Request<'a> {
    /// `audit`: report where the threads of entries may end because something is not implemented or missing.
    Audit(Audit<'a>),
    /// `build`: write an image of class files.
    Build(Build<'a>),
    /// `explain`: show every reason that a class has.
    Explain(Explain<'a>),
    /// `inspect`: print what an image holds.
    Inspect(Inspect<'a>),
    /// `lazy`: run class files by turns.
    Lazy(Lazy<'a>),
    /// `renew`: write an image again, in the version that is written today.
    Renew(Renew<'a>),
    /// `replay`: run an image by a journal.
    Replay(Replay<'a>),
    /// `report`: show which classes are initialized at build time.
    Report(Report<'a>),
    /// `run`: run an image, by threads or by turns.
    Run(Run<'a>),
}

/// What the arguments of `audit` request.
#[derive(Drop)]
pub struct Audit<'a> {
    /// The names of the entry classes, with commas between them.
    pub entries: &'a str,
    /// The names of the class files, in the order given.
    pub files: Vec<&'a str>,
    /// Whether a refusal is explained.
    pub verbose: bool,
}

/// What the arguments of `explain` request.
#[derive(Drop)]
pub struct Explain<'a> {
    /// The name of a class, with dots, or `all`.
    pub class: &'a str,
    /// The build that is asked about.
    pub building: Building<'a>,
}

/// What the arguments of `build` request.
#[derive(Drop)]
pub struct Build<'a> {
    /// The name of the image's file.
    pub image: &'a str,
    /// The name of the file that gets the report.
    pub report: Option<&'a str>,
    /// The name of the file that gets the page.
    pub page: Option<&'a str>,
    /// What it is built of, and how.
    pub building: Building<'a>,
    /// How many threads of the system run initializers.
    pub workers: u32,
}

/// What the arguments of `report` request.
#[derive(Drop)]
pub struct Report<'a> {
    /// The name of the file that gets the page.
    pub page: Option<&'a str>,
    /// The build that is asked about.
    pub building: Building<'a>,
}

/// What the arguments of `build`, `report` and `explain` request of a build.
#[derive(Drop)]
pub struct Building<'a> {
    /// The list of the option `--initialize-at-run-time`.
    pub run_time: Option<&'a str>,
    /// The list of the option `--initialize-at-build-time`.
    pub build_time: Option<&'a str>,
    /// What the initializer of each class may cost.
    pub budget: u64,
    /// The names of the class files, in the order given.
    pub files: Vec<&'a str>,
    /// Whether a refusal is explained.
    pub verbose: bool,
}

/// What the arguments of `lazy` request.
#[derive(Drop)]
pub struct Lazy<'a> {
    /// The names of the entry classes, with commas between them.
    pub entries: &'a str,
    /// The greatest number of steps of the run, from 1 to 10^15.
    pub limit: u64,
    /// Whether it is shown where the threads stand.
    pub stacks: bool,
    /// The names of the class files, in the order given.
    pub files: Vec<&'a str>,
    /// Whether a refusal is explained.
    pub verbose: bool,
}

/// What the arguments of `renew` request.
#[derive(Drop)]
pub struct Renew<'a> {
    /// The name of the file that gets the new image.
    pub new: &'a str,
    /// The name of the image's file.
    pub image: &'a str,
    /// Whether a refusal is explained.
    pub verbose: bool,
}

/// What the arguments of `inspect` request.
#[derive(Drop)]
pub struct Inspect<'a> {
    /// The name of the image's file.
    pub image: &'a str,
    /// Whether a refusal is explained.
    pub verbose: bool,
}

/// What the arguments of `run` request.
#[derive(Drop)]
pub struct Run<'a> {
    /// The names of the entry classes, with commas between them.
    pub entries: &'a str,
    /// The greatest number of steps of the run, from 1 to 10^15.
    pub limit: u64,
    /// Whether the threads take turns.
    pub turns: bool,
    /// Whether it is shown where the threads stand.
    pub stacks: bool,
    /// The name of the file that gets the journal.
    pub journal: Option<&'a str>,
    /// The name of the image's file.
    pub image: &'a str,
    /// Whether a refusal is explained.
    pub verbose: bool,
}

/// What the arguments of `replay` request.
#[derive(Drop)]
pub struct Replay<'a> {
    /// The names of the entry classes, with commas between them.
    pub entries: &'a str,
    /// Whether it is shown where the threads stand.
    pub stacks: bool,
    /// How many steps of the journal are made, where not all are.
    pub at: Option<u64>,
    /// The name of the journal's file.
    pub journal: &'a str,
    /// The name of the image's file.
    pub image: &'a str,
    /// Whether a refusal is explained.
    pub verbose: bool,
}

impl<'a> Request<'a> {
    /// Whether a refusal is explained.
    pub fn is_verbose(&self) -> bool {
        match self {
            Request::Audit(audit) => audit.verbose,
            Request::Build(build) => build.building.verbose,
            Request::Explain(explain) => explain.building.verbose,
            Request::Inspect(inspect) => inspect.verbose,
            Request::Lazy(lazy) => lazy.verbose,
            Request::Renew(renew) => renew.verbose,
            Request::Replay(replay) => replay.verbose,
            Request::Report(report) => report.building.verbose,
            Request::Run(run) => run.verbose,
        }
    }

    /// The names of the class files, in the order given.
    pub fn files(&self) -> &[&'a str]
        ensures { result.now ≡ files_of self.now }
    {
        match self {
            Request::Audit(audit) => audit.files.as_slice(),
            Request::Build(build) => build.building.files.as_slice(),
            Request::Explain(explain) => explain.building.files.as_slice(),
            Request::Lazy(lazy) => lazy.files.as_slice(),
            Request::Report(report) => report.building.files.as_slice(),
            Request::Inspect(_) | Request::Renew(_) | Request::Replay(_) | Request::Run(_) => &[],
        }
    }

    /// This request of other class files, where it is one of class files.
    pub fn with_files(self, files: Vec<&'a str>) -> Request<'a>
        ensures { result ≡ with_files self.entry files.entry }
    {
        match self {
            Request::Audit(audit) => Request::Audit(Audit {
                entries: audit.entries,
                files,
                verbose: audit.verbose,
            }),
            Request::Build(build) => Request::Build(Build {
                image: build.image,
                report: build.report,
                page: build.page,
                building: build.building.with_files(files),
                workers: build.workers,
            }),
            Request::Explain(explain) => Request::Explain(Explain {
                class: explain.class,
                building: explain.building.with_files(files),
            }),
            Request::Lazy(lazy) => Request::Lazy(Lazy {
                entries: lazy.entries,
                limit: lazy.limit,
                stacks: lazy.stacks,
                files,
                verbose: lazy.verbose,
            }),
            Request::Report(report) => Request::Report(Report {
                page: report.page,
                building: report.building.with_files(files),
            }),
            Request::Inspect(inspect) => Request::Inspect(inspect),
            Request::Renew(renew) => Request::Renew(renew),
            Request::Replay(replay) => Request::Replay(replay),
            Request::Run(run) => Request::Run(run),
        }
    }
}

impl<'a> Building<'a> {
    /// This build of other class files.
    fn with_files(self, files: Vec<&'a str>) -> Building<'a>
        ensures { result ≡ building_with self.entry files.entry }
    {
        Building {
            run_time: self.run_time,
            build_time: self.build_time,
            budget: self.budget,
            files,
            verbose: self.verbose,
        }
    }
}

//! What a call has ready to print.
use crate::run::Run;
use crate::top::Ended;
use std::marker::Model;

/// What is printed when nothing more fails: an exit status, and text on one stream.
#[derive(Drop)]
pub enum Output {
    /// Status 2, and the usage line on standard error.
    Usage,
    /// A line on standard error.
    Line { status: u8, text: String },
    /// The sections of a report on standard output.
    Report { status: u8, sections: Sections },
    /// Status 0, and the summary of a workload's run on standard output.
    Summary { text: Vec<u8> },
}

/// The sections of a report, each for a print, the log where it is asked for. Contracts see their texts.
#[derive(Drop)]
pub struct Sections {
    pub console: Vec<u8>,
    pub harts: String,
    pub accesses: String,
    pub log: Option<Vec<u8>>,
}

impl Model for Sections {
    ghost use Rattle.std.specs.Prelude.{ℕ, List, ◌∷◌, [], string_bytes, option_map, unwrap_or};

    ghost Value = { List (List ℕ) };

    ghost view = { λ s. s.console.items ∷ string_bytes s.harts ∷ string_bytes s.accesses ∷ unwrap_or (option_map (λ t. t.items ∷ []) s.log) [] };
}

impl Output {
    ghost use Rattle.std.specs.Prelude.{◌≡◌};
    ghost use Rattle.dash_run.specs.Output.{output_status};

    pub fn status(&self) -> u8
        ensures { result ≡ output_status self.now }
    {
        match self {
            Output::Usage => 2,
            Output::Line { status, .. } | Output::Report { status, .. } => *status,
            Output::Summary { .. } => 0,
        }
    }
}

/// What is printed, and the run that it tells of.
#[derive(Drop)]
pub struct Prepared {
    pub output: Output,
    pub run: Run,
}

impl Prepared {
    ghost use Rattle.std.specs.Prelude.{◌≡◌};

    /// The end of a call that leaves its run, with an exit status.
    pub fn ended(self, status: u8) -> Ended
        ensures status { result.status ≡ status }
        ensures log { result.log ≡ self.run.log }
        ensures units { result.units ≡ self.run.units }
        ensures rounds { result.rounds ≡ self.run.rounds }
    {
        let Prepared { run, .. } = self;
        run.ended(status)
    }
}

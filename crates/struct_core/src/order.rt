ghost use Rattle.std.specs.Prelude.{◌≡◌};
ghost use Rattle.struct_core.specs.Words.{default_budgets as the_default_budgets};

use crate::tables::{OPTIONS, TASKS};
use net_values::MAX_NETS;
use pnml_grammar::find_in;

/// What a run is to compute of a net, in the order of [`TASKS`](crate::TASKS).
#[derive(Clone, Copy, Debug, PartialEq, Eq)]
pub enum Task {
    /// The numbers of places, transitions and arcs.
    Check,
    /// The canonical text of the document.
    Canon,
    /// The classes of nets to which the net belongs.
    Class,
    /// The minimal semiflows of places.
    Places,
    /// The minimal semiflows of transitions.
    Transitions,
    /// The minimal siphons.
    Siphons,
    /// The minimal traps.
    Traps,
    /// The least bound of each place that the semiflows of places give.
    Bounds,
    /// Whether every siphon contains a marked trap.
    Commoner,
    /// A certificate of the bounds.
    CertBounds,
    /// A certificate of the answer to whether every siphon contains a marked trap.
    CertCommoner,
    /// The check of a certificate.
    Verify,
    /// Whether a free-choice net is proved to be live.
    Live,
    /// The extremal sub-semiflows of places.
    Sub,
    /// A run of the search for minimal siphons, from given classes.
    Resume,
    /// What a firing list does to the net.
    Replay,
}

const TASK_ORDER: [Task; 16] = [
    Task::Check,
    Task::Canon,
    Task::Class,
    Task::Places,
    Task::Transitions,
    Task::Siphons,
    Task::Traps,
    Task::Bounds,
    Task::Commoner,
    Task::CertBounds,
    Task::CertCommoner,
    Task::Verify,
    Task::Live,
    Task::Sub,
    Task::Resume,
    Task::Replay,
];

impl Task {
    ghost use Rattle.struct_core.specs.Words.{task_named, most_rows};

    /// The task that has this word.
    #[tactic(auto, unfolding(crate::specs::Words::task_named, crate::specs::Words::task_words, crate::specs::Words::tasks))]
    pub fn named(word: &[u8]) -> Option<Task>
        ensures { result ≡ task_named word.now }
    {
        let row = find_in(&TASKS.names, word)?;
        TASK_ORDER.get(row).copied()
    }

    /// The most candidate rows that the task may take. Those of `sub` have an entry per transition too.
    pub fn most_rows(self) -> u32
        ensures { result ≡ most_rows self }
    {
        match self {
            Task::Sub => 50_000,
            _ => Setting::Rows.most(),
        }
    }
}

/// What an option of a task says, in the order of [`OPTIONS`](crate::OPTIONS).
#[derive(Clone, Copy, Debug, PartialEq, Eq)]
pub enum Setting {
    /// Which net of the document, counted from 1.
    Net,
    /// Candidate rows of one elimination step.
    Rows,
    /// Siphons or traps that a search meets.
    Sets,
}

const SETTING_ORDER: [Setting; 3] = [Setting::Net, Setting::Rows, Setting::Sets];

impl Setting {
    ghost use Rattle.struct_core.specs.Words.{setting_named, default_of, most_of};

    /// The setting whose option has this word.
    #[tactic(auto, unfolding(crate::specs::Words::setting_named, crate::specs::Words::option_words, crate::specs::Words::options))]
    pub fn named(word: &[u8]) -> Option<Setting>
        ensures { result ≡ setting_named word.now }
    {
        let row = find_in(&OPTIONS.names, word)?;
        SETTING_ORDER.get(row).copied()
    }

    /// The setting where its option is absent.
    pub fn default(self) -> u32
        ensures { result ≡ default_of self }
    {
        match self {
            Setting::Net => 1,
            Setting::Rows => 20_000,
            Setting::Sets => 100_000,
        }
    }

    /// The most that its option may say.
    pub fn most(self) -> u32
        ensures { result ≡ most_of self }
    {
        match self {
            Setting::Net => MAX_NETS as u32,
            Setting::Rows => 100_000,
            Setting::Sets => 1_000_000,
        }
    }
}

/// How much the enumerations may take.
#[derive(Clone, Copy, Debug, PartialEq, Eq)]
pub struct Budgets {
    /// The most candidate rows of one elimination step.
    pub rows: u32,
    /// The most siphons or traps that a search may meet.
    pub sets: u32,
}

/// The budgets where no option is there.
pub(crate) fn default_budgets() -> Budgets
    ensures { result ≡ the_default_budgets }
{
    Budgets {
        rows: Setting::Rows.default(),
        sets: Setting::Sets.default(),
    }
}

/// What the words of the command line mean.
#[derive(Clone, Copy, Debug, PartialEq, Eq)]
pub enum Order {
    /// A task on the net of this number, from 1, in the document of the input.
    Run(Task, u32, Budgets),
    /// A summary of the sample net of so many philosophers.
    Sample(u32),
}

ghost use Rattle.branch_resume.specs.Laws.{CutsArePartings, ListsAreOneSearch, OneReading, SomeReading, SomeRun, TokensAreReadBack, TreesAreOneSearch};

/// Bytes stand for one list of pending classes of a net, or have one malformed line, or one rejected line, and only
/// one of these.
pub fn one_reading()
    ensures { OneReading }
{}

/// Any bytes stand for pending classes of a net, or have a malformed line, or a rejected one.
pub fn some_reading()
    ensures { SomeReading }
{}

/// From any classes of a net there is a run with any number of leaves, whose list ascends and whose pending classes
/// can be read again.
pub fn some_run()
    ensures { SomeRun }
{}

/// The token of pending classes, with any bytes after it, is read as these classes.
pub fn tokens_are_read_back()
    ensures { TokensAreReadBack }
{}

/// Runs, each from the classes that the one before left pending, from the class of all siphons to no class, find
/// together the minimal siphons, each once, and meet the grown ones, each once. With the same `leaves` in each, at most as many
/// of them leave a class pending as there are grown siphons, divided by `leaves`.
pub fn lists_of_runs_are_one_search()
    ensures { ListsAreOneSearch }
{}

/// The same of the runs of a tree, where the classes that a run leaves pending are parted among several next runs.
pub fn trees_of_runs_are_one_search()
    ensures { TreesAreOneSearch }
{}

/// The pending classes of a token may be cut between any two lines.
pub fn cut_classes_are_parted()
    ensures { CutsArePartings }
{}

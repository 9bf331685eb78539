//! What holds of every run of Worlds. No function here does anything: each is the law that it ensures.
ghost use Rattle.law_refinement.specs.Headline.{
  CaughtUpIsLevel,
  HistoriesGiveOne,
  HistoriesStay,
  MomentsAreKnown,
  NoSilentDifference,
  RunsGoOn,
  StartsAreRuns,
  TrueToHistory,
};

/// **No silent difference.** At any two moments of a run, of any two nodes or of one, those that show the same replication id and
/// offset hold the same dataset, expired keys and deadlines included.
pub fn nodes_never_differ_silently()
    ensures { NoSilentDifference }
{}

/// At each moment each node that shows an id and an offset holds what the history of that id gives there, and that is one dataset.
pub fn nodes_are_true_to_history()
    ensures nodes { TrueToHistory }
    ensures one { HistoriesGiveOne }
{}

/// Histories only grow at their ends: at a later moment each id has the history that it had, and perhaps more of it.
pub fn histories_stay()
    ensures { HistoriesStay }
{}

/// **Caught up.** A replica whose link is caught up shows its master's id and offset, and holds its dataset.
pub fn caught_up_replicas_are_level()
    ensures { CaughtUpIsLevel }
{}

/// What the laws of a World's events ask for holds at each moment, of some book of histories.
pub fn moments_are_known()
    ensures { MomentsAreKnown }
{}

/// What goes on from the last moment of a run makes one run with it.
pub fn runs_go_on()
    ensures { RunsGoOn }
{}

/// Laws over all runs would say nothing where there was none: a node that starts, its parts being sound, makes one.
pub fn starts_are_runs()
    ensures { StartsAreRuns }
{}

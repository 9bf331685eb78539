//! What the laws of runs say of minired's language. No function here does anything: each is the law that it ensures.
ghost use Rattle.law_protocol.specs.Promises.{CaughtUpIsLevel, HistoriesStay, NoSilentDifference, TrueToHistory};
ghost use Rattle.law_minired.specs.Changes.{RequestsHaveGoodGroups, RequestsHaveOneChange};
ghost use Rattle.law_minired.specs.Minired.{minired};
ghost use Rattle.law_minired.specs.Transactions.{
  AllElseIsCommand,
  ExecAndDiscardEnd,
  MultiBegins,
  OnlyExecHasEffects,
  OnlyMultiBegins,
  OnlyTheyEnd,
  OthersGoOn,
  QuitIsHeard,
  WritesMarkAtReplicas,
  WritesWaitAtMasters,
};

/// **No silent difference.** Nodes that ever showed one replication id and offset held one dataset then.
pub fn replicas_never_differ_silently()
    ensures { NoSilentDifference minired }
{}

/// At each moment each node that shows an id and an offset holds the dataset of that id's history at the offset.
pub fn datasets_are_true_to_history()
    ensures history { TrueToHistory minired }
    ensures grows { HistoriesStay minired }
{}

/// A replica whose link is caught up shows its master's id and offset, and holds its dataset.
pub fn caught_up_replicas_are_level()
    ensures { CaughtUpIsLevel minired }
{}

/// A request changes a master's dataset in one way: at a dataset, a moment and a random word it has one list of effects, in a
/// transaction or in none.
pub fn requests_have_one_change()
    ensures { RequestsHaveOneChange }
{}

/// Its effects are groups, each with a text that tells it from every other: no PING stands beside another effect.
pub fn requests_have_good_groups()
    ensures { RequestsHaveGoodGroups }
{}

/// Where a transaction is open nothing changes a dataset but EXEC, and that as one group, for which there is room, and only where
/// the transaction wasn't marked.
pub fn only_exec_has_effects()
    ensures { OnlyExecHasEffects }
{}

/// MULTI begins a transaction, in which nothing waits; EXEC and DISCARD end it, and each other request waits there, marks it, or
/// is a MULTI within, which changes nothing.
pub fn transactions_begin_and_end()
    ensures begins { MultiBegins }
    ensures multi { OnlyMultiBegins }
    ensures ends { ExecAndDiscardEnd }
    ensures they { OnlyTheyEnd }
    ensures others { OthersGoOn }
{}

/// A write waits at a master, and at a replica it marks the transaction.
pub fn writes_wait_at_masters()
    ensures masters { WritesWaitAtMasters }
    ensures replicas { WritesMarkAtReplicas }
{}

/// In a transaction QUIT is heard, and all else is a command.
pub fn quit_is_heard()
    ensures heard { QuitIsHeard }
    ensures others { AllElseIsCommand }
{}

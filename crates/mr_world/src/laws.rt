//! What holds whatever happens to a World. No function here does anything: each is the law that it ensures.
ghost use Rattle.mr_world.specs.Promises.{BookGrows, FilesAreDatasets, MomentsAreRuns, NodesAreTrue, NodesNeverDiffer, ReplicasAreLevel};
ghost use Rattle.mr_world.specs.Happening.{FollowsAreEvents, LackedIsUnseen};
ghost use Rattle.mr_world.specs.Talking.{LinksAreInOrder, TurnsUseTexts};

/// **The headline.** After any lists of events, one run after another, whatever was refused: any two nodes that ever showed the same
/// replication id and offset held the same dataset then.
pub fn nodes_never_differ()
    ensures { NodesNeverDiffer }
{}

/// .. namely that of the id's history up to that offset.
pub fn nodes_are_true()
    ensures { NodesAreTrue }
{}

/// A moment within a run is the end of a run of its first events, from which the others lead on: so the laws here speak of it too.
pub fn moments_are_runs()
    ensures { MomentsAreRuns }
{}

/// The history of each id only grows, at its end.
pub fn book_grows()
    ensures { BookGrows }
{}

/// A replica whose link is caught up shows its master's id and offset, and holds its dataset.
pub fn replicas_are_level()
    ensures { ReplicasAreLevel }
{}

/// The file of each node that isn't stopped makes the node's dataset. Of the moments of the runs there is one at which it was written anew, or the
/// node started; since then it has only grown, by the texts of the groups that were applied, but for heartbeats.
pub fn files_are_datasets()
    ensures { FilesAreDatasets }
{}

/// A step of the node that follows by a link, as it is taken, is an event of histories. Where that node lacks memory they see nothing of
/// it.
pub fn follows_are_events()
    ensures taken { FollowsAreEvents }
    ensures lacked { LackedIsUnseen }
{}

/// On each link that a node serves, until PSYNC is answered there, what is said in a run is what the run's steps there said, in order; and while
/// the server's end is open, the bytes that it took are those that the steps used, in order, and behind them the unread ones. Each uses one text.
pub fn links_are_in_order()
    ensures order { LinksAreInOrder }
    ensures texts { TurnsUseTexts }
{}

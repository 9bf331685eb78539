//! What holds of every run and of every event, at each language. No function here does anything: each is the law that it
//! ensures.
ghost use Rattle.law_protocol.specs.EachEvent.{
  AnswersAreOfOneMoment,
  AsksFromWhereItStands,
  BookChangesByThreeWays,
  DialIsConnectAndAccept,
  DialledLinksAreEmpty,
  MastersTakeNewIds,
  PartsChangeNothing,
  RestartsUnderNewIds,
  StreamsAreFollowed,
};
ghost use Rattle.law_protocol.specs.Language.{Language, Laws};
ghost use Rattle.law_protocol.specs.Promises.{
  CaughtUpIsLevel,
  HistoriesStay,
  InvariantHolds,
  NoSilentDifference,
  TrueToHistory,
};

/// What replicas hold and how they write to one another, with the proof that of each kind of text none begins another.
pub trait Replicated {
    ghost language: { Language };

    ghost laws: { Laws language };
}

/// **No silent difference.** At any two moments of any run, of any two nodes or of one, those that show the same replication
/// id and offset hold the same dataset, past keys and deadlines included.
pub fn no_silent_difference<R: Replicated>()
    ensures { NoSilentDifference R.language }
{}

/// At each moment each node that shows an id and an offset holds the dataset of that id's history at the offset, which is
/// defined there.
pub fn true_to_history<R: Replicated>()
    ensures { TrueToHistory R.language }
{}

/// The book of histories only grows: at a later moment each id's history begins with what it was.
pub fn histories_stay<R: Replicated>()
    ensures { HistoriesStay R.language }
{}

/// **Caught up.** On a link whose ends are open, whose PSYNC was answered, and whose replica has taken all that was sent and has
/// nothing left that it uses, the replica shows its master's id and offset and holds its dataset.
pub fn caught_up_is_level<R: Replicated>()
    ensures { CaughtUpIsLevel R.language }
{}

/// What the laws above rest on holds at each moment: each dataset is that of its node's id at its offset, one running master at
/// most may extend an id, the histories of a node's two ids are one up to the second offset, and what was sent on a replica's link
/// and isn't used is a request, an answer, a snapshot and a stream of one id.
pub fn invariant_holds<R: Replicated>()
    ensures { InvariantHolds R.language }
{}

/// The book changes in three ways alone: a node that starts draws its id, a running master extends its own, and a replica that is
/// promoted branches off at its offset. A master that became a replica extends nothing, and adopting a history books none.
pub fn book_changes_by_three_ways<R: Replicated>()
    ensures { BookChangesByThreeWays R.language }
{}

/// Whoever becomes a master, at the first promotion or a later one, does so under an id that was never drawn. It has something to
/// continue, and follows no host.
pub fn masters_take_new_ids<R: Replicated>()
    ensures { MastersTakeNewIds R.language }
{}

/// A node that restarts has an id that was never drawn, offset 0 and no second id, and follows nobody.
pub fn restarts_under_new_ids<R: Replicated>()
    ensures { RestartsUnderNewIds R.language }
{}

/// While a line, a snapshot or an effect isn't whole a replica's id, offset and dataset stay.
pub fn parts_change_nothing<R: Replicated>()
    ensures { PartsChangeNothing R.language }
{}

/// What PSYNC is answered is of one moment: exactly where the continue rule allows it, the stream from the byte that was asked
/// for, and else the id and the offset with a snapshot of the dataset at them.
pub fn answers_are_of_one_moment<R: Replicated>()
    ensures { AnswersAreOfOneMoment R.language }
{}

/// A replica that has something to continue asks for the byte after its last one.
pub fn asks_from_where_it_stands<R: Replicated>()
    ensures { AsksFromWhereItStands R.language }
{}

/// While what is unread may still become an effect that applies, a replica in its stream phase keeps its link.
pub fn streams_are_followed<R: Replicated>()
    ensures { StreamsAreFollowed R.language }
{}

/// On a link whose end a replica has just opened, with its server's end or before it, nothing was sent to it: what a broken link left
/// half-read is gone.
pub fn dialled_links_are_empty<R: Replicated>()
    ensures { DialledLinksAreEmpty R.language }
{}

/// A dial by which a link comes is two events, one after the other: the replica's end opens, and then the node that was dialled accepts
/// the link. Between them there is a world in which the link waits.
pub fn dial_is_connect_and_accept<R: Replicated>()
    ensures { DialIsConnectAndAccept R.language }
{}

//! What a replica in its master's stream has applied. No function here does anything: each is the law that it ensures.
ghost use Rattle.law_follower.specs.Streaming.{
  AppliesWhatComesFirst,
  FollowsItsStream,
  HeartbeatsAreCounted,
  IdleHasExactlyTheWhole,
  IdleLeavesNothingWhole,
  NoStepLeaves,
  OtherCallsRest,
  RunsGoOn,
};

/// While a node in its master's stream follows it and isn't stopped, whatever calls there are: the bytes that came are the texts of the groups
/// that it applied, one after another, and then the unread ones; its dataset is what these groups made of it, its id is the same, and its
/// offset has grown by the lengths of their texts, so that it is never shown inside one.
pub fn applies_what_comes_first()
    ensures { AppliesWhatComesFirst }
{}

/// Where its last step found nothing whole, no whole group is unread.
pub fn idle_leaves_nothing_whole()
    ensures { IdleLeavesNothingWhole }
{}

/// Where a beginning of a stream came, of groups each of which can be applied behind those in front of it, up to the offset's limit, the
/// groups that it applied are the first of these.
pub fn follows_its_stream()
    ensures { FollowsItsStream }
{}

/// **Following.** With its last step idle it has applied exactly the whole groups in it: what is unread is a beginning of the text of the next
/// one, and not all of it.
pub fn applies_exactly_the_whole()
    ensures { IdleHasExactlyTheWhole }
{}

/// Then no step leaves the master: it applies a group, finds nothing whole, or memory is lacking.
pub fn no_step_leaves()
    ensures { NoStepLeaves }
{}

/// No other call changes its stream, its dataset or what reads at the link to its master, as long as it follows its master there.
pub fn other_calls_rest()
    ensures { OtherCallsRest }
{}

/// A heartbeat counts in the offset, and changes no dataset.
pub fn heartbeats_are_counted()
    ensures { HeartbeatsAreCounted }
{}

/// Calls go on from where others ended.
pub fn runs_go_on()
    ensures { RunsGoOn }
{}

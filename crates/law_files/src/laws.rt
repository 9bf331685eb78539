//! What calls do to a node's file. No function here does anything: each is the law that it ensures.
ghost use Rattle.law_files.specs.Steps.{
  BreaksKeep,
  ClientStepsFile,
  DialsKeep,
  FeedsKeep,
  FilesAreReadWhole,
  FilesFollow,
  FilesGrowOn,
  IdleStepsKeep,
  KeptFilesStay,
  MasterLacksKeep,
  MasterStepsFile,
  MasterWaitsKeep,
  OpensKeep,
  ReplicaStepsKeep,
  RequestsHaveNoBeats,
  TicksFile,
  WaitedHaveNoBeats,
  WithinStepsFile,
};
ghost use Rattle.law_files.specs.Worlds.{
  AcceptsGoOn,
  BreaksGoOn,
  ClientStepsGoOn,
  ConnectsGoOn,
  DialsGoOn,
  EmptyFilesMakeNothing,
  FeedsGoOn,
  FilesAreTrue,
  FilesLoad,
  FilesStayFolded,
  IdleStepsGoOn,
  MasterLacksGoOn,
  MasterStepsGoOn,
  MasterWaitsGoOn,
  NothingHasFiles,
  OpensGoOn,
  OthersGoOn,
  ReplicaStepsGoOn,
  RestartsGoOn,
  StartsGoOn,
  StopsGoOn,
  TicksGoOn,
  WhatLoadsMakes,
  WithinStepsGoOn,
};

/// Where a file makes a node's dataset, what a call makes of it makes the dataset that the node has then.
pub fn files_follow()
    ensures { FilesFollow }
{}

/// Such a file is read whole, and as that dataset.
pub fn files_are_read_whole()
    ensures { FilesAreReadWhole }
{}

/// Calls one after another grow it by the texts of the groups that they apply, one after another.
pub fn files_grow_on()
    ensures { FilesGrowOn }
{}

/// A call that keeps the file leaves it as it is.
pub fn kept_files_stay()
    ensures { KeptFilesStay }
{}

/// No request has a heartbeat among its effects, a PING neither, and what waited in a transaction has none.
pub fn requests_have_no_heartbeats()
    ensures alone { RequestsHaveNoBeats }
    ensures waited { WaitedHaveNoBeats }
{}

/// A step at a client's end files the texts of the effects that it applies, all of them, or the file is written anew. Where a
/// transaction is open it files the text of one group, which is all that waited.
pub fn client_steps_file()
    ensures alone { ClientStepsFile }
    ensures within { WithinStepsFile }
{}

/// A step at a replica's end keeps the file, and so does one that finds nothing whole.
pub fn other_steps_keep()
    ensures replicas { ReplicaStepsKeep }
    ensures idle { IdleStepsKeep }
{}

/// A step at the link to the master files the text of the group that it applies, unless that is a heartbeat. A snapshot has the file written
/// anew.
pub fn master_steps_file()
    ensures { MasterStepsFile }
{}

/// Where nothing whole is there, or memory is lacking, it keeps the file.
pub fn master_waits_keep()
    ensures waits { MasterWaitsKeep }
    ensures lacks { MasterLacksKeep }
{}

/// A tick files the deletions, and no heartbeat.
pub fn ticks_file()
    ensures { TicksFile }
{}

/// A link that is opened, dialled, fed or closed keeps the file.
pub fn links_keep()
    ensures opens { OpensKeep }
    ensures dials { DialsKeep }
    ensures feeds { FeedsKeep }
    ensures breaks { BreaksKeep }
{}

/// **Each file is its node's dataset.** In Worlds one after another, each of whose files goes on from the one to the next, from that in which
/// nothing has begun: at each moment the file of each node that isn't stopped makes the node's dataset, and it is what it was when it was last
/// written anew or the node started, with the texts of the groups behind it that were applied since, but for heartbeats.
pub fn files_are_true()
    ensures { FilesAreTrue }
{}

/// Where each file makes its node's dataset, it is read whole, and as that dataset. Each does where nothing has begun, and from one World to the
/// next, where files go on.
pub fn files_stay_folded()
    ensures load { FilesLoad }
    ensures begins { NothingHasFiles }
    ensures stay { FilesStayFolded }
{}

/// Files go on behind each step at an end that a node serves, and where a node stops.
pub fn files_go_on_at_steps()
    ensures clients { ClientStepsGoOn }
    ensures within { WithinStepsGoOn }
    ensures replicas { ReplicaStepsGoOn }
    ensures idle { IdleStepsGoOn }
    ensures stops { StopsGoOn }
{}

/// They do behind a step at the link to a node's master, whatever it came to.
pub fn files_go_on_at_masters()
    ensures steps { MasterStepsGoOn }
    ensures waits { MasterWaitsGoOn }
    ensures lacks { MasterLacksGoOn }
{}

/// They do behind a tick.
pub fn files_go_on_at_ticks()
    ensures { TicksGoOn }
{}

/// They do as links are opened, dialled, accepted at once or later, fed and closed, and where no node and no file changes.
pub fn files_go_on_at_links()
    ensures opens { OpensGoOn }
    ensures dials { DialsGoOn }
    ensures connects { ConnectsGoOn }
    ensures accepts { AcceptsGoOn }
    ensures feeds { FeedsGoOn }
    ensures breaks { BreaksGoOn }
    ensures others { OthersGoOn }
{}

/// They do as nodes start, with an empty file, and restart, with what theirs were read from.
pub fn files_go_on_at_starts()
    ensures starts { StartsGoOn }
    ensures restarts { RestartsGoOn }
    ensures empty { EmptyFilesMakeNothing }
    ensures loads { WhatLoadsMakes }
{}

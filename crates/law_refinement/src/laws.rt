//! That what each call on a node of a World does is a row of histories. No function here does anything: each is the law that it ensures.
ghost use Rattle.law_refinement.specs.Events.{AcceptStopsAreRows, AcceptsAreRows, AcceptsKeepWorlds, ClientStepsAreRows, ClientStepsKeepWorlds, ConnectStopsAreRows, ConnectsAreRows, ConnectsKeepWorlds, DialsAreRows, EventsKeepHistories, IdleStepsAreRows, LacksAreUnseen, LacksChangeNodes, LacksKeepWorlds, MasterBreaksAreRows, MasterFeedsAreRows, MasterStepsAreRows, MasterStepsKeepWorlds, MasterStopsAreRows, OpenStopsAreRows, OpensAreRows, ReplicaStepsAreRows, ReplicaStepsKeepWorlds, RestartsAreRows, ServerBreaksAreRows, ServerFeedsAreRows, SpendsAreRows, StartsAreRows, StopsAreRows, StopsKeepWorlds, TickStopsAreRows, TicksAreRows, TicksKeepWorlds, WaitsAreRows, WaitsChangeNodes, WaitsKeepWorlds, WithinStepsAreRows, WithinStepsKeepWorlds, WorldsBegin};
ghost use Rattle.law_refinement.specs.OwnEnds.{ClientBreaksAreRows, ClientFeedsAreRows, CommandsAreRows};

/// A step at a client's end by its exact row, with what it gives out carried, is a step by a row of histories, of the World that is seen.
pub fn client_steps_are_rows()
    ensures { ClientStepsAreRows }
{}

/// So is one where a transaction is open.
pub fn within_steps_are_rows()
    ensures { WithinStepsAreRows }
{}

/// So is a step at a replica's end.
pub fn replica_steps_are_rows()
    ensures { ReplicaStepsAreRows }
{}

/// A step that finds nothing whole is one that changes nothing.
pub fn idle_steps_are_rows()
    ensures { IdleStepsAreRows }
{}

/// A step in which the node stops is one.
pub fn stops_are_rows()
    ensures { StopsAreRows }
{}

/// A step at the link to a node's master by its exact row, whatever it came to, is a step by a row of histories.
pub fn master_steps_are_rows()
    ensures { MasterStepsAreRows }
{}

/// One that finds nothing whole is one, though what is there of a snapshot may have been taken.
pub fn waits_are_rows()
    ensures { WaitsAreRows }
{}

/// Where it lacks memory nothing changes that histories see.
pub fn lacks_are_unseen()
    ensures { LacksAreUnseen }
{}

/// One in which the node stops is one.
pub fn spends_are_rows()
    ensures { SpendsAreRows }
{}

/// One in which it stops for want of memory for what it gave out is one too.
pub fn master_stops_are_rows()
    ensures { MasterStopsAreRows }
{}

/// A tick by its exact row is a tick by a row of histories.
pub fn ticks_are_rows()
    ensures { TicksAreRows }
{}

/// One in which the node stops for want of memory for what it gave out is one too.
pub fn tick_stops_are_rows()
    ensures { TickStopsAreRows }
{}

/// A link that is opened is one of histories, or the node stops there too.
pub fn opens_are_rows()
    ensures opens { OpensAreRows }
    ensures stops { OpenStopsAreRows }
{}

/// A master that is dialled is dialled in histories.
pub fn dials_are_rows()
    ensures { DialsAreRows }
{}

/// A replica's end of a link is opened before its server's in histories too, or the node stops there.
pub fn connects_are_rows()
    ensures connects { ConnectsAreRows }
    ensures stops { ConnectStopsAreRows }
{}

/// A node that accepts a link which waits, whatever has become of the node that dialled, does so in histories, or stops there too.
pub fn accepts_are_rows()
    ensures accepts { AcceptsAreRows }
    ensures stops { AcceptStopsAreRows }
{}

/// Bytes that an end is fed are delivered there in histories.
pub fn feeds_are_rows()
    ensures served { ServerFeedsAreRows }
    ensures master { MasterFeedsAreRows }
{}

/// A link that is closed breaks at that end in histories.
pub fn breaks_are_rows()
    ensures served { ServerBreaksAreRows }
    ensures master { MasterBreaksAreRows }
{}

/// What a client sends, takes and closes at its own end it does in histories.
pub fn clients_ends_are_rows()
    ensures sends { CommandsAreRows }
    ensures takes { ClientFeedsAreRows }
    ensures leaves { ClientBreaksAreRows }
{}

/// A node that starts, and one that starts anew, does so in histories.
pub fn starts_are_rows()
    ensures starts { StartsAreRows }
    ensures restarts { RestartsAreRows }
{}

/// What the laws of histories rest on holds behind each event, and the book only grows.
pub fn events_keep_histories()
    ensures { EventsKeepHistories }
{}

/// What is true of each World stays behind a step at an end that a node serves, and where a node stops.
pub fn steps_keep_worlds()
    ensures clients { ClientStepsKeepWorlds }
    ensures within { WithinStepsKeepWorlds }
    ensures replicas { ReplicaStepsKeepWorlds }
    ensures stops { StopsKeepWorlds }
{}

/// It stays behind a step at the link to the master.
pub fn master_steps_keep_worlds()
    ensures { MasterStepsKeepWorlds }
{}

/// It stays where nothing whole is there, and where memory is lacking.
pub fn waits_keep_worlds()
    ensures waits { WaitsKeepWorlds }
    ensures lacks { LacksKeepWorlds }
{}

/// In both nothing changes but the node.
pub fn waits_change_nodes()
    ensures waits { WaitsChangeNodes }
    ensures lacks { LacksChangeNodes }
{}

/// It stays where a replica's end of a link is opened before its server's, and where a node accepts the link.
pub fn waiting_links_keep_worlds()
    ensures connects { ConnectsKeepWorlds }
    ensures accepts { AcceptsKeepWorlds }
{}

/// It stays behind a tick.
pub fn ticks_keep_worlds()
    ensures { TicksKeepWorlds }
{}

/// All that is asked of a World holds of the one in which nothing has begun.
pub fn worlds_begin()
    ensures { WorldsBegin }
{}

//! What the rows of a step keep to. No function here does anything: each is the law that it ensures.
ghost use Rattle.mr_node_spec.specs.Laws.{ReplicasOnlyAnswer, ReplicasOnlyAnswerWithin, StreamsOnlyGrow, StreamsOnlyGrowWithin};

/// No step at a client's end, with a transaction open or without, takes the stream back, and none gives it another name but a promotion, which says so.
pub fn streams_only_grow()
    ensures alone { StreamsOnlyGrow }
    ensures within { StreamsOnlyGrowWithin }
{}

/// A replica that stays one only answers its clients: its dataset and its offset stay, and it sends nobody a stream.
pub fn replicas_only_answer()
    ensures alone { ReplicasOnlyAnswer }
    ensures within { ReplicasOnlyAnswerWithin }
{}

// Laws of the definitions that the contracts cite.
ghost use Rattle.mr_cmd_list.specs.Laws.{PushAnswersLength, PushIsRead, PopTakesTheEnd, MoveTakesTheEnd, MovePutsAtTheEnd};

/// LPUSH and RPUSH answer the length that LLEN then answers, and LRANGE is a cut of what they left.
pub fn what_is_pushed_is_read()
    ensures length { PushAnswersLength }
    ensures read { PushIsRead }
{}

/// LPOP and RPOP take the item that LINDEX showed at that end.
pub fn what_is_shown_is_popped()
    ensures { PopTakesTheEnd }
{}

/// LMOVE takes the item that LINDEX showed at the one end, and LINDEX then shows it at the other.
pub fn what_is_shown_is_moved()
    ensures taken { MoveTakesTheEnd }
    ensures put { MovePutsAtTheEnd }
{}

// Laws of the definitions that the contracts cite.
ghost use Rattle.mr_cmd_hash.specs.Laws.{SetCountsNewFields, SetIsRead, RemoveCountsFields, IncreaseIsRead, HMGetIsHGetOfEach};

/// HSET answers how many fields were new, and HGET reads what it put last.
pub fn what_is_set_is_counted_and_read()
    ensures count { SetCountsNewFields }
    ensures read { SetIsRead }
{}

/// HDEL answers how many fields went.
pub fn what_is_removed_is_counted()
    ensures { RemoveCountsFields }
{}

/// HINCRBY answers the number that HGET then reads.
pub fn what_is_increased_is_read()
    ensures { IncreaseIsRead }
{}

/// HMGET answers what HGET answers for each field.
pub fn hmget_is_hget_of_each()
    ensures { HMGetIsHGetOfEach }
{}

// Laws of the definitions that the contracts cite.
ghost use Rattle.mr_cmd_string.specs.Laws.{AppendAnswersLength, AppendIsRead, SetRangeIsRead, IncreaseIsRead, IncreaseAdds, MGetIsGetOfEach, MSetIsNoLonger, MSetNxIsNoLonger};

/// APPEND answers the length that STRLEN then answers, and GET reads what was appended behind the text that was there.
pub fn what_is_appended_is_read()
    ensures length { AppendAnswersLength }
    ensures read { AppendIsRead }
{}

/// GETRANGE reads what SETRANGE put there.
pub fn what_is_put_at_an_offset_is_read()
    ensures { SetRangeIsRead }
{}

/// INCR and its kin answer the sum, which GET then reads.
pub fn what_is_increased_is_read()
    ensures read { IncreaseIsRead }
    ensures sum { IncreaseAdds }
{}

/// MGET answers what GET answers for each key, and nil in the place of a refusal.
pub fn mget_is_get_of_each()
    ensures { MGetIsGetOfEach }
{}

/// The one effect of MSET and MSETNX has at most as many words as the command, so that its text is a command text.
pub fn mset_has_an_effect_no_longer_than_it()
    ensures all { MSetIsNoLonger }
    ensures new { MSetNxIsNoLonger }
{}

// Laws of the definitions that the contracts cite.
ghost use Rattle.std.specs.Prelude.{◌≡◌, ℕ, IfErr, List, Ok};
ghost use Rattle.mr_ask.specs.Askable.{IsAskable};
ghost use Rattle.mr_ask.specs.Asks.{asked};
ghost use Rattle.mr_ask.specs.Spelled.{Spells};
ghost use Rattle.mr_ask.specs.WordFaults.{word_faults};
ghost use Rattle.mr_arguments.specs.FaultOrder.{IsFirst, first_of, answered_fault};
ghost use Rattle.mr_ask.specs.declared.ask.Ask.{Ask};

/// Words that spell a command are read as it: whatever case its name and its options are written in, and whatever order these stand in.
pub fn spelled_is_read()
    ensures { (words : List (List ℕ)) (command : Ask) → IsAskable command →
        Spells words command → asked words ≡ Ok command }
{}

/// The fault that is answered is the first, in the order of faults, of all that the words have, each word taken by itself. Words that have none are
/// a command.
pub fn first_fault_is_answered()
    ensures answered { (words : List (List ℕ)) →
        answered_fault (asked words) ≡ first_of (word_faults words) }
    ensures first { (words : List (List ℕ)) →
        IfErr (asked words) (IsFirst (word_faults words)) }
{}

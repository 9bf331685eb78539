// Laws of the definitions that the contracts cite.
ghost use Rattle.std.specs.Prelude.{◌≡◌, ℤ, Option};
ghost use Rattle.std.specs.FinMap.{get};
ghost use Rattle.mr_map.specs.Bytes.{Bytes};
ghost use Rattle.mr_keyspace.specs.Dataset.{Dataset};
ghost use Rattle.mr_keyspace.specs.declared.value.Entry.{Entry};
ghost use Rattle.mr_data.specs.Dataset.{live};
ghost use Rattle.mr_cmd_shared.specs.Answered.{Answered};
ghost use Rattle.mr_cmd_shared.specs.Commands.{after, answer, on_key};

/// The next command on a key, at the same moment, sees the entry that a command left there, unless that is expired.
pub fn what_is_left_is_seen()
    ensures { (k : Bytes) (answers next : Option Entry → Answered) (now : ℤ) (m : Dataset) →
        answer (on_key k next) now (after (on_key k answers) now m) ≡
        (next (live now (answers (live now (get m k))).entry)).reply }
{}

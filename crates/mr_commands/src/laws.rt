// What holds of the definitions.
ghost use Rattle.mr_commands.specs.Writes.{OthersHaveNoEffects, WritesAreTheTables};

/// A command that is no write has no effect of its own, so a replica that tells it, and deletes no expired key, leaves nothing undone.
pub fn others_have_no_effects()
    ensures { OthersHaveNoEffects }
{}

/// What is read under a name is a write where the table of commands says so.
pub fn writes_are_the_tables()
    ensures { WritesAreTheTables }
{}

//! What the story shows. No function here does anything.
ghost use Rattle.law_systems_example.specs.Story.{ServersRun, StepsJoin};

/// **Servers run**: two of them, of which one dials the other, is accepted late, gets a copy, and is promoted, before the other is killed and
/// begins again.
pub fn servers_run()
    ensures { ServersRun }
{}

/// What leads from one system to the next, and on from there, is one course.
pub fn steps_join()
    ensures { StepsJoin }
{}

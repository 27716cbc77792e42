// Laws of sessions, each carried by a function that does nothing.
ghost use Rattle.mk_talk.specs.Laws.{SessionsAreScripts};

/// Where each line of an input is answered by what it comes to, the answers without their frames
/// are what a run of the input as a script writes, and the tables are those that it leaves.
pub fn sessions_are_scripts()
    ensures { SessionsAreScripts }
{}

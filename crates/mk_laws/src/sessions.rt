// Laws of sessions, each carried by a function that does nothing.
ghost use Rattle.mk_laws.specs.Sessions.{HistoriesAreScripts, OneSession, SessionsEndAsScripts};

use crate::laws::one_run;
use mk_talk::sessions_are_scripts;

/// Where the lines of an input are answered in a history, none as unread and none for want of
/// memory, its bytes without the frames are those of a run of the input as a script, and so are the
/// tables. So it is with all that was read, where the session ends with 0.
pub fn histories_are_scripts()
    ensures answered { HistoriesAreScripts }
    ensures ended { SessionsEndAsScripts }
{
    // The law on which this one rests.
    sessions_are_scripts();
}

/// Over told files, where no line has a budget, these bytes and tables are those of each run of what
/// was read as a script.
pub fn one_session()
    ensures { OneSession }
{
    // The laws on which this one rests.
    histories_are_scripts();
    one_run();
}

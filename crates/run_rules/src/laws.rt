// Laws of runs.
ghost use Rattle.run_rules.specs.Laws as law;

/// A worker that holds a term puts a write only where the lease has this term.
pub fn fenced_puts_hold_the_term()
    ensures { law.FencedPutsHoldTheTerm }
{}

/// A settle makes as many writes as its line says, and is quiet where the line says so.
pub fn settles_say_what_they_made()
    ensures writes { law.SettlesCount }
    ensures quiet { law.QuietIsQuiet }
{}

/// Where the store tells what it holds, a run of any events only adds writes to the history.
pub fn runs_extend_histories()
    ensures { law.RunsExtend }
{}

/// Where the store tells what it holds, each view that a worker holds is one of the run's history.
pub fn workers_hold_views_of_the_history()
    ensures { law.RunsHoldTheirViews }
{}

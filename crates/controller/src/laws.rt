// Laws of the calls: what they answer is what the rules of runs say.
ghost use Rattle.controller.specs.Laws as law;

/// A look is the rules' look, and a failed one, after which the store is reopened, their fault.
pub fn looks_say_what_they_saw()
    ensures line { law.LooksGoBy }
    ensures fault { law.FailedLooksAreFaults }
{}

/// A fenced act is the rules' act, and a failed one, after which the store is reopened, their fault.
pub fn acts_say_what_they_did()
    ensures line { law.ActsGoBy }
    ensures fault { law.FailedActsAreFaults }
{}

/// A worker that never requested its lease acts as without a fence.
pub fn workers_without_a_lease_have_no_fence()
    ensures { law.FreeActsHaveNoFence }
{}

/// A settle is the rules' settle, and a failed one, after which the store is reopened, their fault. Where it says
/// quiet, no role has a write.
pub fn settles_say_what_they_made()
    ensures line { law.SettlesGoBy }
    ensures fault { law.FailedSettlesAreFaults }
    ensures quiet { law.QuietIsQuiet }
{}

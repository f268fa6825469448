// What the order of faults promises.
ghost use Rattle.derivation_check.specs.Laws.{NoFaultIsAccepted};

/// There is no first fault exactly where the certificate is accepted.
pub fn no_fault_is_accepted()
    ensures { NoFaultIsAccepted }
{}

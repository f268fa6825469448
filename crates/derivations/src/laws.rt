// What the definitions promise together. Each law is the contract of a function that does nothing.
ghost use Rattle.derivations.specs.Laws.{GivenClausesHold, ClausesAreTheProblem, FollowingHolds, LogHolds, LongerLogsKeep, AcceptedIsRight, ReadIsWritten, WrittenIsRead, ReadIsBounded};

/// A clause that a constraint gives holds of every set of which the constraint is true.
pub fn given_clauses_hold()
    ensures { GivenClausesHold }
{}

/// A set meets a problem exactly where every given clause holds of it.
pub fn clauses_are_the_problem()
    ensures { ClausesAreTheProblem }
{}

/// A clause that follows holds of every set that meets the problem and of which the earlier clauses hold.
pub fn following_holds()
    ensures { FollowingHolds }
{}

/// A log without a fault holds only clauses that hold of every set that meets the problem.
pub fn log_holds()
    ensures { LogHolds }
{}

/// What follows from a log follows from every longer one.
pub fn longer_logs_keep()
    ensures { LongerLogsKeep }
{}

/// An accepted walk is best, and where a refusal is accepted no set meets the problem.
pub fn accepted_is_right()
    ensures { AcceptedIsRight }
{}

/// A text that is read as a certificate is the one spelling of it.
pub fn read_is_written()
    ensures { ReadIsWritten }
{}

/// The spelling of a certificate is read as that certificate exactly where its numbers fit 32 bits, as those of each
/// certificate in memory do.
pub fn written_is_read()
    ensures { WrittenIsRead }
{}

/// A certificate that was read has no more lemmas, walk numbers and refutations together than its text has bytes.
pub fn read_is_bounded()
    ensures { ReadIsBounded }
{}

// What is proved of the calls, each statement on a function that does nothing else, so that the proof is
// asked for.
ghost use Rattle.protocol.specs.Run.{Agreement};
ghost use Rattle.protocol.specs.Claims.{RefusalsStay, InjectsOne, StaysBounded, ChecksCertify, ReadsClerk, WritesLine, LawExcludes};
ghost use Rattle.protocol.specs.Three.{ThreeLawful, ThreeRun};

// A hall of lawful terms keeps the law over every list of calls.
pub fn agreement()
    ensures { Agreement }
{}

// A refused call leaves everything as it was.
pub fn refusals_stay()
    ensures { RefusalsStay }
{}

// An accepted Inject adds one frame and nothing else.
pub fn injects_one()
    ensures { InjectsOne }
{}

// Every call keeps numbers small and lists at their lengths.
pub fn stays_bounded()
    ensures { StaysBounded }
{}

// The checks of a decision let certificates pass, and nothing else.
pub fn checks_certify()
    ensures { ChecksCertify }
{}

// Read answers the clerk's entry.
pub fn reads_clerk()
    ensures { ReadsClerk }
{}

// Write gives the one line of its frame, and a refused one leaves the buffer.
pub fn writes_line()
    ensures { WritesLine }
{}

// Bookings, certificates and work that the law leaves no room for.
pub fn law_excludes()
    ensures { LawExcludes }
{}

// The law is not empty: a hall of three stations has lawful terms and can be new.
pub fn three_lawful()
    ensures { ThreeLawful }
{}

// One run of that hall, call by call.
pub fn three_run()
    ensures { ThreeRun }
{}

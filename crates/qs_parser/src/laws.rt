// Laws of readings and faults: functions that do nothing, for what their clauses say.
ghost use Rattle.qs_parser.specs.Laws.{OneFault, OneReading};

/// Tokens have at most one reading as a unit.
pub fn one_reading()
    ensures { OneReading }
{}

/// Tokens have at most one fault besides want of memory.
pub fn faults_are_unique()
    ensures { OneFault }
{}

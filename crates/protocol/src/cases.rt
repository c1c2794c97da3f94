ghost use Rattle.protocol.specs.AllCases.{CasesHold};

/// What was worked out by hand comes out of the definitions: each worked case and each longer day with its answers and the cells at its
/// end, the two extreme values with their words, and of some days the rows and notes that they leave. A law: it does nothing.
pub fn cases_hold()
    ensures { CasesHold }
{}

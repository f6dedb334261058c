// What is shown of the lines and of the terms that they say. Each function's contract is a theorem, and its body does
// nothing.
ghost use Rattle.session_file.specs.Laws.{OneCall, NumbersRead, CallsRead, PrintedRead, TermsByTheRules};

/// A line reads as one call at most.
#[tactic(auto, using(crate::proofs::Calls::one_call))]
pub fn one_call_to_a_line()
    ensures { OneCall }
{}

/// A number is read exactly where a line that is one is next.
pub fn numbers_are_read_by_the_grammar()
    ensures { NumbersRead }
{}

/// And a call where a line that says it is next.
pub fn calls_are_read_by_the_grammar()
    ensures { CallsRead }
{}

/// A number of at most nine digits is read as it is printed.
pub fn printed_numbers_are_read()
    ensures { PrintedRead }
{}

/// A file's terms are those of the rules, or their refusal.
pub fn terms_are_by_the_rules()
    ensures { TermsByTheRules }
{}

// The laws of generated scripts, each the contract of a function that does nothing.

ghost use Rattle.script_generator.specs.GeneratedLaw.{GeneratedIsInRanges, PowersAreOfTwo};

/// What a heap asks of a script holds of each generated one of up to 50,000 turns.
pub fn generated_is_in_ranges()
    ensures { GeneratedIsInRanges }
{}

/// Collections go on beside the turns whose number is 2 to some power.
pub fn powers_are_of_two()
    ensures { PowersAreOfTwo }
{}

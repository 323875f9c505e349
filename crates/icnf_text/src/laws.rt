//! A law over the definitions alone, as the contract of a function that does nothing.

ghost use Rattle.icnf_text.specs.Law.{EachTextIsWithinLimits};

/// Whatever bytes a text has, it states at most 16,777,216 clauses, 1,048,576 cubes, and 33,554,432
/// literals of both together.
pub fn each_text_is_within_limits()
    ensures { EachTextIsWithinLimits }
{}

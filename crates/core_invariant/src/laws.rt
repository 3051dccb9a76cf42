// What the rule says of a table that meets it. The call does nothing: its clauses are what is proved.
ghost use Rattle.core_invariant.specs.RuleLaws.{LongestLaw, TreeNowLaw};

/// What holds of each table that meets the rule. The longest history that a view knows is the whole one. The tree that
/// is read from the words, at the stamp, is the one that the words mean.
pub fn what_the_rule_says()
    ensures longest { LongestLaw }
    ensures tree { TreeNowLaw }
{}

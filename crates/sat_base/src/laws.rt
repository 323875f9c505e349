//! Laws over the definitions alone, each as the contract of a function that does nothing.

ghost use Rattle.sat_base.specs.Law.{EntailmentGrows, ResolutionIsSound, TruthSeesMembers};
ghost use Rattle.sat_base.specs.Law.{CubeContradictsItsNegation, FewClauses, OneAnswer};

/// What a list of clauses entails, each list that has these clauses entails too.
pub fn entailment_grows()
    ensures { EntailmentGrows }
{}

/// Two clauses entail their resolvent.
pub fn resolution_is_sound()
    ensures { ResolutionIsSound }
{}

/// A cube is false exactly where the clause of its negated literals is true.
pub fn cube_contradicts_its_negation()
    ensures { CubeContradictsItsNegation }
{}

/// Truth of a clause depends on which literals it has, and not on their order.
pub fn truth_sees_members()
    ensures { TruthSeesMembers }
{}

/// No query has both a model and a refuted part.
pub fn one_answer()
    ensures { OneAnswer }
{}

/// Different clauses over V variables, none of them a tautology, are at most 3^V.
pub fn few_clauses()
    ensures { FewClauses }
{}

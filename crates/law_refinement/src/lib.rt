//! What is proved of every transition of a cluster holds of every step of it, made or halted.
#![tactic(auto)]

ghost use Rattle.law_refinement.specs.Refinement as refinements;

/// Each step of a cluster is an execution of transitions that may happen, and so is each list of steps, from a system in
/// order on, and from the beginning. A step in which a store failed between any two saves, or within one, is a shorter
/// execution that ends with a crash (Ongaro 2014, 3.8).
pub fn steps_are_transitions()
    ensures steps { refinements.StepsAreExecution }
    ensures run { refinements.RunIsExecution }
{}

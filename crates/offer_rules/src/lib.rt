// No code: the rules of an offer (refusals 10 to 17) as definitions, and laws about them.
#![tactic(auto)]

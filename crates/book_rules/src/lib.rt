// No code: the rules of the book as definitions, and the theorems about every list of calls.
#![tactic(auto)]

// No code: dates and periods (refusal 21) as definitions, and the theorems about them.
#![tactic(auto)]

// No code: cases of documents 01 and 02, and the worked run, proved of the rules.
#![tactic(auto)]

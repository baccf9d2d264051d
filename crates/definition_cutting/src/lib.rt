// That a definition's text is cut into tokens in one way only (T1); no code.
#![tactic(auto)]

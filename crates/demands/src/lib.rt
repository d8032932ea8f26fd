// No code: what the customer was promised, stated over the definitions that the code is proved against (specs/), and proved (proofs/).
#![tactic(auto)]

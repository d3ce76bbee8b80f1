// The statements that may stand after those before them, as a definition that runs, and its laws; there is no code here.
#![tactic(auto)]

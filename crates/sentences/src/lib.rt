// Definitions and laws only, no code: how grammars and their readers are put together, the sentences of
// blocks and macroblocks, and what holds of every reader of sentences.
#![tactic(auto)]

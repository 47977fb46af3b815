#![tactic(auto)]

// The element rows of a 1-bit trie, as mathematics: which rows a choice of strides lays, in which order, and what a lookup reads
// of them. Definitions in specs/, laws in proofs/; there is no code here. A builder shows that its rows are these.

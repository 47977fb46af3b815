#![tactic(auto)]

// The binary trie of a table and its supernodes of stride 4, as mathematics: maps, order and rows (02 [1]). Definitions in specs/,
// laws in proofs/; there is no code here. A lookup goes by these maps, and a builder shows that its rows are these.

// Laws of whole numbers that std lacks, for the proofs of the crates above: it has no code.
//
// proofs/Products.antt has the laws of products, their signs and their order; proofs/Widths.antt how wide products and
// differences get, and what code computes of them; proofs/Squares.antt what the square of a distance says.
// It stands on std alone.
#![tactic(auto)]

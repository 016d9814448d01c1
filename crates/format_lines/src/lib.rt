#![tactic(auto)]

// Files with line ends: what judging them and writing to and from them means. The meaning stands in specs/LineEnds.antt, the claims in proofs/Claims.antt.

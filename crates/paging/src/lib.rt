// A store and its reads of a recorded page list (02, C-20): the definition and what is promised of it stand in specs/,
// and in proofs/ the laws that with one frame the reads are the one_page reads, that with a threshold no distance is
// above the least recently used page leaves, and that more frames never read more. There is no code here.

#![tactic(auto)]

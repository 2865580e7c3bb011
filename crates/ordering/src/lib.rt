// The order of maps (02, C-17): its definition and what is promised of it stand in specs/, and in proofs/ the laws that
// it is total, when two maps are equal in it, and that then all searches find the same. There is no code here.

#![tactic(auto)]

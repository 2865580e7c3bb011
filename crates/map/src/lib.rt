// A map image as a net: the definitions of what its heading, directory and pages offer to a strip stand in specs/, and
// the laws about them in proofs/. There is no code here.

#![tactic(auto)]

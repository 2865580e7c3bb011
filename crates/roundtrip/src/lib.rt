// Records to image and image to records (02, C-16): the definitions of both calls stand in specs/, and in proofs/ the
// laws that each undoes the other. There is no code here.

#![tactic(auto)]

// The course cases C1 to C10 (01, "Course maps"), proved from the definitions: proofs/Rows.antt; the lines of the
// program's example: proofs/Lines.antt; and the wrong versions of a search that the contracts have to reject, each
// refused by one clause: proofs/Wrong.antt. There is no code here.

#![tactic(auto)]

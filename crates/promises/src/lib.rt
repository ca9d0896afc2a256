// What is promised: the three demands and the cases P1 to P12 of 01, what request 2026-01 asks of new descriptors, 2026-02 of the
// extra block, 2026-04 of blocks and 2026-05 of a stretch, of any program and of one call. There is no code here. specs/ says it, in the
// order Words, Demand1 to Demand3, Cases, Possible, NewInfo, ExtraBlock, BlockLaw, Stretch, EveryCall, Calls. proofs/ proves it of the
// definitions that the entries' contracts name, and shows that the promises leave nothing open, that wrong entries break them, and that
// none of them holds for want of an instance. `calls` ties it to the code.

#![tactic(auto)]

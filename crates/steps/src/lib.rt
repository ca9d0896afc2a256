// Streams under a mode of operation, as definitions and the theorems about them. There is no code here. A stream is units of one width,
// and a step says how a unit goes there and back: by its number, the cipher unit before it, and itself. ECB, each block by itself (000
// section 7), is a step that looks at nothing else; the chaining that 001 and 003 describe looks at the cipher block before.
//
// specs/ in the order Stream, Steps, Ecb, Chained, Needed, Feeding. proofs/ shows over any step what holds of every mode: lengths and units,
// opening from any unit on, which units a unit or a stretch depends on, that sealing and opening undo each other, what a turn of a loop
// adds, and that a stream in pieces gives the same however it is cut.

#![tactic(auto)]

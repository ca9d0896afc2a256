// The promises, tied to the code. Each function calls a real entry (or two, one after the other) and does nothing else; what it ensures
// is the demands' own statement about that call (promises/specs/Calls.antt). From that statement the entry's own contract follows
// (promises/proofs/OneCall.antt), so an entry whose contract said less would leave a function unproved. They are for the checker: no
// user calls them.

#![tactic(auto)]

mod entries;
mod from_c;
mod there_and_back;

// How values cross to C and back (01, "What the product does"): an answer beside a size in one number, sixteen bytes in two, a key's
// length in bits, a descriptor in 88 bytes. Nothing that crosses is lost (proofs/Lossless.antt).

#![tactic(auto)]

mod fields;
mod numbers;

pub use fields::descriptor_bytes;
pub use numbers::{bit_count, sixteen, twelve, word};

// FIPS 197, as updated in 2023 (FIPS 197-upd1), as definitions, and the theorems about them. There is no code here: specs/ is the
// standard by its sections, in the order Field, Tables, Cipher, Products, Expansion; proofs/ shows the rules of the tables at every
// entry, that each cipher undoes the other, and the laws that the code of `products`, `aes_rounds`, `aes_stream` and `aes` comes from.

#![tactic(auto)]

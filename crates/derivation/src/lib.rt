// From a password to the key of a locked document (01, "From password to key"; 004 2.3.4.7, 000 sections 4 and 5).
//
//     let key = Salted { salt, password: units }.expanded_key(size);
//
// A password is 16-bit units as they are: any unit, none of them special. Who calls asks first that there are at most 255
// (`password::text_answer`).

#![tactic(auto)]

mod key;
mod turns;

pub use key::Salted;
pub use turns::block_hash;

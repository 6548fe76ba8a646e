// Octets as hexadecimal and as Base64, from the strings of a text and into one, and the other leaves of writing.
// Contracts cite `specs/` here and the definitions of octets and texts in `jer`.
#![tactic(auto)]

pub mod amount;
pub mod decode;
pub mod encode;
pub mod escape;
pub mod integer;

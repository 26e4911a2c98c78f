// The integer types as code over every width takes them: the number that a value is, the type's range, and the way to and from the
// widest type. Each type has impls of its own: one over all of them would overlap.
#![tactic(auto)]

mod integers;
mod signed_types;
mod unsigned_types;

pub use integers::Integer;
pub use signed_types::Signed;
pub use unsigned_types::Unsigned;

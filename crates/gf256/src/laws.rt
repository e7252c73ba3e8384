//! The laws of this field, which code_laws proves from the definition of its product by bits.

/// The bytes are a field: `IsField` in code_laws' Laws says it.
pub use code_laws::bytes_are_a_field;

/// 2 has order 255: `TwoHasOrder255` in code_laws' Laws says it.
pub use code_laws::order_of_two;

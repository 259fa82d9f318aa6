// Contents octets, a module for each kind.
pub mod bit_string;
pub mod boolean;
pub mod generalized_time;
pub mod integer;
pub mod moment;
pub mod object_identifier;
pub mod text;
pub mod utc_time;

// Shapes of types of ASN.1, as text: `docs/MAINTAINING.md` says how to add one.
mod certificates;
mod extensions;
mod kerberos;
mod keys;
mod makers;
mod messages;
mod pkcs12;
mod requests;
mod roots;
mod services;
mod signed;
mod universal;

pub use roots::{FITS, LABELS};

// Types of class Universal come first, since others are made of them.
pub const TABLES: [&str; 11] = [
    universal::TABLE,
    certificates::TABLE,
    extensions::TABLE,
    keys::TABLE,
    signed::TABLE,
    pkcs12::TABLE,
    services::TABLE,
    requests::TABLE,
    makers::TABLE,
    messages::TABLE,
    kerberos::TABLE,
];

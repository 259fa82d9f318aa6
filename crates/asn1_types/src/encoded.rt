// A value beside its encoding.
ghost use Rattle.std.specs.Prelude.{◌≡◌};
ghost use Rattle.simple_asn1.specs.Canonical.{canonical};

use crate::Asn1Write;

// A value, and what is written of it.
#[derive(Drop)]
pub struct Encoded<T: Asn1Write> {
    pub octets: Vec<u8>,
    pub value: T,
    ghost is_written: { octets.items ≡ canonical (T.Asn1Type.tree value) },
}

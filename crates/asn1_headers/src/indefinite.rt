// The indefinite form of a length, which BER has, and DER has not (X.690 8.1.3.6).
ghost use Rattle.std.specs.Prelude.{◌≡◌};
ghost use Rattle.asn1_headers.specs.Indefinite.{begins_with_end, is_indefinite};

// Whether the first of length octets is the octet 80 of the indefinite form.
pub fn is_indefinite(len: &[u8]) -> bool
    ensures { result ≡ is_indefinite len.now }
{
    matches!(len, [0x80, ..])
}

// Whether octets begin with end-of-contents octets (X.690 8.1.5).
pub fn begins_with_end(octets: &[u8]) -> bool
    ensures { result ≡ begins_with_end octets.now }
{
    matches!(octets, [0, 0, ..])
}

// Contents octets of an INTEGER (X.690 8.3).
ghost use Rattle.std.specs.Prelude.{◌≡◌, ◌≤◌, ℤ, length, IfOk, IfErr, IsTrue};
ghost use Rattle.asn1_leaves.specs.Contents.Integer.{IntegerContents, integer_contents, is_shortest_integer};
ghost use Rattle.asn1_headers.specs.declared.error.ASN1DecodeErr.TheVariants.{OutOfMemory};

use asn1_headers::error::ASN1DecodeErr;
use asn1_numbers::number::big_int::BigInt;
use asn1_numbers::sink::Sink;
use std::alloc::Global;

pub fn read(alloc: Global, contents: &[u8]) -> Result<BigInt, ASN1DecodeErr>
    ensures found { IfOk result (λ n. IntegerContents n contents.now) }
    ensures refused { IfErr result (λ e. e ≡ OutOfMemory) }
{
    Ok(BigInt::from_signed_bytes_be(alloc, contents)?)
}

// The number of octets that are written.
pub fn size(n: &BigInt) -> usize
    ensures { result ≡ length (integer_contents n.now) }
{
    n.octets().len()
}

pub fn push<S: Sink>(n: &BigInt, out: &mut S)
    requires { length (integer_contents n.now) ≤ S.room out.old }
    ensures { S.pushes out.old (integer_contents n.now) out.new }
{
    out.push_octets(n.octets());
}

// Whether contents octets are the shortest of an INTEGER, and at least one.
pub fn is_shortest_integer(contents: &[u8]) -> bool
    ensures { result ≡ is_shortest_integer contents.now }
{
    match contents {
        [] => false,
        [_] => true,
        [first, second, ..] => {
            if *second < 128 {
                *first != 0
            } else {
                *first != 0xFF
            }
        }
    }
}

// Whether contents octets are found to be those that are written of what they mean.
pub fn are_clearly_canonical(contents: &[u8]) -> bool
    ensures { IsTrue result → (n : ℤ) → IntegerContents n contents.now
        → contents.now ≡ integer_contents n }
{
    is_shortest_integer(contents)
}

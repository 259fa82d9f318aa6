// Contents octets of a BOOLEAN (X.690 8.2).
ghost use Rattle.std.specs.Prelude.{◌≡◌, ◌≤◌, Bool, length, IfOk, IfErr, IsTrue};
ghost use Rattle.asn1_leaves.specs.Contents.Boolean.{BooleanContents, BooleanFault, boolean_contents};
ghost use Rattle.asn1_headers.specs.Fault.{fault_of};

use asn1_headers::error::ASN1DecodeErr;
use asn1_numbers::sink::Sink;

pub fn read(contents: &[u8]) -> Result<bool, ASN1DecodeErr>
    ensures found { IfOk result (λ b. BooleanContents b contents.now) }
    ensures refused { IfErr result (λ e. BooleanFault contents.now (fault_of e)) }
{
    if contents.len() != 1 {
        return Err(ASN1DecodeErr::BadBooleanLength(contents.len()));
    }
    Ok(contents[0] != 0)
}

// Whether contents octets mean a truth value.
#[inline(always)]
pub fn are_clearly_meant(contents: &[u8]) -> bool
    ensures { IsTrue result → (b : Bool) × BooleanContents b contents.now }
{
    contents.len() == 1
}

// The number of octets that are written.
pub fn size(_value: bool) -> usize
    ensures { result ≡ length (boolean_contents _value) }
{
    1
}

pub fn push<S: Sink>(value: bool, out: &mut S)
    requires { length (boolean_contents value) ≤ S.room out.old }
    ensures { S.pushes out.old (boolean_contents value) out.new }
{
    out.push_octet(if value { 0xFF } else { 0 });
}

// Whether contents octets are found to be those that are written of what they mean.
pub fn are_clearly_canonical(contents: &[u8]) -> bool
    ensures { IsTrue result → (b : Bool) → BooleanContents b contents.now
        → contents.now ≡ boolean_contents b }
{
    match contents {
        [octet] => *octet == 0 || *octet == 0xFF,
        _ => false,
    }
}

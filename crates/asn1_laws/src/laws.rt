// Laws over the definitions alone: where DER by X.690 and what this library reads and writes are the same, and what is
// signed of a certificate.
ghost use Rattle.asn1_laws.specs.Laws.{DerIsCanonical, DerIsRead, WrittenIsDer};
ghost use Rattle.asn1_laws.specs.Signed.{FieldsAreSigned};

/// A law, with no code. All DER that a slice can hold is read, with three exceptions. A TeletexString, a
/// UniversalString or a BMPString, which have codes of their own in DER (X.690 8.23), is rejected where it is no UTF-8.
/// A BIT STRING is rejected where a `usize` cannot count its bits, and a GeneralizedTime where its second is 60. Inside
/// a block of another class than Universal none of them is rejected: that block is read, as `Unknown`.
///
/// ```rust
/// use simple_asn1::{ASN1DecodeErr, Document, is_der};
/// use std::alloc::Global;
///
/// // Blocks of DER. By the law, `None` is returned for what is not DER, and errors are `UTF8DecodeFailure`,
/// // `LengthTooLarge`, `InvalidDateValue` or `OutOfMemory`.
/// fn der_blocks(alloc: Global, octets: &[u8]) -> Result<Option<Document>, ASN1DecodeErr> {
///     if is_der(alloc, octets)? {
///         return Ok(Some(Document::from_der(alloc, octets)?));
///     }
///     Ok(None)
/// }
/// ```
pub fn law_der_is_read()
    ensures { DerIsRead }
{}

/// A law, with no code. A document that is DER is its own canonical octets, so that `rewrite` leaves it alone and
/// `from_der_strict` accepts it, exactly if none of its blocks, at any depth, is of three kinds.
///
/// The first kind is a BIT STRING without bits: DER has `03 01 00` (X.690 8.6.2.3), and `03 00` is written. The second
/// is an OBJECT IDENTIFIER whose first subidentifier goes on with an octet 80 (8.19.4), as in `06 03 81 80 01`. The
/// third is a GeneralizedTime with more than nine digits of a fraction, of which nine are kept.
///
/// ```rust
/// use simple_asn1::{ASN1Block, ASN1DecodeErr, from_der_strict};
/// use std::alloc::Global;
///
/// // The blocks of DER such as `02 01 05`. Of DER it rejects `03 01 00`, by the law.
/// fn strictly_read(alloc: Global, der: &[u8]) -> Result<Vec<ASN1Block>, ASN1DecodeErr> {
///     from_der_strict(alloc, der)
/// }
/// ```
pub fn law_der_is_canonical()
    ensures { DerIsCanonical }
{}

/// A law, with no code. What `to_der` writes of a faithful block is DER exactly if each of its blocks, at any depth,
/// keeps the following rules; a block of any other kind always does.
///
/// A BIT STRING has a bit or more, and at most 7 unused bits, which are 0. The first two components of an OBJECT
/// IDENTIFIER make a number below 128, or one above it with a third component behind them. An IA5String has characters
/// of ASCII alone. The UTF-8 of a UniversalString or BMPString is DER in their own code as well, as that of no
/// characters is. The items of a SET ascend by their tags (X.690 10.3), or by their octets (11.6). An `Unknown` is DER
/// as it came.
///
/// ```rust
/// use simple_asn1::{ASN1Block, ASN1EncodeErr, to_der};
/// use std::alloc::Global;
///
/// // DER of an `Integer`, and of each other block that is as the law says; not of an IA5String of `é`.
/// fn der_of(alloc: Global, block: &ASN1Block) -> Result<Vec<u8>, ASN1EncodeErr> {
///     to_der(alloc, block)
/// }
/// ```
pub fn law_written_is_der()
    ensures { WrittenIsDer }
{}

/// A law, with no code. A document that begins with a Certificate, a CertificateList or a CertificationRequest begins
/// with a signed triple, whose content is the first field: the TBSCertificate, the TBSCertList or the
/// CertificationRequestInfo. So the block that `Certificate::at` calls `tbs_certificate` is the one whose octets
/// `read_signed` returns.
///
/// ```rust
/// use simple_asn1::{TripleErr, read_signed};
/// use std::alloc::Global;
///
/// // What was signed of a certificate: by the law, the octets of its TBSCertificate.
/// fn tbs_certificate(alloc: Global, certificate: &[u8]) -> Result<Vec<u8>, TripleErr> {
///     let triple = read_signed(alloc, certificate)?;
///     Ok(triple.content)
/// }
/// ```
pub fn law_certificate_is_signed()
    ensures { FieldsAreSigned }
{}

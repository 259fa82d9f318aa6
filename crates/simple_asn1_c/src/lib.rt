//! The calls of `simple_asn1` for C, as `asn1_records` has them: flat records in place of trees, and no memory that a
//! caller must give back. An archive is proved each time it is made, so here is no more than what C sees.
#![tactic(auto)]

ghost use Rattle.std.specs.Prelude.{◌≡◌, ◌↔◌, ◌+◌, ◌*◌, ◌≤◌, ℕ, List, length};
ghost use Rattle.asn1_der.specs.Der.{IsDer};
ghost use Rattle.simple_asn1.specs.Places.{EncodingAt};
ghost use Rattle.simple_asn1.specs.Shapes.{HasShapes, Shapes, entries_of};
ghost use Rattle.simple_asn1.specs.Structure.{IsStructure, Nodes, nodes_in_order};
ghost use Rattle.asn1_records.specs.Answers.{AnswersCheck, AnswersOutline, AnswersRead, AnswersReadStrict, AnswersRewrite, AnswersSigned, AnswersWrite};
ghost use Rattle.asn1_records.specs.Certificates.{AnswersCertificate};
ghost use Rattle.asn1_records.specs.Contents.{AnswersComponent, AnswersComponents, AnswersDotted, AnswersFault, AnswersHeader, AnswersShortest, AnswersTag, AnswersTagOctets};
ghost use Rattle.asn1_records.specs.Departures.{AnswersDepartures};
ghost use Rattle.asn1_records.specs.Paths.{AnswersValues};
ghost use Rattle.asn1_records.specs.Puts.{AnswersPutBits, AnswersPutBoolean, AnswersPutIdentifier, AnswersPutInteger, AnswersPutMoment, AnswersPutText, moment_in};
ghost use Rattle.asn1_records.specs.Raw.{AnswersEncoding, AnswersRawBits, AnswersRawIdentifier, AnswersRawMoment, AnswersRawText, AnswersSpell};
ghost use Rattle.asn1_records.specs.Requests.{AnswersRequest};
ghost use Rattle.asn1_records.specs.RevocationLists.{AnswersRevocationList};
ghost use Rattle.asn1_records.specs.Status.{done};
ghost use Rattle.asn1_records.specs.Values.{AnswersBits, AnswersIdentifier, AnswersInteger, AnswersMoment, AnswersText, UniversalAt};

use asn1_records::bits::{bits_at, put_bits, put_boolean};
use asn1_records::certificate::certificate_in;
use asn1_records::components::{component_at, put_components, put_dotted, put_shortest};
use asn1_records::departures::list_departures;
use asn1_records::document_entries::{check, find_headers, find_records, find_records_strict};
use asn1_records::encoding::{put_header, put_tag, tag_octets_at};
use asn1_records::first_fault::{FaultAnswer, fault_in};
use asn1_records::identifier::{identifier_at, put_identifier};
use asn1_records::integer::{integer_at, put_integer};
use asn1_records::moment::{moment_at, put_moment};
use asn1_records::paths::find_values;
use asn1_records::put_encodings::{put_encoding, put_spelled};
use asn1_records::putting::{all_put, not_enough, nothing_put, put_found, put_front, put_records};
use asn1_records::raw::{put_raw_bits, put_raw_identifier, put_raw_moment, put_raw_text};
use asn1_records::record::{
    BitStringAnswer, Block, CertificateAnswer, DepartureRecord, IntegerAnswer, MomentAnswer,
    Outcome, Path, RequestAnswer, RevocationListAnswer, SignedAnswer, Value,
};
use asn1_records::request::request_in;
use asn1_records::revocation_list::revocation_list_in;
use asn1_records::rewriting::put_canonical;
use asn1_records::signed::signed_in;
use asn1_records::spelling::spell;
use asn1_records::text::{put_text, text_at};
use std::alloc::Global;

// The version that `simple_asn1_version` returns.
const VERSION: u32 = 1;

/// The version of the calls and records: `SIMPLE_ASN1_VERSION` of the header that they belong to.
#[unsafe(no_mangle)]
pub extern "C" fn simple_asn1_version() -> u32
    ensures { result ≡ 1 }
{
    VERSION
}

/// Reads a document into records: one for each block, each before those inside it.
///
/// Returns their number; `NO_ROOM` with the number that is needed, if there is less room; or the number of the first
/// fault, with the offset of the block at fault. After an error nothing is written. Records after those that are
/// written stay as they are.
///
/// Records are put there when all are known. Until then they take memory, but for no more of them than there is room
/// for: the others are counted alone, so that little is held without room. Each open level of nesting takes 64 bytes.
/// All of it is given back. Stack use does not grow with nesting.
#[unsafe(no_mangle)]
pub extern "C" fn simple_asn1_read(alloc: Global, octets: &[u8], blocks: &mut [Block]) -> Outcome
    ensures answer { AnswersRead octets.now blocks.old blocks.new result }

    // Half as many records as octets are room enough.
    ensures few { (ns : Nodes) → IsStructure octets.now ns → 2 * length (nodes_in_order ns) ≤ length octets.now }
{
    match find_records(alloc, octets, blocks.len()) {
        Ok(found) => put_found(&found, blocks),
        Err(fault) => nothing_put(fault.status, fault.offset),
    }
}

// How many records take little memory: so many are kept also without room, since a document is canonical at a look at
// them.
const FEW: usize = 4096;

/// Reads a document in canonical form (X.690 10, 11) into records, as [`simple_asn1_read`] does. For another document
/// it returns `NOT_CANONICAL`, with the offset of the first top-level block that is not in its canonical octets.
///
/// A document of more than 4,096 blocks is read twice, unless there is room for their records. One that a quick look
/// does not find to be canonical takes memory for its blocks.
#[unsafe(no_mangle)]
pub extern "C" fn simple_asn1_read_strict(
    alloc: Global,
    octets: &[u8],
    blocks: &mut [Block],
) -> Outcome
    ensures { AnswersReadStrict octets.now blocks.old blocks.new result }
{
    match find_records_strict(alloc, octets, blocks.len().max(FEW)) {
        Ok(found) => put_found(&found, blocks),
        Err(fault) => nothing_put(fault.status, fault.offset),
    }
}

/// Reads the encodings of a document by their headers alone (X.690 8.1.1) into records, as [`simple_asn1_read`] does.
/// The contents octets of leaves are not looked into. SEQUENCE and SET (8.9 to 8.12) hold encodings; so do constructed
/// encodings of another class (8.14), or they stay as they came, without items. The error is the first fault of a
/// header, with the offset of its encoding. The memory is that of [`simple_asn1_read`].
#[unsafe(no_mangle)]
pub extern "C" fn simple_asn1_outline(alloc: Global, octets: &[u8], blocks: &mut [Block]) -> Outcome
    ensures answer { AnswersOutline octets.now blocks.old blocks.new result }
    ensures few { (all : Shapes) → HasShapes octets.now all →
        2 * length (entries_of 0 0 all) ≤ length octets.now }
{
    match find_headers(alloc, octets, blocks.len()) {
        Ok(found) => put_found(&found, blocks),
        Err(fault) => nothing_put(fault.status, fault.offset),
    }
}

/// What paths lead to in a document, which is read by its headers alone as by [`simple_asn1_outline`]: one call for
/// many values. A path is a list of item numbers from 0: the first is that of an encoding of the document, each other
/// that of an item of the one before, as the records of [`simple_asn1_outline`] have items. `paths` says where each
/// begins in `steps`, and its length. A path that leads nowhere, such as one without numbers or beyond `steps`, is no
/// error: its value has kind 0. Kind 2 is an INTEGER (X.690 8.3) whose number is an `i64`, and kind 1 any other
/// encoding.
///
/// Returns the number of paths; `NO_ROOM` with it, if there is less room; or an error as [`simple_asn1_outline`]. After
/// an error nothing is written. It takes memory for the values, where there is room for all, and for each open level of
/// nesting. The headers in front of what a path leads to are read once more for each path.
#[unsafe(no_mangle)]
pub extern "C" fn simple_asn1_values(
    alloc: Global,
    octets: &[u8],
    steps: &[usize],
    paths: &[Path],
    values: &mut [Value],
) -> Outcome
    ensures { AnswersValues octets.now steps.now paths.now values.old values.new result }
{
    match find_values(alloc, octets, steps, paths, values.len()) {
        Ok(Some(found)) => put_front(&found, values),
        Ok(None) => not_enough(paths.len()),
        Err(fault) => nothing_put(fault.status, fault.offset),
    }
}

/// Puts a record for each rule of DER (X.690) that an encoding in the octets breaks, in the order of their offsets: the
/// offset of the encoding, and the number of the rule in `simple_asn1.h`. There are none exactly if the octets are DER.
/// Rules that need a schema are not checked.
///
/// Returns their number; `NO_ROOM` with it, if there is less room; or, for octets that are not encodings one after
/// another by their headers, the fault of the first header at fault outside of definite encodings, with its offset.
/// After an error nothing is written. It takes memory for the list and for each encoding that is open at a time, which
/// is given back. Stack use does not grow with nesting.
#[unsafe(no_mangle)]
pub extern "C" fn simple_asn1_departures(
    alloc: Global,
    octets: &[u8],
    records: &mut [DepartureRecord],
) -> Outcome
    ensures answer { AnswersDepartures octets.now records.old records.new result }
    ensures none { result.status ≡ done → (result.count ≡ 0) ↔ IsDer octets.now }
{
    match list_departures(alloc, octets) {
        Ok(found) => put_records(found.as_slice(), records),
        Err(fault) => nothing_put(fault.status, fault.offset),
    }
}

/// Writes the canonical octets of a document at the front of the room, and returns their number; or `NO_ROOM` with
/// that number, if there is less room, or the first fault, as [`simple_asn1_read`] does: then nothing is written. A
/// document that a quick look does not find to be canonical takes memory for its blocks and for what is written. Of
/// more than 65,536 octets no block is built before it is known that they are a document, and that there is room.
#[unsafe(no_mangle)]
pub extern "C" fn simple_asn1_rewrite(alloc: Global, octets: &[u8], room: &mut [u8]) -> Outcome
    ensures { AnswersRewrite octets.now room.old room.new result }
{
    put_canonical(alloc, octets, room)
}

/// Whether octets are a document, which is `DONE`; or the first fault, as [`simple_asn1_read`] returns it. No record is
/// made: it takes 64 bytes of memory at most for each open level of nesting, which is given back.
#[unsafe(no_mangle)]
pub extern "C" fn simple_asn1_check(alloc: Global, octets: &[u8]) -> Outcome
    ensures { AnswersCheck octets.now result }
{
    match check(alloc, octets) {
        Ok(()) => all_put(0),
        Err(fault) => nothing_put(fault.status, fault.offset),
    }
}

/// The number of the INTEGER at an offset (X.690 8.3). `OUT_OF_RANGE` if it does not fit an `i64`; `NO_SUCH_VALUE` if
/// there is no encoding, or one of another kind; otherwise the fault of the block. It is read alone, in memory that is
/// given back.
#[unsafe(no_mangle)]
pub extern "C" fn simple_asn1_int64(alloc: Global, octets: &[u8], offset: usize) -> IntegerAnswer
    ensures { AnswersInteger octets.now offset result }
{
    integer_at(alloc, octets, offset)
}

/// The number of bits of the BIT STRING at an offset (X.690 8.6), and where the octets stand that hold them; otherwise
/// as [`simple_asn1_int64`].
#[unsafe(no_mangle)]
pub extern "C" fn simple_asn1_bits(alloc: Global, octets: &[u8], offset: usize) -> BitStringAnswer
    ensures { AnswersBits octets.now offset result }
{
    bits_at(alloc, octets, offset)
}

/// The moment of the UTCTime or GeneralizedTime at an offset (X.690 8.25), in UTC; otherwise as [`simple_asn1_int64`].
#[unsafe(no_mangle)]
pub extern "C" fn simple_asn1_time(alloc: Global, octets: &[u8], offset: usize) -> MomentAnswer
    ensures { AnswersMoment octets.now offset result }
{
    moment_at(alloc, octets, offset)
}

/// Writes the text of the string at an offset (X.690 8.23), of any kind, in UTF-8 at the front of the room, and
/// returns its number of octets; `NO_ROOM` with that number, if there is less room. Otherwise as
/// [`simple_asn1_int64`], and nothing is written.
#[unsafe(no_mangle)]
pub extern "C" fn simple_asn1_text(
    alloc: Global,
    octets: &[u8],
    offset: usize,
    room: &mut [u8],
) -> Outcome
    ensures { AnswersText octets.now offset room.old room.new result }
{
    text_at(alloc, octets, offset, room)
}

/// Writes the components of the OBJECT IDENTIFIER at an offset (X.690 8.19) in decimal, with a point between two of
/// them, of any size, as [`simple_asn1_text`] does. `TOO_LONG` if there are more than 1,024 contents octets, since the
/// digits of one component take time that grows as their square.
#[unsafe(no_mangle)]
pub extern "C" fn simple_asn1_oid(
    alloc: Global,
    octets: &[u8],
    offset: usize,
    room: &mut [u8],
) -> Outcome
    ensures answer { AnswersIdentifier octets.now offset room.old room.new result }

    // Room for four octets for each contents octet, and one, is enough.
    ensures few { (tag : ℕ) (contents : List ℕ) → UniversalAt octets.now offset tag contents
        → result.count ≤ 4 * length contents + 1 }
{
    identifier_at(alloc, octets, offset, room)
}

/// The records of the content, the algorithm's OBJECT IDENTIFIER and the signature of the signed triple that a
/// document begins with; `next` and `depth` are 0 in them. `NOT_SIGNED` if it begins with another block; for any other
/// input the first fault, as [`simple_asn1_read`]. It takes memory for two records, and for each open level of nesting.
#[unsafe(no_mangle)]
pub extern "C" fn simple_asn1_signed(alloc: Global, octets: &[u8]) -> SignedAnswer
    ensures { AnswersSigned octets.now result }
{
    signed_in(alloc, octets)
}

/// The records of the fields of the certificate that a document begins with (RFC 5280, 4.1), as [`simple_asn1_read`]
/// writes them; of an absent field all numbers are 0. `version` and `extensions` are the explicit tags, so that what is
/// inside them begins behind their header. `NOT_CERTIFICATE` if the document begins with another block; for any other
/// input the first fault, as [`simple_asn1_read`]. No signature, chain, moment or purpose is checked. It takes memory
/// for the records of all blocks.
#[unsafe(no_mangle)]
pub extern "C" fn simple_asn1_certificate(alloc: Global, octets: &[u8]) -> CertificateAnswer
    ensures { AnswersCertificate octets.now result }
{
    certificate_in(alloc, octets)
}

/// The records of the fields of the certification request that a document begins with (RFC 2986, 4), as
/// [`simple_asn1_read`] writes them. `attributes` is the implicit tag, so that the first of them begins behind its
/// header. `NOT_REQUEST` if the document begins with another block; otherwise as [`simple_asn1_certificate`].
#[unsafe(no_mangle)]
pub extern "C" fn simple_asn1_request(alloc: Global, octets: &[u8]) -> RequestAnswer
    ensures { AnswersRequest octets.now result }
{
    request_in(alloc, octets)
}

/// The records of the fields of the list of revoked certificates that a document begins with (RFC 5280, 5.1), as
/// [`simple_asn1_read`] writes them; of an absent field all numbers are 0. `revoked_certificates` is the whole
/// SEQUENCE, and `crl_extensions` the explicit tag. `NOT_REVOCATION_LIST` if the document begins with another block;
/// otherwise as [`simple_asn1_certificate`].
#[unsafe(no_mangle)]
pub extern "C" fn simple_asn1_revocation_list(alloc: Global, octets: &[u8]) -> RevocationListAnswer
    ensures { AnswersRevocationList octets.now result }
{
    revocation_list_in(alloc, octets)
}

/// Writes the canonical octets of the document that records describe: one with items holds the records after it, any
/// other has its contents octets among these. Returns what [`simple_asn1_rewrite`] does; the offset of a fault is its
/// offset in the described document. `BAD_RECORD` with the index of the last record that cannot be written: its class
/// does not exist, its tag is `u64::MAX`, which also stands for each greater number, it holds more than there are, or
/// its contents octets are not within these.
#[unsafe(no_mangle)]
pub extern "C" fn simple_asn1_write(
    alloc: Global,
    octets: &[u8],
    blocks: &[Block],
    room: &mut [u8],
) -> Outcome
    ensures { AnswersWrite octets.now blocks.now room.old room.new result }
{
    let spelled = match spell(alloc, octets, blocks, true) {
        Ok(spelled) => spelled,
        Err(fault) => return nothing_put(fault.status, fault.offset),
    };
    if spelled.canonical {
        return put_front(spelled.octets.as_slice(), room);
    }
    put_canonical(alloc, spelled.octets.as_slice(), room)
}

/// Puts the contents octet of a BOOLEAN (X.690 8.2), true but for 0, at the front of the room, and returns how many
/// octets were put, which is 1; `NO_ROOM` with that number, if there is less room. Then, and after an error of the
/// calls below, nothing is written. It takes no memory; what those below take is given back.
#[unsafe(no_mangle)]
pub extern "C" fn simple_asn1_put_boolean(value: u8, room: &mut [u8]) -> Outcome
    ensures { AnswersPutBoolean value room.old room.new result }
{
    put_boolean(value, room)
}

/// Puts the contents octets of an INTEGER (X.690 8.3), the fewest that mean the number, as [`simple_asn1_put_boolean`]
/// does.
#[unsafe(no_mangle)]
pub extern "C" fn simple_asn1_put_int64(alloc: Global, value: i64, room: &mut [u8]) -> Outcome
    ensures { AnswersPutInteger value room.old room.new result }
{
    put_integer(alloc, value, room)
}

/// Puts the contents octets of a BIT STRING (X.690 8.6), as [`simple_asn1_put_boolean`] does: its bits are the first of
/// these octets. `OUT_OF_RANGE` if these octets are not the fewest that hold so many bits.
#[unsafe(no_mangle)]
pub extern "C" fn simple_asn1_put_bits(
    alloc: Global,
    octets: &[u8],
    bits: usize,
    room: &mut [u8],
) -> Outcome
    ensures { AnswersPutBits octets.now bits room.old room.new result }
{
    put_bits(alloc, octets, bits, room)
}

/// Puts the contents octets of the OBJECT IDENTIFIER (X.690 8.19) whose components the text has in decimal, with a
/// point between two of them, as [`simple_asn1_put_boolean`] does. `TOO_LONG` for a text of more than 4,097 octets,
/// which [`simple_asn1_oid`] never writes; `NOT_OID` for any other text; `OUT_OF_RANGE` if there is one component, the
/// first is above 2, or the second above 39, after 2 above 175: the first two take one octet.
#[unsafe(no_mangle)]
pub extern "C" fn simple_asn1_put_oid(alloc: Global, text: &[u8], room: &mut [u8]) -> Outcome
    ensures { AnswersPutIdentifier text.now room.old room.new result }
{
    put_identifier(alloc, text, room)
}

/// Puts the contents octets of a string (X.690 8.23) with this tag number and text, which is in UTF-8, as
/// [`simple_asn1_put_boolean`] does, without memory. `NO_SUCH_VALUE` for the tag number of no string; the fault of
/// text that is not UTF-8, or not a PrintableString's; `OUT_OF_RANGE` for a character above 7F in an IA5String.
#[unsafe(no_mangle)]
pub extern "C" fn simple_asn1_put_text(tag: u64, text: &[u8], room: &mut [u8]) -> Outcome
    ensures { AnswersPutText tag text.now room.old room.new result }
{
    put_text(tag, text, room)
}

/// Puts the contents octets of a UTCTime (tag 23) or GeneralizedTime (tag 24) of the moment (X.690 11.7, 11.8), as
/// [`simple_asn1_put_boolean`] does, without memory. `NO_SUCH_VALUE` for another tag number; the fault of a time if it
/// would not be read back: no such day or time, and in a UTCTime another year than 1950 to 2049 or a fraction of a
/// second. The status in the moment is ignored.
#[unsafe(no_mangle)]
pub extern "C" fn simple_asn1_put_time(tag: u64, moment: &MomentAnswer, room: &mut [u8]) -> Outcome
    ensures { AnswersPutMoment tag (moment_in moment.now) room.old room.new result }
{
    put_moment(tag, moment, room)
}

/// Puts the components that contents octets of an OBJECT IDENTIFIER (X.690 8.19) mean at the front of the room, and
/// returns how many there are; `NO_ROOM` with that number, if there is less room. `OUT_OF_RANGE` if one of them is 2^64
/// or more; the fault of octets that mean none. Then nothing is written. The memory that it takes is given back.
#[unsafe(no_mangle)]
pub extern "C" fn simple_asn1_components(
    alloc: Global,
    contents: &[u8],
    room: &mut [u64],
) -> Outcome
    ensures { AnswersComponents contents.now room.old room.new result }
{
    put_components(alloc, contents, room)
}

/// Puts these components in decimal with a point between two of them, of any size, as [`simple_asn1_components`] does.
/// `TOO_LONG` if there are more than 1,024 contents octets.
#[unsafe(no_mangle)]
pub extern "C" fn simple_asn1_dotted(alloc: Global, contents: &[u8], room: &mut [u8]) -> Outcome
    ensures answer { AnswersDotted contents.now room.old room.new result }
    ensures few { result.count ≤ 4 * length contents.now + 1 }
{
    put_dotted(alloc, contents, room)
}

/// How many octets the component has that begins at an index of contents octets of an OBJECT IDENTIFIER (X.690 8.19.2):
/// seven bits in each, the most significant first. The third component begins at index 1, and each other where the one
/// before ends. `NO_SUCH_VALUE` at index 0, since that octet is of the first two, and from the end on; `INCOMPLETE` if
/// the octets run out. It takes no memory. Components of any size come over in linear time so.
#[unsafe(no_mangle)]
pub extern "C" fn simple_asn1_component(contents: &[u8], index: usize) -> Outcome
    ensures { AnswersComponent contents.now index result }
{
    component_at(contents, index)
}

/// Puts the contents octets of these components (X.690 8.19.2), each subidentifier in the fewest octets, as
/// [`simple_asn1_components`] does. Contents octets that are so already take no memory.
#[unsafe(no_mangle)]
pub extern "C" fn simple_asn1_shortest_oid(
    alloc: Global,
    contents: &[u8],
    room: &mut [u8],
) -> Outcome
    ensures { AnswersShortest contents.now room.old room.new result }
{
    put_shortest(alloc, contents, room)
}

/// Puts the record of the encoding at an offset by its header alone (X.690 8.1.1), which has no items, `next` and
/// `depth`. `NO_SUCH_VALUE` if none stands there. The document around it is not looked at.
#[unsafe(no_mangle)]
pub extern "C" fn simple_asn1_header(
    alloc: Global,
    octets: &[u8],
    offset: usize,
    blocks: &mut [Block],
) -> Outcome
    ensures { AnswersHeader octets.now offset blocks.old blocks.new result }
{
    put_header(alloc, octets, offset, blocks)
}

/// Writes the tag number of the encoding at an offset (X.690 8.1.2) in decimal, of any size. `TOO_LONG` if there are
/// more than 1,024 identifier octets. Other errors are those of [`simple_asn1_header`].
#[unsafe(no_mangle)]
pub extern "C" fn simple_asn1_tag(
    alloc: Global,
    octets: &[u8],
    offset: usize,
    room: &mut [u8],
) -> Outcome
    ensures answer { AnswersTag octets.now offset room.old room.new result }

    // Room for three octets for each octet of the header is enough.
    ensures few { (encoding : List ℕ) → (at : EncodingAt octets.now offset encoding)
        → result.count ≤ 3 * at.encoding.header }
{
    put_tag(alloc, octets, offset, room)
}

/// How many identifier octets of the encoding at an offset follow the leading one (X.690 8.1.2.4): they have the tag
/// number, seven bits in each, the most significant first. There are none where the leading octet has it.
/// `NO_SUCH_VALUE` if there is no encoding. It takes no memory. A tag number of any size comes over in linear time so.
#[unsafe(no_mangle)]
pub extern "C" fn simple_asn1_tag_octets(octets: &[u8], offset: usize) -> Outcome
    ensures { AnswersTagOctets octets.now offset result }
{
    tag_octets_at(octets, offset)
}

/// The first fault of octets that are no document, as [`simple_asn1_read`] returns it, with what it says: a length, or
/// how many bits of a BIT STRING are missing; of a time that is none the text, which is put into the room. A document
/// has the status `DONE`.
#[unsafe(no_mangle)]
pub extern "C" fn simple_asn1_fault(alloc: Global, octets: &[u8], room: &mut [u8]) -> FaultAnswer
    ensures { AnswersFault octets.now room.old room.new result }
{
    fault_in(alloc, octets, room)
}

/// Puts the contents octets of a BIT STRING of so many bits (X.690 8.6), whether or not these octets are the fewest, as
/// [`simple_asn1_put_boolean`] does. `OUT_OF_RANGE` if they hold fewer bits, or more than 255 unused ones.
#[unsafe(no_mangle)]
pub extern "C" fn simple_asn1_raw_bits(
    alloc: Global,
    octets: &[u8],
    bits: usize,
    room: &mut [u8],
) -> Outcome
    ensures { AnswersRawBits octets.now bits room.old room.new result }
{
    put_raw_bits(alloc, octets, bits, room)
}

/// Puts the contents octets of the OBJECT IDENTIFIER (X.690 8.19) with these components, as [`simple_asn1_put_boolean`]
/// does. `NOT_OID` if there are fewer than two; `OUT_OF_RANGE` with the index of the first or the second as the offset,
/// if that is too large.
#[unsafe(no_mangle)]
pub extern "C" fn simple_asn1_raw_oid(alloc: Global, components: &[u64], room: &mut [u8]) -> Outcome
    ensures { AnswersRawIdentifier components.now room.old room.new result }
{
    put_raw_identifier(alloc, components, room)
}

/// Puts the contents octets of a string (X.690 8.23) with this tag number and any text, as [`simple_asn1_put_text`]
/// does: a PrintableString and an IA5String have an octet for each character. `OUT_OF_RANGE` if one is above FF.
#[unsafe(no_mangle)]
pub extern "C" fn simple_asn1_raw_text(
    alloc: Global,
    tag: u64,
    text: &[u8],
    room: &mut [u8],
) -> Outcome
    ensures { AnswersRawText tag text.now room.old room.new result }
{
    put_raw_text(alloc, tag, text, room)
}

/// Puts the contents octets of a UTCTime (tag 23) or GeneralizedTime (tag 24) of any moment of the years 0 to 9999
/// (X.690 11.7, 11.8), as [`simple_asn1_put_time`] does: a UTCTime keeps neither the century nor the fraction.
#[unsafe(no_mangle)]
pub extern "C" fn simple_asn1_raw_time(tag: u64, moment: &MomentAnswer, room: &mut [u8]) -> Outcome
    ensures { AnswersRawMoment tag (moment_in moment.now) room.old room.new result }
{
    put_raw_moment(tag, moment, room)
}

/// Puts the octets that records describe, as [`simple_asn1_write`] takes them, as they are: contents octets are not
/// looked into. Otherwise as [`simple_asn1_write`].
#[unsafe(no_mangle)]
pub extern "C" fn simple_asn1_spell(
    alloc: Global,
    octets: &[u8],
    blocks: &[Block],
    room: &mut [u8],
) -> Outcome
    ensures { AnswersSpell octets.now blocks.now room.old room.new result }
{
    put_spelled(alloc, octets, blocks, room)
}

/// Puts the shortest encoding (X.690 8.1) of contents octets with this class, constructed unless 0, and the tag number
/// in decimal. `BAD_RECORD` if there is no such class, or the text is not a numeral; `TOO_LONG` for a text of more than
/// 3,072 octets, which [`simple_asn1_tag`] never writes.
#[unsafe(no_mangle)]
pub extern "C" fn simple_asn1_encoding(
    alloc: Global,
    tag_class: u8,
    constructed: u8,
    tag: &[u8],
    contents: &[u8],
    room: &mut [u8],
) -> Outcome
    ensures { AnswersEncoding tag_class constructed tag.now contents.now room.old room.new result }
{
    put_encoding(alloc, tag_class, constructed, tag, contents, room)
}

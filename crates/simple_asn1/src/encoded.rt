// A block beside its encoding.
ghost use Rattle.std.specs.Prelude.{◌≡◌};
ghost use Rattle.asn1_blocks.specs.View.{view};
ghost use Rattle.asn1_writing.specs.Canonical.{canonical};

use asn1_blocks::block::ASN1Block;
use asn1_blocks::block::discard::discard_one;

// A block, and what is written of it.
pub struct Encoded {
    pub octets: Vec<u8>,
    pub block: ASN1Block,
    ghost is_written: { octets.items ≡ canonical (view block) },
}

impl Encoded {
    pub fn into_block(self) -> ASN1Block
        ensures { result ≡ self.block }
    {
        let Encoded { octets: _, block } = self;
        block
    }
}

impl Drop for Encoded {
    fn drop(self) {
        discard_one(self.into_block());
    }
}

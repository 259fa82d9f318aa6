// Bits that are set, by the names that their type has for them.
use crate::named::LeafType;
use crate::shapes::Shapes;
use asn1_headers::tags::BIT_STRING;
use std::alloc::{AllocError, Global};

// Of how many bits the names are told at most: types with names have some dozens of bits, and a document may have
// millions.
const MOST_BITS: usize = 1024;

impl Shapes {
    /// The names of the bits that are set of so many bits in octets, the first of them bit 8 of the first octet (X.690
    /// 8.6.2.1), with a comma and a space between two; of a bit that has no name its number (X.680 22.7). `None` where
    /// no bit is set, where the type has no names for bits, where there are more than 1,024 bits, and where more than
    /// seven bits of the octets are unused, since no BIT STRING is so (X.690 8.6.2.2).
    ///
    /// # Errors
    /// Memory ran out.
    pub fn bits_text(
        &self,
        alloc: Global,
        leaf: LeafType,
        count: usize,
        octets: &[u8],
    ) -> Result<Option<String>, AllocError> {
        let has_names = u64::from(leaf.tag) == BIT_STRING && !self.parts_of(leaf.shape).is_empty();
        if !has_names || count > MOST_BITS || count.div_ceil(8) < octets.len() {
            return Ok(None);
        }
        let mut text = String::new(alloc);
        for number in 0..count {
            let octet = octets.get(number / 8).copied().unwrap_or(0);
            if octet & (0x80 >> (number % 8)) == 0 {
                continue;
            }
            let comma = if text.is_empty() { "" } else { ", " };
            let bit = self.numbered(leaf.shape, number as u128);
            match bit.and_then(|bit| bit.name) {
                Some(name) => write!(text, "{comma}{name}")?,
                None => write!(text, "{comma}bit {number}")?,
            }
        }
        Ok(if text.is_empty() { None } else { Some(text) })
    }
}

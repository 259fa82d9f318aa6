// Addresses of IP, as certificates and messages of SNMP have them.
use std::alloc::{AllocError, Global};
use std::net::IpAddr;

/// An address of IP, or all addresses that are the same where the mask has a bit (RFC 5280, 4.2.1.6 and 4.2.1.10).
#[derive(Clone, Copy, Drop, PartialEq)]
pub struct Address {
    /// The address.
    pub address: IpAddr,
    /// The mask, if there is one.
    pub mask: Option<IpAddr>,
}

impl Address {
    /// The address of octets: of four octets IPv4, of sixteen IPv6, of twice as many an address and its mask. `None` of
    /// another number of octets.
    pub fn of(octets: &[u8]) -> Option<Address> {
        let size = match octets.len() {
            8 | 32 => octets.len() / 2,
            size => size,
        };
        let (address, mask) = octets.split_at(size);
        Some(Address {
            address: one_address(address)?,
            mask: one_address(mask),
        })
    }

    /// The address in text (RFC 4291, 2.2; RFC 5952), with a slash and its mask behind it, if it has one.
    ///
    /// # Errors
    /// Memory ran out.
    pub fn text(&self, alloc: Global) -> Result<String, AllocError> {
        let address = self.address;
        match self.mask {
            Some(mask) => format!(in alloc; "{address}/{mask}"),
            None => format!(in alloc; "{address}"),
        }
    }
}

fn one_address(octets: &[u8]) -> Option<IpAddr> {
    match octets.as_array::<4>() {
        Some(octets) => Some(IpAddr::from(*octets)),
        None => Some(IpAddr::from(*octets.as_array::<16>()?)),
    }
}

//! Nets of IPv4 addresses.
ghost use Rattle.std.specs.Prelude.{◌≡◌, ◌≤◌, [], ◌∷◌, ◌++◌, length};

// A list has at most this number of nets.
const MOST: usize = 16;

// An IPv4 address has this number of bits.
const BITS: u8 = 32;

/// A net: the addresses that agree with this one in their first bits.
#[derive(Clone, Copy, Debug, PartialEq, Eq)]
pub struct Net {
    address: u32,
    bits: u8,
}

impl Net {
    ghost use Rattle.kiss_gate.specs.Nets.{has_address};

    // Whether an address is in the net.
    fn has(&self, ip: u32) -> bool
        ensures { result ≡ has_address ip self.now }
    {
        let left = BITS.saturating_sub(self.bits);
        u64::from(ip) >> left == u64::from(self.address) >> left
    }
}

/// Nets whose clients are not served, at most 16.
#[derive(Clone, Copy, Debug, PartialEq, Eq)]
pub struct DenyList {
    nets: [Net; MOST],
    count: usize,
    ghost counted: { count ≤ 16 },
}

impl DenyList {
    ghost use Rattle.kiss_gate.specs.Nets.{is_denied, nets_of};

    /// The list that has no net.
    pub fn new() -> DenyList
        ensures { nets_of result ≡ [] }
    {
        let none = Net {
            address: 0,
            bits: 0,
        };
        DenyList {
            nets: [none; MOST],
            count: 0,
        }
    }

    /// Puts a net after the others: the addresses whose first `bits` bits are those of `net`. The later bits of `net` do not
    /// count.
    pub fn add(&mut self, net: u32, bits: u8)
        requires bits { bits ≤ 32 }
        requires room { length (nets_of self.old) ≤ 15 }
        ensures { nets_of self.new ≡ nets_of self.old ++ record { address = net; bits = bits } ∷ [] }
    {
        self.nets[self.count] = Net { address: net, bits };
        self.count += 1;
    }

    // Whether an address is in one of the nets.
    pub(crate) fn denies(&self, ip: u32) -> bool
        ensures { result ≡ is_denied ip (nets_of self.now) }
    {
        self.nets[..self.count].iter().any(|net| net.has(ip))
    }
}

//! A link between two nics.
ghost use Rattle.std.specs.Prelude.{◌≡◌};

/// A link as the experiment describes it: a pipe each way, both with the same numbers.
#[derive(Clone, Copy)]
pub struct LinkSpec {
    /// The guest at one end.
    pub a: u32,
    /// Its nic.
    pub a_nic: u32,
    /// The guest at the other end.
    pub b: u32,
    /// Its nic.
    pub b_nic: u32,
    /// Bytes in a tick: 1 to 1,000,000.
    pub bandwidth: u64,
    /// Ticks on the way: 1 to 10,000.
    pub delay: u64,
    /// The frames that a pipe holds: 1 to 1000.
    pub queue: u32,
}

impl LinkSpec {
    ghost use Rattle.exp_file.specs.Links.{has_end};

    /// Whether it has an end at a nic of a guest.
    pub fn has_end(&self, guest: u32, nic: u32) -> bool
        ensures { result ≡ has_end guest nic self.now }
    {
        (self.a == guest && self.a_nic == nic) || (self.b == guest && self.b_nic == nic)
    }
}

//! One page.
ghost use Rattle.std.specs.Prelude.{◌≡◌, ℕ, ◌+◌, ◌<◌, ◌≤◌, IfOk, length, replicate, slice_index, slice_range};
ghost use Rattle.byte_pages.specs.LittleEndian.{with_bytes};

use crate::no_page::NoPage;
use std::alloc::Global;
use std::marker::Model;

/// How many bytes a page has.
pub(crate) const PAGE: usize = 4096;

/// A page that is there. Contracts see the list of its bytes, which are 4096.
#[derive(Debug, Drop)]
pub(crate) struct Page {
    bytes: Vec<u8>,
}

impl Model for Page {
    ghost use Rattle.std.specs.Prelude.{◌≡◌, List, ℕ, length};

    ghost Value = { List ℕ };

    ghost view = { λ p. p.bytes.items };

    ghost invariant = { λ p. length p.bytes.items ≡ 4096 };
}

/// So many zero bytes in one piece.
pub(crate) fn zeros(alloc: Global, len: usize) -> Result<Vec<u8>, NoPage>
    ensures items { IfOk result (λ bytes. bytes.items ≡ replicate len 0) }
    ensures length { IfOk result (λ bytes. length bytes.items ≡ len) }
    ensures each { IfOk result (λ bytes. (i : ℕ) → slice_index bytes.items i ≡ 0) }
{
    match vec![in alloc; 0; len] {
        Ok(bytes) => Ok(bytes),
        Err(_) => Err(NoPage),
    }
}

impl Page {
    /// A page of zero bytes.
    pub(crate) fn zeros(alloc: Global) -> Result<Page, NoPage>
        ensures { IfOk result (λ page. (i : ℕ) → slice_index page i ≡ 0) }
    {
        let bytes = zeros(alloc, PAGE)?;
        Ok(Page { bytes })
    }

    /// The byte at a place of the page.
    pub(crate) fn get(&self, at: usize) -> u8
        requires { at < 4096 }
        ensures { result ≡ slice_index self.now at }
    {
        self.bytes[at]
    }

    /// Copies the bytes from a place of the page on, as many as `to` has.
    pub(crate) fn read_into(&self, at: usize, to: &mut [u8])
        requires { at + length to.old ≤ 4096 }
        ensures bytes { to.new ≡ slice_range self.now at (at + length to.old) }
        ensures length { length self.now ≡ 4096 }
    {
        to.copy_from_slice(&self.bytes[at..at + to.len()]);
    }

    /// Puts the bytes of `from` from a place of the page on.
    pub(crate) fn write_from(&mut self, at: usize, from: &[u8])
        requires { at + length from.now ≤ 4096 }
        ensures bytes { self.new ≡ with_bytes self.old at from.now }
        ensures length { length self.old ≡ 4096 }
    {
        self.bytes[at..at + from.len()].copy_from_slice(from);
    }
}

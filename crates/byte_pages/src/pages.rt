//! A byte array by pages.
ghost use Rattle.std.specs.Prelude.{◌≡◌, ◌+◌, ◌<◌, ◌≤◌, ◌⊎◌, ℕ, nat_lt, true, false, IfOk, OnOk, length, replicate, slice_index, slice_range, slice_set};
ghost use Rattle.std.specs.List.{count_by};
ghost use Rattle.byte_pages.specs.LittleEndian.{half_at, word_at, with_half, with_word, with_bytes};
ghost use Rattle.byte_pages.specs.Pages.{page_count, is_there, AreThere, IsTouched};

use crate::late_pages::LatePages;
use crate::no_page::NoPage;
use crate::page::{PAGE, zeros};
use std::alloc::Global;
use std::marker::Model;

/// A byte array whose length never changes. Contracts see the list of its bytes, and which of its pages are there.
///
/// A page has 4096 bytes, and the last one may be shorter. One that is not there reads as zeros and takes no memory.
#[derive(Debug, Drop)]
pub struct Pages {
    alloc: Global,
    // all bytes, once all pages were reserved at one time, so that RAM is read and written in one step
    block: Vec<u8>,
    // the bytes as long as `block` is empty
    late: LatePages,
}

impl Model for Pages {
    ghost use Rattle.byte_pages.specs.Pages.{PageState};
    ghost use Rattle.byte_pages.specs.Tables.{state_of};

    ghost Value = { PageState };

    ghost view = { λ p. state_of p.block.items p.late };
}

impl Pages {
    /// An array of `len` zero bytes, of which no page is there.
    pub fn new(alloc: Global, len: usize) -> Result<Pages, NoPage>
        ensures { IfOk result (λ pages. pages ≡ record { bytes = replicate len 0; there = replicate (page_count len) false }) }
    {
        let late = LatePages::new(alloc, len)?;
        Ok(Pages {
            alloc,
            block: Vec::new(alloc),
            late,
        })
    }

    /// How many bytes there are.
    pub fn len(&self) -> usize
        ensures { result ≡ length self.now.bytes }
    {
        if self.block.is_empty() {
            self.late.len()
        } else {
            self.block.len()
        }
    }

    /// Whether there is a byte at a place.
    pub fn holds(&self, at: usize) -> bool
        ensures { result ≡ nat_lt at (length self.now.bytes) }
    {
        at < self.block.len() || self.block.is_empty() && at < self.late.len()
    }

    /// How many pages are there.
    pub fn made(&self) -> usize
        ensures { result ≡ count_by (λ there. there) self.now.there }
    {
        if self.block.is_empty() {
            self.late.made()
        } else {
            self.block.len().div_ceil(PAGE)
        }
    }

    /// Makes the pages that the range touches, where they are not there yet. A refusal may have made some of them.
    pub fn reserve(&mut self, at: usize, len: usize) -> Result<(), NoPage>
        requires { at + len ≤ length self.old.bytes }
        ensures bytes { self.new.bytes ≡ self.old.bytes }
        ensures there { OnOk result (AreThere self.new at len) }
        ensures stays { (i : ℕ) → is_there self.old i ≡ true → is_there self.new i ≡ true }
        ensures inside { (i : ℕ) → is_there self.new i ≡ true → (is_there self.old i ≡ true) ⊎ IsTouched at len i }
        ensures count { length self.new.there ≡ length self.old.there }
    {
        if len == 0 || !self.block.is_empty() {
            Ok(())
        } else if len == self.late.len() && self.late.made() == 0 {
            self.late.sizes();
            self.block = zeros(self.alloc, len)?;
            self.late = LatePages::empty(self.alloc);
            Ok(())
        } else {
            self.late.reserve(at, len)
        }
    }

    /// The byte at a place, counted from 0.
    pub fn get(&self, at: usize) -> u8
        requires { at < length self.now.bytes }
        ensures { result ≡ slice_index self.now.bytes at }
    {
        if at < self.block.len() {
            self.block[at]
        } else {
            self.late.get(at)
        }
    }

    /// The number of two bytes, low byte first.
    pub fn get_half(&self, at: usize) -> u16
        requires { at + 2 ≤ length self.now.bytes }
        ensures { result ≡ half_at self.now.bytes at }
    {
        if at < self.block.len() {
            u16::from_le_bytes([self.block[at], self.block[at + 1]])
        } else {
            self.late.sizes();
            u16::from_le_bytes([self.late.get(at), self.late.get(at + 1)])
        }
    }

    /// The number of four bytes, low byte first.
    pub fn get_word(&self, at: usize) -> u32
        requires { at + 4 ≤ length self.now.bytes }
        ensures { result ≡ word_at self.now.bytes at }
    {
        if at < self.block.len() {
            u32::from_le_bytes([
                self.block[at],
                self.block[at + 1],
                self.block[at + 2],
                self.block[at + 3],
            ])
        } else {
            self.late.sizes();
            u32::from_le_bytes([
                self.late.get(at),
                self.late.get(at + 1),
                self.late.get(at + 2),
                self.late.get(at + 3),
            ])
        }
    }

    /// Puts a byte at a place.
    pub fn set(&mut self, at: usize, v: u8)
        requires inside { at < length self.old.bytes }
        requires there { AreThere self.old at 1 }
        ensures bytes { self.new.bytes ≡ slice_set self.old.bytes at v }
        ensures length { length self.new.bytes ≡ length self.old.bytes }
        ensures there { self.new.there ≡ self.old.there }
    {
        if at < self.block.len() {
            self.block[at] = v;
        } else {
            self.late.set(at, v);
        }
    }

    /// Puts a number of two bytes, low byte first.
    pub fn set_half(&mut self, at: usize, v: u16)
        requires inside { at + 2 ≤ length self.old.bytes }
        requires there { AreThere self.old at 2 }
        ensures bytes { self.new.bytes ≡ with_half self.old.bytes at v }
        ensures length { length self.new.bytes ≡ length self.old.bytes }
        ensures there { self.new.there ≡ self.old.there }
    {
        let [low, high] = v.to_le_bytes();
        if at < self.block.len() {
            self.block[at] = low;
            self.block[at + 1] = high;
        } else {
            self.late.sizes();
            self.late.set(at, low);
            self.late.set(at + 1, high);
        }
    }

    /// Puts a number of four bytes, low byte first.
    pub fn set_word(&mut self, at: usize, v: u32)
        requires inside { at + 4 ≤ length self.old.bytes }
        requires there { AreThere self.old at 4 }
        ensures bytes { self.new.bytes ≡ with_word self.old.bytes at v }
        ensures length { length self.new.bytes ≡ length self.old.bytes }
        ensures there { self.new.there ≡ self.old.there }
    {
        let [first, second, third, fourth] = v.to_le_bytes();
        if at < self.block.len() {
            self.block[at] = first;
            self.block[at + 1] = second;
            self.block[at + 2] = third;
            self.block[at + 3] = fourth;
        } else {
            self.late.sizes();
            self.late.set(at, first);
            self.late.set(at + 1, second);
            self.late.set(at + 2, third);
            self.late.set(at + 3, fourth);
        }
    }

    /// Copies the bytes from a place on, as many as `to` has.
    pub fn read_into(&self, at: usize, to: &mut [u8])
        requires { at + length to.old ≤ length self.now.bytes }
        ensures { to.new ≡ slice_range self.now.bytes at (at + length to.old) }
    {
        if self.block.is_empty() {
            self.late.read_into(at, to);
        } else {
            to.copy_from_slice(&self.block[at..at + to.len()]);
        }
    }

    /// Puts the bytes of `from` from a place on.
    pub fn write_from(&mut self, at: usize, from: &[u8])
        requires inside { at + length from.now ≤ length self.old.bytes }
        requires there { AreThere self.old at (length from.now) }
        ensures bytes { self.new.bytes ≡ with_bytes self.old.bytes at from.now }
        ensures length { length self.new.bytes ≡ length self.old.bytes }
        ensures there { self.new.there ≡ self.old.there }
    {
        if self.block.is_empty() {
            self.late.write_from(at, from);
        } else {
            self.block[at..at + from.len()].copy_from_slice(from);
        }
    }
}

//! A byte array whose pages are made late.
ghost use Rattle.std.specs.Prelude.{◌≡◌, ℕ, ◌+◌, ◌%◌, ◌/◌, ◌^◌, ◌<◌, ◌≤◌, ◌⊎◌, [], true, false, IfOk, MatchResult, OnOk, length, replicate, slice_index, slice_range, slice_set};
ghost use Rattle.std.specs.Bool.{OnTrue};
ghost use Rattle.std.specs.List.{count_by};
ghost use Rattle.byte_pages.specs.LittleEndian.{with_bytes};
ghost use Rattle.byte_pages.specs.Pages.{page_count, is_there, AreThere, IsTouched};

use crate::no_page::NoPage;
use crate::page::{PAGE, Page};
use std::alloc::Global;
use std::marker::Model;

/// A byte array with a table of its pages: of each page its bytes, or none where it is not there and reads as zeros.
#[derive(Debug, Drop)]
pub(crate) struct LatePages {
    alloc: Global,
    table: Vec<Option<Page>>,
    len: usize,
    made: usize,
}

impl Model for LatePages {
    ghost use Rattle.std.specs.Prelude.{◌≡◌, length, is_some};
    ghost use Rattle.std.specs.List.{count_by};
    ghost use Rattle.byte_pages.specs.Pages.{PageState, page_count};
    ghost use Rattle.byte_pages.specs.Tables.{bytes_of, there_of};

    ghost Value = { PageState };

    ghost view = { λ p. record { bytes = bytes_of p.table.items p.len; there = there_of p.table.items } };

    ghost invariant = { λ p. (length p.table.items ≡ page_count p.len) × (p.made ≡ count_by (λ there. there) (there_of p.table.items)) };
}

/// How many of the bytes from a place on lie in its page, and are `left` at most.
fn piece_len(at: usize, left: usize) -> usize
    ensures page { at % 4096 + result ≤ 4096 }
    ensures left { result ≤ left }
    ensures some { 0 < left → 0 < result }
{
    left.min(PAGE - at % PAGE)
}

impl LatePages {
    /// An array of `len` zero bytes, of which no page is there.
    pub(crate) fn new(alloc: Global, len: usize) -> Result<LatePages, NoPage>
        ensures { IfOk result (λ pages. pages ≡ record { bytes = replicate len 0; there = replicate (page_count len) false }) }
    {
        let mut table = Vec::new(alloc);
        for _ in 0..len.div_ceil(PAGE) {
            let Ok(()) = table.push(None) else {
                return Err(NoPage);
            };
        }
        Ok(LatePages {
            alloc,
            table,
            len,
            made: 0,
        })
    }

    /// An array of no bytes, for which no memory is taken.
    pub(crate) fn empty(alloc: Global) -> LatePages
        ensures { result ≡ record { bytes = []; there = [] } }
    {
        LatePages {
            alloc,
            table: Vec::new(alloc),
            len: 0,
            made: 0,
        }
    }

    /// How many bytes there are.
    pub(crate) fn len(&self) -> usize
        ensures { result ≡ length self.now.bytes }
    {
        self.len
    }

    /// Tells of the sizes: there are no more bytes than a `usize` counts, and an entry for each page.
    pub(crate) fn sizes(&self)
        ensures short { length self.now.bytes < 2 ^ 64 }
        ensures count { length self.now.there ≡ page_count (length self.now.bytes) }
    {
        let _len = self.len;
    }

    /// How many pages are there.
    pub(crate) fn made(&self) -> usize
        ensures made { result ≡ count_by (λ there. there) self.now.there }
        ensures none { result ≡ 0 → self.now.bytes ≡ replicate (length self.now.bytes) 0 }
    {
        self.made
    }

    /// Makes a page where it is not there yet.
    fn make(&mut self, page: usize) -> Result<(), NoPage>
        requires { page < length self.old.there }
        ensures bytes { self.new.bytes ≡ self.old.bytes }
        ensures there { MatchResult result (λ _. self.new.there ≡ slice_set self.old.there page true) (λ _. self.new.there ≡ self.old.there) }
    {
        if self.table[page].is_none() {
            let made = Page::zeros(self.alloc)?;
            self.table[page] = Some(made);
            self.made += 1;
        }
        Ok(())
    }

    /// The byte at a place, counted from 0.
    pub(crate) fn get(&self, at: usize) -> u8
        requires { at < length self.now.bytes }
        ensures { result ≡ slice_index self.now.bytes at }
    {
        match &self.table[at / PAGE] {
            Some(page) => page.get(at % PAGE),
            None => 0,
        }
    }

    /// Copies the bytes from a place on, as many as `to` has. They lie in one page.
    fn read_piece(&self, at: usize, to: &mut [u8])
        requires inside { at + length to.old ≤ length self.now.bytes }
        requires page { at % 4096 + length to.old ≤ 4096 }
        requires some { 0 < length to.old }
        ensures { to.new ≡ slice_range self.now.bytes at (at + length to.old) }
    {
        match &self.table[at / PAGE] {
            Some(page) => page.read_into(at % PAGE, to),
            None => to.fill(0),
        }
    }

    /// Puts the bytes of `from` from a place on. They lie in one page.
    fn write_piece(&mut self, at: usize, from: &[u8])
        requires inside { at + length from.now ≤ length self.old.bytes }
        requires page { at % 4096 + length from.now ≤ 4096 }
        requires some { 0 < length from.now }
        requires there { is_there self.old at ≡ true }
        ensures bytes { self.new.bytes ≡ with_bytes self.old.bytes at from.now }
        ensures there { self.new.there ≡ self.old.there }
    {
        if let Some(page) = &mut self.table[at / PAGE] {
            page.write_from(at % PAGE, from);
        }
    }

    /// Puts a byte at a place.
    pub(crate) fn set(&mut self, at: usize, v: u8)
        requires inside { at < length self.old.bytes }
        requires there { AreThere self.old at 1 }
        ensures bytes { self.new.bytes ≡ slice_set self.old.bytes at v }
        ensures there { self.new.there ≡ self.old.there }
    {
        self.write_piece(at, &[v]);
    }

    /// Copies the bytes from a place on, as many as `to` has.
    pub(crate) fn read_into(&self, at: usize, to: &mut [u8])
        requires { at + length to.old ≤ length self.now.bytes }
        ensures { to.new ≡ slice_range self.now.bytes at (at + length to.old) }
    {
        self.sizes();
        let mut done = 0;
        while done < to.len() {
            let count = piece_len(at + done, to.len() - done);
            self.read_piece(at + done, &mut to[done..done + count]);
            done += count;
        }
    }

    /// Puts the bytes of `from` from a place on.
    pub(crate) fn write_from(&mut self, at: usize, from: &[u8])
        requires inside { at + length from.now ≤ length self.old.bytes }
        requires there { AreThere self.old at (length from.now) }
        ensures bytes { self.new.bytes ≡ with_bytes self.old.bytes at from.now }
        ensures there { self.new.there ≡ self.old.there }
    {
        self.sizes();
        let mut done = 0;
        while done < from.len() {
            let count = piece_len(at + done, from.len() - done);
            self.write_piece(at + done, &from[done..done + count]);
            done += count;
        }
    }

    /// Makes the pages that the range touches, where they are not there yet. A refusal may have made some of them.
    pub(crate) fn reserve(&mut self, at: usize, len: usize) -> Result<(), NoPage>
        requires { at + len ≤ length self.old.bytes }
        ensures bytes { self.new.bytes ≡ self.old.bytes }
        ensures there { OnOk result (AreThere self.new at len) }
        ensures stays { (i : ℕ) → is_there self.old i ≡ true → is_there self.new i ≡ true }
        ensures inside { (i : ℕ) → is_there self.new i ≡ true → (is_there self.old i ≡ true) ⊎ IsTouched at len i }
        ensures count { length self.new.there ≡ length self.old.there }
    {
        if len == 0 {
            return Ok(());
        }
        self.sizes();
        for page in at / PAGE..(at + len).div_ceil(PAGE) {
            self.make(page)?;
        }
        Ok(())
    }
}

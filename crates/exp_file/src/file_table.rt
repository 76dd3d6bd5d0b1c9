//! One table of the file, and its fields by their keys.
ghost use Rattle.std.specs.Prelude.{◌≡◌, ◌≤◌, ◌<◌, ◌^◌, ℕ, List, Option, option_map, Result, IfOk, OnOk, IfSome, map, string_bytes, length, ◌||◌, ◌==◌, ◌%◌, not, Ok, Some, true};
ghost use Rattle.std.specs.List.{list_any, list_all};
ghost use Rattle.std.specs.Str.{bytes_eq};
ghost use Rattle.toml.specs.Data.{get_member, as_str};
ghost use Rattle.toml.specs.View.{view, table_view, items_view};
ghost use Rattle.exp_file.specs.Keys.{Gives, at_key, needed, with_default, number_in, number, number_or, maybe_number, text, text_of, maybe_text, text_in, multiple, has_form, is_name_byte, is_not_zero, first_unknown, known, keys_of, fault_at, TextAt, TextGives, IsNameForm, some_array, some_of, format, array_in, array, sized};
ghost use Rattle.tb_base.specs.Names.{IsNameLength};
ghost use Rattle.exp_file.specs.TableOf.{ArrayAt, ItemsGive, table_at};

use crate::exp_fault::{ExpErr, ExpFault};
use crate::exp_why::ExpWhy;
use crate::form::Form;
use crate::guest_spec::Format;
use crate::section::Section;
use crate::unknown::unknown_key;
use std::alloc::Global;
use tb_base::{Label, Name};
use toml::{Table, Value};

/// One table of the file: which it is, and its members.
#[derive(Clone, Copy)]
pub(crate) struct FileTable<'a> {
    pub(crate) section: Section,
    pub(crate) index: u32,
    pub(crate) table: &'a Table,
}

fn value_at<'a>(table: &'a Table, key: &str) -> Option<&'a Value>
    ensures { option_map (λ v. view v.now) result ≡ get_member key.now (table_view table.now) }
{
    table.get(key)
}

fn number_at(table: &Table, key: &str, low: u64, high: u64) -> Result<Option<u64>, ExpWhy>
    ensures given { result ≡ number_in low high (get_member key.now (table_view table.now)) }
    ensures bound { IfOk result (λ o. IfSome o (λ n. (low ≤ n) × (n ≤ high))) }
{
    let Some(value) = value_at(table, key) else {
        return Ok(None);
    };
    let Some(z) = value.as_integer() else {
        return Err(ExpWhy::WrongKind);
    };
    let Ok(n) = u64::try_from(z) else {
        return Err(ExpWhy::Range);
    };
    if low <= n && n <= high {
        Ok(Some(n))
    } else {
        Err(ExpWhy::Range)
    }
}

fn is_name_byte(b: u8) -> bool
    ensures { result ≡ is_name_byte b }
{
    b.is_ascii_lowercase() || b.is_ascii_digit() || b == b'_' || b == b'-'
}

fn are_name_bytes(t: &[u8]) -> bool
    ensures { result ≡ list_all is_name_byte t.now }
{
    t.iter().all(|b| is_name_byte(*b))
}

fn has_no_zero(t: &[u8]) -> bool
    ensures { result ≡ list_all is_not_zero t.now }
{
    t.iter().all(|b| *b != 0)
}

fn has_form(form: Form, t: &str) -> bool
    ensures { result ≡ has_form form t.now }
{
    match form {
        Form::GuestName => 1 <= t.len() && t.len() <= 32 && are_name_bytes(t.as_bytes()),
        Form::ImageName => 1 <= t.len() && t.len() <= 255 && has_no_zero(t.as_bytes()),
        Form::ImageKind => t == "elf" || t == "flat",
        Form::AnyText => true,
    }
}

fn text_at<'a>(table: &'a Table, key: &str, form: Form) -> Result<Option<&'a str>, ExpWhy>
    ensures given { TextAt result (text_in (has_form form) (get_member key.now (table_view table.now))) }
    ensures form { IfOk result (λ o. IfSome o (λ t. has_form form t.now ≡ true)) }
{
    let Some(value) = value_at(table, key) else {
        return Ok(None);
    };
    let Some(t) = value.as_str() else {
        return Err(ExpWhy::WrongKind);
    };
    if has_form(form, t) {
        Ok(Some(t))
    } else {
        Err(ExpWhy::Range)
    }
}

fn copy_of(alloc: Global, t: &str) -> Result<Name, ExpErr>
    requires { IsNameLength (length t.now) }
    ensures given { Gives result (Ok t.now) }
    ensures copy { IfOk result (λ n. n ≡ t.now) }
{
    match Name::from_text(alloc, t) {
        Ok(name) => Ok(name),
        Err(_) => Err(ExpErr::NoMemory),
    }
}

impl FileTable<'_> {
    pub(crate) fn fault(&self, key: &str, why: ExpWhy) -> ExpErr
        ensures { result ≡ ExpErr.Fault (fault_at (table_at self.now.section self.now.index self.now.table.now) key.now why) }
    {
        ExpErr::Fault(ExpFault {
            why,
            section: self.section,
            index: self.index,
            key: Label::cut(key.as_bytes()),
        })
    }

    /// The number at a key that the table must have.
    #[tactic(auto, unfolding(crate::specs::Keys::number))]
    pub(crate) fn number(&self, key: &str, low: u64, high: u64) -> Result<u64, ExpErr>
        ensures given { Gives result (number (table_at self.now.section self.now.index self.now.table.now) key.now low high) }
        ensures bound { IfOk result (λ n. (low ≤ n) × (n ≤ high)) }
    {
        match number_at(self.table, key, low, high) {
            Ok(Some(n)) => Ok(n),
            Ok(None) => Err(self.fault(key, ExpWhy::Missing)),
            Err(why) => Err(self.fault(key, why)),
        }
    }

    /// The number at a key, or what it is where the table has no such key.
    #[tactic(auto, unfolding(crate::specs::Keys::number_or))]
    pub(crate) fn number_or(
        &self,
        key: &str,
        low: u64,
        high: u64,
        without: u64,
    ) -> Result<u64, ExpErr>
        requires low { low ≤ without }
        requires high { without ≤ high }
        ensures given { Gives result (number_or (table_at self.now.section self.now.index self.now.table.now) key.now low high without) }
        ensures bound { IfOk result (λ n. (low ≤ n) × (n ≤ high)) }
    {
        match number_at(self.table, key, low, high) {
            Ok(Some(n)) => Ok(n),
            Ok(None) => Ok(without),
            Err(why) => Err(self.fault(key, why)),
        }
    }

    /// The number at a key, if the table has it.
    #[tactic(auto, unfolding(crate::specs::Keys::maybe_number))]
    pub(crate) fn maybe_number(&self, key: &str, low: u32, high: u32) -> Result<Option<u32>, ExpErr>
        ensures given { Gives result (maybe_number (table_at self.now.section self.now.index self.now.table.now) key.now low high) }
        ensures bound { IfOk result (λ o. IfSome o (λ n. (low ≤ n) × (n ≤ high))) }
    {
        match number_at(self.table, key, u64::from(low), u64::from(high)) {
            Ok(Some(n)) => Ok(Some(n as u32)),
            Ok(None) => Ok(None),
            Err(why) => Err(self.fault(key, why)),
        }
    }

    /// The format of an image.
    #[tactic(auto, unfolding(crate::specs::Keys::format))]
    pub(crate) fn format(&self) -> Result<Format, ExpErr>
        ensures { Gives result (format (table_at self.now.section self.now.index self.now.table.now)) }
    {
        match text_at(self.table, "format", Form::ImageKind) {
            Ok(Some(t)) => Ok(if t == "flat" {
                Format::Flat
            } else {
                Format::Elf
            }),
            Ok(None) => Ok(Format::Elf),
            Err(why) => Err(self.fault("format", why)),
        }
    }

    /// Refuses a number that is no multiple.
    #[tactic(auto, unfolding(crate::specs::Keys::multiple))]
    pub(crate) fn multiple(&self, key: &str, n: u64, of: u64) -> Result<(), ExpErr>
        requires { 0 < of }
        ensures given { Gives result (multiple (table_at self.now.section self.now.index self.now.table.now) key.now n of) }
        ensures is { OnOk result (n % of ≡ 0) }
    {
        if n % of == 0 {
            Ok(())
        } else {
            Err(self.fault(key, ExpWhy::Range))
        }
    }

    /// The text at a key that the table must have.
    #[tactic(auto, unfolding(crate::specs::Keys::text))]
    pub(crate) fn text(&self, key: &str, form: Form) -> Result<&str, ExpErr>
        ensures given { TextGives result (text (table_at self.now.section self.now.index self.now.table.now) key.now form) }
        ensures form { IfOk result (λ t. has_form form t.now ≡ true) }
    {
        match text_at(self.table, key, form) {
            Ok(Some(t)) => Ok(t),
            Ok(None) => Err(self.fault(key, ExpWhy::Missing)),
            Err(why) => Err(self.fault(key, why)),
        }
    }

    /// The name at a key that the table must have.
    pub(crate) fn name(&self, alloc: Global, key: &str, form: Form) -> Result<Name, ExpErr>
        requires { IsNameForm form }
        ensures given { Gives result (text (table_at self.now.section self.now.index self.now.table.now) key.now form) }
        ensures form { IfOk result (λ t. has_form form t ≡ true) }
    {
        match self.text(key, form) {
            Ok(t) => copy_of(alloc, t),
            Err(e) => Err(e),
        }
    }

    /// The name at a key, if the table has it.
    #[tactic(auto, unfolding(crate::specs::Keys::maybe_text))]
    pub(crate) fn maybe_name(
        &self,
        alloc: Global,
        key: &str,
        form: Form,
    ) -> Result<Option<Name>, ExpErr>
        requires { IsNameForm form }
        ensures given { Gives result (maybe_text (table_at self.now.section self.now.index self.now.table.now) key.now form) }
        ensures form { IfOk result (λ o. IfSome o (λ t. has_form form t ≡ true)) }
    {
        match text_at(self.table, key, form) {
            Ok(Some(t)) => match copy_of(alloc, t) {
                Ok(name) => Ok(Some(name)),
                Err(e) => Err(e),
            },
            Ok(None) => Ok(None),
            Err(why) => Err(self.fault(key, why)),
        }
    }

    /// Refuses a key that the table does not have.
    #[tactic(auto, unfolding(crate::specs::Keys::known))]
    pub(crate) fn known(&self) -> Result<(), ExpErr>
        ensures { Gives result (known (table_at self.now.section self.now.index self.now.table.now)) }
    {
        match unknown_key(self.section, self.table) {
            None => Ok(()),
            Some(key) => Err(self.fault(key, ExpWhy::Unknown)),
        }
    }

    /// The items of the array at a key; none where the table has no such key.
    #[tactic(auto, unfolding(crate::specs::Keys::array))]
    pub(crate) fn array(&self, key: &str, most: usize) -> Result<&[Value], ExpErr>
        ensures given { ItemsGive result (array (table_at self.now.section self.now.index self.now.table.now) key.now most) }
        ensures bound { IfOk result (λ vs. length vs.now ≤ most) }
    {
        match array_at(self.table, key, most) {
            Ok(values) => Ok(values),
            Err(why) => Err(self.fault(key, why)),
        }
    }

    /// The items of an array that the table must have, and that must not be empty.
    #[tactic(auto, unfolding(crate::specs::Keys::some_array))]
    pub(crate) fn some_array(
        &self,
        key: &str,
        most: usize,
        none: ExpWhy,
    ) -> Result<&[Value], ExpErr>
        ensures given { ItemsGive result (some_array (table_at self.now.section self.now.index self.now.table.now) key.now most none) }
        ensures bound { IfOk result (λ vs. (0 < length vs.now) × (length vs.now ≤ most)) }
    {
        match self.array(key, most) {
            Ok(values) => self.some_of(key, none, values),
            Err(e) => Err(e),
        }
    }

    fn some_of<'a>(
        &self,
        key: &str,
        none: ExpWhy,
        values: &'a [Value],
    ) -> Result<&'a [Value], ExpErr>
        ensures given { ItemsGive result (some_of (table_at self.now.section self.now.index self.now.table.now) key.now none (items_view values.now)) }
        ensures same { IfOk result (λ vs. (0 < length vs.now) × (length vs.now ≡ length values.now)) }
    {
        if values.is_empty() {
            Err(self.fault(key, none))
        } else {
            Ok(values)
        }
    }
}

fn array_at<'a>(table: &'a Table, key: &str, most: usize) -> Result<&'a [Value], ExpWhy>
    ensures given { ArrayAt result (array_in most (get_member key.now (table_view table.now))) }
    ensures bound { IfOk result (λ vs. length vs.now ≤ most) }
{
    let Some(value) = value_at(table, key) else {
        return Ok(&[]);
    };
    let Some(values) = value.as_array() else {
        return Err(ExpWhy::WrongKind);
    };
    sized(values.as_slice(), most)
}

fn sized(values: &[Value], most: usize) -> Result<&[Value], ExpWhy>
    ensures given { ArrayAt result (sized most (Some (items_view values.now))) }
    ensures bound { IfOk result (λ vs. length vs.now ≤ most) }
{
    if values.len() <= most {
        Ok(values)
    } else {
        Err(ExpWhy::Range)
    }
}

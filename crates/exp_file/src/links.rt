//! The links.
ghost use Rattle.std.specs.Prelude.{◌≡◌, ◌≤◌, ◌<◌, length, Some, IfOk, false};
ghost use Rattle.exp_file.specs.Links.{nics_of, is_used, is_same, free_nic, end_of, link_fields, link_ends};
ghost use Rattle.exp_file.specs.TableOf.{table_at};
ghost use Rattle.exp_file.specs.Keys.{Gives};
ghost use Rattle.exp_file.specs.WellFormed.{IsLink, IsFree, AreFields};

use crate::disks::{found, guest_at};
use crate::each::Step;
use crate::exp_fault::ExpErr;
use crate::exp_why::ExpWhy;
use crate::file_table::FileTable;
use crate::guest_spec::GuestSpec;
use crate::link_spec::LinkSpec;
use crate::section::Section;
use crate::slots::element;
use tb_base::limits::{BANDWIDTH, DELAY, NICS, QUEUE};
use toml::Value;

fn is_used(links: &[LinkSpec], g: u32, nic: u32) -> bool
    ensures { result ≡ is_used links.now g nic }
{
    links.iter().any(|link| link.has_end(g, nic))
}

fn is_same(other: Option<(u32, u32)>, g: u32, nic: u32) -> bool
    ensures { result ≡ is_same other g nic }
{
    match other {
        Some(end) => end.0 == g && end.1 == nic,
        None => false,
    }
}

fn nics_of(guests: &[GuestSpec], g: u32) -> u32
    ensures { result ≡ nics_of guests.now g }
{
    match guests.get(g as usize) {
        Some(guest) => guest.nics,
        None => 0,
    }
}

#[tactic(auto, unfolding(crate::specs::Links::free_nic))]
fn free_nic(
    element: &FileTable<'_>,
    key: &str,
    nics: u32,
    nic: u32,
    taken: bool,
) -> Result<u32, ExpErr>
    ensures given { Gives result (free_nic (table_at element.now.section element.now.index element.now.table.now) key.now nics nic taken) }
    ensures bound { IfOk result (λ _. nic < nics) }
    ensures free { IfOk result (λ _. taken ≡ false) }
{
    if nic >= nics {
        return Err(element.fault(key, ExpWhy::NicRange));
    }
    if taken {
        return Err(element.fault(key, ExpWhy::NicTaken));
    }
    Ok(nic)
}

/// What an end of a link must not meet: the guests, the links before it, and its link's other end.
#[derive(Clone, Copy)]
struct Around<'a> {
    guests: &'a [GuestSpec],
    done: &'a [LinkSpec],
    other: Option<(u32, u32)>,
}

#[tactic(auto, unfolding(crate::specs::Links::end_of))]
fn end_of(
    element: &FileTable<'_>,
    around: &Around<'_>,
    key: &str,
    nic_key: &str,
    named: Option<u32>,
    nic: u32,
) -> Result<u32, ExpErr>
    ensures given { Gives result (end_of (table_at element.now.section element.now.index element.now.table.now) around.now.guests.now
        around.now.done.now around.now.other key.now nic_key.now named nic) }
    ensures same { IfOk result (λ g. named ≡ Some g) }
    ensures nic { IfOk result (λ g. nic < nics_of around.now.guests.now g) }
    ensures unused { IfOk result (λ g. is_used around.now.done.now g nic ≡ false) }
    ensures other { IfOk result (λ g. is_same around.now.other g nic ≡ false) }
{
    let g = found(element, key, named)?;
    let taken = is_used(around.done, g, nic) || is_same(around.other, g, nic);
    free_nic(element, nic_key, nics_of(around.guests, g), nic, taken)?;
    Ok(g)
}

/// What a link's table says; an end is none where no guest has the name.
#[derive(Clone, Copy)]
pub struct LinkFields {
    pub a: Option<u32>,
    pub a_nic: u32,
    pub b: Option<u32>,
    pub b_nic: u32,
    pub bandwidth: u64,
    pub delay: u64,
    pub queue: u32,
}

#[tactic(auto, unfolding(crate::specs::Links::link_fields))]
fn link_fields(guests: &[GuestSpec], element: &FileTable<'_>) -> Result<LinkFields, ExpErr>
    requires { length guests.now ≤ 32 }
    ensures given { Gives result (link_fields guests.now (table_at element.now.section element.now.index element.now.table.now)) }
    ensures well { IfOk result (AreFields (length guests.now)) }
{
    element.known()?;
    let a = guest_at(guests, element, "a")?;
    let a_nic = element.number_or("a_nic", 0, u64::from(NICS) - 1, 0)?;
    let b = guest_at(guests, element, "b")?;
    let b_nic = element.number_or("b_nic", 0, u64::from(NICS) - 1, 0)?;
    let bandwidth = element.number("bandwidth", 1, BANDWIDTH)?;
    let delay = element.number("delay", 1, DELAY)?;
    let queue = element.number("queue", 1, u64::from(QUEUE))?;
    Ok(LinkFields {
        a,
        a_nic: a_nic as u32,
        b,
        b_nic: b_nic as u32,
        bandwidth,
        delay,
        queue: queue as u32,
    })
}

#[tactic(auto, unfolding(crate::specs::Links::link_ends))]
fn link_ends(
    guests: &[GuestSpec],
    done: &[LinkSpec],
    element: &FileTable<'_>,
    f: &LinkFields,
) -> Result<LinkSpec, ExpErr>
    requires { AreFields (length guests.now) f.now }
    ensures given { Gives result (link_ends guests.now done.now (table_at element.now.section element.now.index element.now.table.now) f.now) }
    ensures well { IfOk result (IsLink guests.now) }
    ensures free { IfOk result (IsFree done.now) }
{
    let first = Around {
        guests,
        done,
        other: None,
    };
    let a = end_of(element, &first, "a", "a_nic", f.a, f.a_nic)?;
    let second = Around {
        guests,
        done,
        other: Some((a, f.a_nic)),
    };
    let b = end_of(element, &second, "b", "b_nic", f.b, f.b_nic)?;
    Ok(LinkSpec {
        a,
        a_nic: f.a_nic,
        b,
        b_nic: f.b_nic,
        bandwidth: f.bandwidth,
        delay: f.delay,
        queue: f.queue,
    })
}

/// The links of a file that has these guests.
#[derive(Clone, Copy)]
pub(crate) struct Links<'a> {
    pub(crate) guests: &'a [GuestSpec],
}

impl Step for Links<'_> {
    ghost use Rattle.exp_file.specs.Kept.{AreLinks};
    ghost use Rattle.exp_file.specs.Links.{link_step};

    type Item = LinkSpec;

    ghost says = { λ l. link_step l.guests.now };

    ghost keeps = { λ l. AreLinks l.guests.now };

    #[tactic(auto, unfolding(crate::specs::Links::link_step))]
    fn step(&self, done: &[LinkSpec], value: &Value) -> Result<LinkSpec, ExpErr> {
        let element = element(Section::Link, done.len() as u32, value)?;
        let fields = link_fields(self.guests, &element)?;
        link_ends(self.guests, done, &element, &fields)
    }
}

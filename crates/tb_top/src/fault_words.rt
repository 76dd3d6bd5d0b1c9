//! The words of faults.
ghost use Rattle.std.specs.Prelude.{◌≡◌};
ghost use Rattle.tb_top.specs.Lines.{usage_word, kind_word, elf_word, why_word, section_word};

use dev_face::Kind;
use elf_image::ElfFault;
use exp_file::{ExpWhy, Section};
use words_line::WordFault;

pub(crate) fn usage_word(fault: WordFault) -> &'static str
    ensures { result.now ≡ usage_word fault }
{
    match fault {
        WordFault::NotWords => "not-words",
        WordFault::UnknownCommand => "unknown-command",
        WordFault::EmptyName => "empty-name",
        WordFault::ExtraOption => "extra-option",
        WordFault::MissingOption => "missing-option",
        WordFault::BadNumber => "bad-number",
        WordFault::BadView => "bad-view",
    }
}

pub(crate) fn kind_word(kind: Kind) -> &'static str
    ensures { result.now ≡ kind_word kind }
{
    match kind {
        Kind::Clint => "clint",
        Kind::Uart => "uart",
        Kind::Blk => "blk",
        Kind::Net => "net",
    }
}

pub(crate) fn elf_word(fault: ElfFault) -> &'static str
    ensures { result.now ≡ elf_word fault }
{
    match fault {
        ElfFault::NotElf => ": not-elf",
        ElfFault::Truncated => ": truncated",
        ElfFault::WrongKind => ": wrong-kind",
        ElfFault::BadSegment(_) => ": bad-segment",
        ElfFault::OutsideRam(_) => ": outside-ram",
        ElfFault::BadEntry => ": bad-entry",
    }
}

pub(crate) fn why_word(why: ExpWhy) -> &'static str
    ensures { result.now ≡ why_word why }
{
    match why {
        ExpWhy::NotToml => "not-toml",
        ExpWhy::Missing => "missing",
        ExpWhy::Unknown => "unknown",
        ExpWhy::WrongKind => "wrong-kind",
        ExpWhy::Range => "range",
        ExpWhy::Twice => "twice",
        ExpWhy::NoSuchGuest => "no-such-guest",
        ExpWhy::NicTaken => "nic-taken",
        ExpWhy::NicRange => "nic-range",
        ExpWhy::NoGuest => "no-guest",
        ExpWhy::NoSlot => "no-slot",
    }
}

pub(crate) fn section_word(section: Section) -> &'static str
    ensures { result.now ≡ section_word section }
{
    match section {
        Section::Top => " top ",
        Section::Slot => " slot ",
        Section::Guest => " guest ",
        Section::Disk => " disk ",
        Section::Link => " link ",
    }
}

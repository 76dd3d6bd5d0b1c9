//! Views of runs of many guests.
use super::cases::Case;
use super::ends_so;
use std::alloc::Global;
use std::fmt::Write;
use std::test::Fail;

/// The experiment of eight guests in a ring, on so many slots.
fn ring(alloc: Global, slots: u32, factor: u32) -> Result<String, Fail> {
    let mut text = format!(in alloc; "version = 1\nfactor = {factor}\n")?;
    for _ in 0..slots {
        text.push_str("[[slot]]\ncapacity = 10\n")?;
    }
    for guest in 0..8_u32 {
        write!(
            text,
            "[[guest]]\nname = 'g{guest}'\nimage = 'jump'\nformat = 'flat'\nram = 4096\nrate = 10\nnics = 2\n"
        )?;
    }
    for guest in 0..8_u32 {
        let next = (guest + 1) % 8;
        write!(
            text,
            "[[link]]\na = 'g{guest}'\na_nic = 1\nb = 'g{next}'\nb_nic = 0\nbandwidth = 100\ndelay = 1\nqueue = 1\n"
        )?;
    }
    Ok(text)
}

/// The traces of their first ten ticks.
fn ring_traces(alloc: Global) -> Result<String, Fail> {
    let mut traces = String::from_str(alloc, "traces guests 8 ticks 10\n")?;
    for guest in 0..8_u32 {
        write!(traces, "guest {guest} g{guest}\n")?;
        for tick in 0..10_u32 {
            for _ in 0..10 {
                write!(traces, "{tick} {guest} instr 80000000 0000006f\n")?;
            }
        }
    }
    traces.push_str("end\n")?;
    Ok(traces)
}

/// Whether a command ends well, where `a.toml` has this text, and its output is this.
fn prints(alloc: Global, words: &str, reads: u64, text: &str, out: &str) -> Result<bool, Fail> {
    let case = Case {
        words,
        put: 0,
        shown: "all",
        code: 0,
        reads,
        text,
        out,
        msg: "",
    };
    ends_so(alloc, &case, 0)
}

/// The traces of the same guests are the same bytes, on one slot and on eight.
#[test]
fn same_traces_on_any_slots(rt: HostRuntime) -> Result<(), Fail> {
    let alloc = rt.alloc();
    let traces = ring_traces(alloc)?;
    let one = ring(alloc, 1, 8)?;
    let eight = ring(alloc, 8, 1)?;
    let words = "run a.toml --host-ticks 80 --view traces";
    assert!(rt; prints(alloc, words, 9, &one, &traces)?);
    let words = "run a.toml --host-ticks 10 --view traces";
    assert!(rt; prints(alloc, words, 9, &eight, &traces)?);
    Ok(())
}

/// The experiment of four servers with a disk each, and eight clients that are linked to them.
fn web(alloc: Global) -> Result<String, Fail> {
    let mut text = String::from_str(alloc, "version = 1\nfactor = 4\n")?;
    for _ in 0..3 {
        text.push_str("[[slot]]\ncapacity = 1000\n")?;
    }
    for server in 0..4_u32 {
        write!(
            text,
            "[[guest]]\nname = 'web{server}'\nimage = 'elf'\nram = 1048576\nrate = 1000\nnics = 2\n"
        )?;
        write!(
            text,
            "[[disk]]\nguest = 'web{server}'\nsectors = 2048\nbase = 100\nper_sector = 4\n"
        )?;
    }
    for client in 0..8_u32 {
        let server = client % 4;
        let nic = client / 4;
        write!(
            text,
            "[[guest]]\nname = 'cli{client}'\nimage = 'elf'\nram = 1048576\nrate = 1000\nnics = 1\n"
        )?;
        write!(
            text,
            "[[link]]\na = 'cli{client}'\na_nic = 0\nb = 'web{server}'\nb_nic = {nic}\nbandwidth = 125\ndelay = 50\nqueue = 100\n"
        )?;
    }
    Ok(text)
}

/// The name of a guest of it.
fn web_name(alloc: Global, guest: u32) -> Result<String, Fail> {
    if guest < 4 {
        return Ok(format!(in alloc; "web{guest}")?);
    }
    let client = guest - 4;
    Ok(format!(in alloc; "cli{client}")?)
}

/// Its plan.
fn web_plan(alloc: Global) -> Result<String, Fail> {
    let mut plan = String::from_str(alloc, "plan factor 4 slots 3 guests 12\n")?;
    for slot in 0..3_u32 {
        write!(plan, "slot {slot} need 4000 have 4000\n")?;
    }
    for guest in 0..12_u32 {
        let name = web_name(alloc, guest)?;
        let slot = guest / 4;
        write!(plan, "guest {guest} {name} slot {slot} rate 1000\n")?;
    }
    plan.push_str("least 4 slot 0\nfits\n")?;
    Ok(plan)
}

/// Its summary after a hundred ticks, in which each guest jumps in place.
fn web_summary(alloc: Global) -> Result<String, Fail> {
    let mut summary = String::from_str(alloc, "summary guests 12 ticks 100\n")?;
    for guest in 0..12_u32 {
        let name = web_name(alloc, guest)?;
        write!(
            summary,
            "{guest} {name} instr 100000 trap 0 disk 0 sent 0 drop 0 bad 0 recv 0 lost 0 uart 0 broken 0 halt 0\n"
        )?;
    }
    summary.push_str("end\n")?;
    Ok(summary)
}

/// A realistic file fits, and runs.
#[test]
fn web_servers_and_clients(rt: HostRuntime) -> Result<(), Fail> {
    let alloc = rt.alloc();
    let text = web(alloc)?;
    let plan = web_plan(alloc)?;
    let summary = web_summary(alloc)?;
    assert!(rt; prints(alloc, "plan a.toml", 1, &text, &plan)?);
    assert!(rt; prints(alloc, "run a.toml --host-ticks 400", 13, &text, &summary)?);
    Ok(())
}

//! What keepers put of one guest, whole and cut short.
ghost use Rattle.std.specs.Prelude.{◌≡◌, ◌<◌, length, IfOk};

use host_journal::{Head, JournalKeep, Keep, KeepErr, Quantum, Show, SummaryKeep, TraceKeep};
use std::alloc::Global;
use std::test::Fail;
use tb_base::{ItemList, Name};
use tb_io::MemSink;
use trace_rec::{Log, Rec, View, What};

/// One guest at half speed on one slot.
fn one_guest(alloc: Global, host_ticks: u64) -> Result<Head, Fail>
    ensures { IfOk result (λ head. (head.factor ≡ 2) × (length head.names.items ≡ 1)) }
{
    let mut names = ItemList::new(alloc);
    names.push(Name::from_text(alloc, "a")?)?;
    Ok(Head {
        factor: 2,
        slots: 1,
        host_ticks,
        names,
    })
}

/// A step of a guest: it jumps in place, or sends a byte.
fn step_of(letter: u8) -> What {
    match letter {
        b'j' => What::Instr {
            pc: 0x8000_0000,
            word: 0x6f,
        },
        _ => What::Uart { byte: letter },
    }
}

/// The records of a tick, by a letter for each.
fn records(alloc: Global, tick: u64, letters: &[u8]) -> Result<Log, Fail> {
    let mut recs = Log::new(alloc);
    for letter in letters {
        recs.push(Rec {
            tick,
            what: step_of(*letter),
        })?;
    }
    Ok(recs)
}

/// A host tick: the guest uses some units, has done some ticks after them, and gives these records.
fn put_tick<K: Show<MemSink>>(
    keep: &mut K,
    out: &mut MemSink,
    t: u64,
    units: u64,
    done: u64,
    recs: &Log,
) -> Result<(), KeepErr>
    requires { 0 < K.members keep.old }
    ensures { K.members keep.new ≡ K.members keep.old }
{
    keep.host(out, t)?;
    keep.slot(out, 0)?;
    let quantum = Quantum {
        slot: 0,
        guest: 0,
        units,
        done,
    };
    keep.quantum(out, &quantum, recs)
}

/// A run of two host ticks: what the guest uses and has done in each, and what it gives in each of
/// its ticks, of which the last ends in the second host tick.
struct Run {
    units: u64,
    done: [u64; 2],
    recs: &'static [u8],
}

/// All that a keeper puts of a run.
fn put_run<K: Show<MemSink>>(alloc: Global, keep: &mut K, run: &Run) -> Result<MemSink, Fail>
    requires { 0 < K.members keep.old }
{
    let mut out = MemSink::new(alloc, 1000)?;
    let first = if run.done[0] == 0 {
        Log::new(alloc)
    } else {
        records(alloc, 0, run.recs)?
    };
    let second = records(alloc, run.done[0], run.recs)?;
    keep.start(&mut out)?;
    put_tick(keep, &mut out, 1, run.units, run.done[0], &first)?;
    put_tick(keep, &mut out, 2, run.units, run.done[1], &second)?;
    keep.finish(&mut out)?;
    Ok(out)
}

/// All that the keeper of a view puts of a run.
fn shown(alloc: Global, view: View, host_ticks: u64, run: &Run) -> Result<MemSink, Fail> {
    let head = one_guest(alloc, host_ticks)?;
    match view {
        View::Journal => put_run(
            alloc,
            &mut JournalKeep::new(alloc, head, View::Journal)?,
            run,
        ),
        View::Events => put_run(
            alloc,
            &mut JournalKeep::new(alloc, head, View::Events)?,
            run,
        ),
        View::Traces => put_run(alloc, &mut TraceKeep::new(alloc, head)?, run),
        View::Summary => put_run(alloc, &mut SummaryKeep::new(alloc, head)?, run),
    }
}

/// A view of a run, and its text.
struct Case {
    view: View,
    host_ticks: u64,
    run: Run,
    text: &'static str,
}

/// Two units a tick, of which the guest uses one in each host tick.
const SLOW: Run = Run {
    units: 1,
    done: [0, 1],
    recs: b"jj",
};

/// A whole tick in each host tick.
const FAST: Run = Run {
    units: 2,
    done: [1, 2],
    recs: b"jA",
};

/// A journal has its lines, events leave instructions out, traces have the ticks that all guests have
/// done by the host ticks to run, and a summary counts the records of those by their kinds.
const CASES: [Case; 4] = [
    Case {
        view: View::Journal,
        host_ticks: 2,
        run: SLOW,
        text: "diecast 1 factor 2 slots 1 guests 1 host 2\n\
host 1\n\
slot 0\n\
run 0 units 1 done 0\n\
host 2\n\
slot 0\n\
run 0 units 1 done 1\n\
0 0 instr 80000000 0000006f\n\
0 0 instr 80000000 0000006f\n\
end 2\n",
    },
    Case {
        view: View::Events,
        host_ticks: 2,
        run: FAST,
        text: "diecast 1 factor 2 slots 1 guests 1 host 2\n\
host 1\n\
slot 0\n\
run 0 units 2 done 1\n\
0 0 uart 65\n\
host 2\n\
slot 0\n\
run 0 units 2 done 2\n\
1 0 uart 65\n\
end 2\n",
    },
    Case {
        view: View::Traces,
        host_ticks: 2,
        run: FAST,
        text: "traces guests 1 ticks 1\n\
guest 0 a\n\
0 0 instr 80000000 0000006f\n\
0 0 uart 65\n\
end\n",
    },
    Case {
        view: View::Summary,
        host_ticks: 4,
        run: FAST,
        text: "summary guests 1 ticks 2\n\
0 a instr 2 trap 0 disk 0 sent 0 drop 0 bad 0 recv 0 lost 0 uart 2 broken 0 halt 0\n\
end\n",
    },
];

#[test]
fn views_have_their_texts(rt: HostRuntime) -> Result<(), Fail> {
    for case in &CASES {
        let out = shown(rt.alloc(), case.view, case.host_ticks, &case.run)?;
        assert_eq!(rt; out.bytes(), case.text.as_bytes());
    }
    Ok(())
}

/// The third put fails after three bytes. The calls after it fail too, and put nothing.
#[test]
fn a_failed_put_is_the_last(rt: HostRuntime) -> Result<(), Fail> {
    let alloc = rt.alloc();
    let mut out = MemSink::new(alloc, 1000)?;
    out.fail_put(3, 3)?;
    let mut keep = JournalKeep::new(alloc, one_guest(alloc, 2)?, View::Journal)?;
    keep.start(&mut out)?;
    let told = put_tick(&mut keep, &mut out, 1, 1, 0, &Log::new(alloc));
    assert_eq!(rt; told, Err(KeepErr::Failed));
    assert_eq!(rt; keep.host(&mut out, 2), Err(KeepErr::NoMemory));
    assert_eq!(rt; keep.finish(&mut out), Err(KeepErr::NoMemory));
    let wanted = b"diecast 1 factor 2 slots 1 guests 1 host 2\nhost 1\nslo";
    assert_eq!(rt; out.bytes(), wanted.as_slice());
    Ok(())
}

//! Plans of small experiments.
ghost use Rattle.exp_file.specs.WellFormed.{IsWellFormed};
ghost use Rattle.host_plan.specs.Fits.{IsPlacement};

use exp_file::{Experiment, read_experiment};
use host_plan::{Least, Overload, Placement, check, least_factor, place, slot_need};
use plan_text::put_plan;
use std::alloc::Global;
use tb_io::{MemSink, WriteErr};

/// An experiment, the homes of its guests, what the first slot needs, the answer of the check, the
/// least factor, the text of the plan, and what is taken of it where its second put fails after four bytes.
#[derive(Drop)]
struct Case {
    experiment: &'static str,
    homes: &'static [u32],
    need: u64,
    fit: Result<(), Overload>,
    least: Least,
    plan: &'static str,
    cut: &'static str,
}

const CASES: [Case; 5] = [
    Case {
        experiment: "version = 1\n\
factor = 1\n\
slot = [{ capacity = 8 }, { capacity = 8 }]\n\
guest = [\n\
{ name = 'a', image = 'a', format = 'flat', rate = 6 },\n\
{ name = 'b', image = 'a', format = 'flat', rate = 5 },\n\
{ name = 'c', image = 'a', format = 'flat', rate = 4 }]\n",
        homes: &[0, 1, 1],
        need: 6,
        fit: Err(Overload {
            slot: 1,
            need: 9,
            have: 8,
        }),
        least: Least { factor: 2, slot: 1 },
        plan: "plan factor 1 slots 2 guests 3\n\
slot 0 need 6 have 8\n\
slot 1 need 9 have 8\n\
guest 0 a slot 0 rate 6\n\
guest 1 b slot 1 rate 5\n\
guest 2 c slot 1 rate 4\n\
least 2 slot 1\n\
over 1 need 9 have 8\n",
        cut: "plan factor 1 slots 2 guests 3\nslot",
    },
    Case {
        experiment: "version = 1\n\
factor = 2\n\
slot = [{ capacity = 1 }]\n\
guest = [\n\
{ name = 'a', image = 'a', format = 'flat', rate = 3, slot = 0 }]\n",
        homes: &[0],
        need: 3,
        fit: Err(Overload {
            slot: 0,
            need: 3,
            have: 2,
        }),
        least: Least { factor: 3, slot: 0 },
        plan: "plan factor 2 slots 1 guests 1\n\
slot 0 need 3 have 2\n\
guest 0 a slot 0 rate 3\n\
least 3 slot 0\n\
over 0 need 3 have 2\n",
        cut: "plan factor 2 slots 1 guests 1\nslot",
    },
    Case {
        experiment: "version = 1\n\
factor = 2\n\
slot = [{ capacity = 4 }]\n\
guest = [\n\
{ name = 'a', image = 'a', format = 'flat', rate = 3 },\n\
{ name = 'b', image = 'a', format = 'flat', rate = 3 },\n\
{ name = 'c', image = 'a', format = 'flat', rate = 2 }]\n",
        homes: &[0, 0, 0],
        need: 8,
        fit: Ok(()),
        least: Least { factor: 2, slot: 0 },
        plan: "plan factor 2 slots 1 guests 3\n\
slot 0 need 8 have 8\n\
guest 0 a slot 0 rate 3\n\
guest 1 b slot 0 rate 3\n\
guest 2 c slot 0 rate 2\n\
least 2 slot 0\n\
fits\n",
        cut: "plan factor 2 slots 1 guests 3\nslot",
    },
    Case {
        experiment: "version = 1\n\
factor = 1\n\
slot = [{ capacity = 2 }, { capacity = 3 }]\n\
guest = [\n\
{ name = 'a', image = 'a', format = 'flat', rate = 1 },\n\
{ name = 'b', image = 'a', format = 'flat', rate = 2 },\n\
{ name = 'c', image = 'a', format = 'flat', rate = 1, slot = 0 }]\n",
        homes: &[0, 1, 0],
        need: 2,
        fit: Ok(()),
        least: Least { factor: 1, slot: 0 },
        plan: "plan factor 1 slots 2 guests 3\n\
slot 0 need 2 have 2\n\
slot 1 need 2 have 3\n\
guest 0 a slot 0 rate 1\n\
guest 1 b slot 1 rate 2\n\
guest 2 c slot 0 rate 1\n\
least 1 slot 0\n\
fits\n",
        cut: "plan factor 1 slots 2 guests 3\nslot",
    },
    Case {
        experiment: "version = 1\n\
factor = 4\n\
slot = [{ capacity = 1000 }, { capacity = 1000 }, { capacity = 1000 }]\n\
guest = [\n\
{ name = 'web0', image = 'a', format = 'flat', rate = 1000 },\n\
{ name = 'web1', image = 'a', format = 'flat', rate = 1000 },\n\
{ name = 'web2', image = 'a', format = 'flat', rate = 1000 },\n\
{ name = 'web3', image = 'a', format = 'flat', rate = 1000 },\n\
{ name = 'cli0', image = 'a', format = 'flat', rate = 1000 },\n\
{ name = 'cli1', image = 'a', format = 'flat', rate = 1000 },\n\
{ name = 'cli2', image = 'a', format = 'flat', rate = 1000 },\n\
{ name = 'cli3', image = 'a', format = 'flat', rate = 1000 },\n\
{ name = 'cli4', image = 'a', format = 'flat', rate = 1000 },\n\
{ name = 'cli5', image = 'a', format = 'flat', rate = 1000 },\n\
{ name = 'cli6', image = 'a', format = 'flat', rate = 1000 },\n\
{ name = 'cli7', image = 'a', format = 'flat', rate = 1000 }]\n",
        homes: &[0, 0, 0, 0, 1, 1, 1, 1, 2, 2, 2, 2],
        need: 4000,
        fit: Ok(()),
        least: Least { factor: 4, slot: 0 },
        plan: "plan factor 4 slots 3 guests 12\n\
slot 0 need 4000 have 4000\n\
slot 1 need 4000 have 4000\n\
slot 2 need 4000 have 4000\n\
guest 0 web0 slot 0 rate 1000\n\
guest 1 web1 slot 0 rate 1000\n\
guest 2 web2 slot 0 rate 1000\n\
guest 3 web3 slot 0 rate 1000\n\
guest 4 cli0 slot 1 rate 1000\n\
guest 5 cli1 slot 1 rate 1000\n\
guest 6 cli2 slot 1 rate 1000\n\
guest 7 cli3 slot 1 rate 1000\n\
guest 8 cli4 slot 2 rate 1000\n\
guest 9 cli5 slot 2 rate 1000\n\
guest 10 cli6 slot 2 rate 1000\n\
guest 11 cli7 slot 2 rate 1000\n\
least 4 slot 0\n\
fits\n",
        cut: "plan factor 4 slots 3 guests 12\nslot",
    },
];

/// Whether the plan is put with this answer, and this text of it taken, where a put fails after four bytes, if there are so many.
fn is_put(
    alloc: Global,
    e: &Experiment,
    p: &Placement,
    put: u64,
    answer: Result<(), WriteErr>,
    text: &str,
) -> bool
    requires well_formed { IsWellFormed e.now }
    requires placement { IsPlacement e.now p.now.slots.items }
{
    let Ok(mut out) = MemSink::new(alloc, 1000) else {
        return false;
    };
    out.fail_put(put, 4).is_ok()
        && put_plan(alloc, e, p, &mut out) == answer
        && out.bytes() == text.as_bytes()
}

fn is_planned(alloc: Global, case: &Case) -> bool {
    let Ok(e) = read_experiment(alloc, case.experiment.as_bytes()) else {
        return false;
    };
    let Ok(p) = place(alloc, &e) else {
        return false;
    };
    p.slots.as_slice() == case.homes
        && slot_need(&e, &p, 0) == case.need
        && check(&e, &p) == case.fit
        && least_factor(&e, &p) == case.least
        && is_put(alloc, &e, &p, 0, Ok(()), case.plan)
        && is_put(alloc, &e, &p, 2, Err(WriteErr::Failed), case.cut)
}

#[test]
fn plans_small_experiments(rt: HostRuntime) {
    for i in 0..CASES.len() {
        let planned = is_planned(rt.alloc(), &CASES[i]);
        assert!(rt; planned, "at {i}");
    }
}

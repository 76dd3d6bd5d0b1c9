//! Commands, and how each ends.
use std::test::Fail;

/// A command where `a.toml` holds a text, and how it ends.
#[derive(Clone, Copy)]
pub(crate) struct Case<'a> {
    pub words: &'a str,
    /// The put to the output that fails, if there are so many.
    pub put: u64,
    /// Which lines of the output are told.
    pub shown: &'a str,
    /// The exit status.
    pub code: u8,
    /// How many files are asked for.
    pub reads: u64,
    pub text: &'a str,
    /// These lines of the output.
    pub out: &'a str,
    pub msg: &'a str,
}

/// What stands before and behind the first of a separator.
fn split<'a>(text: &'a str, at: &str) -> (&'a str, &'a str) {
    text.split_once(at).unwrap_or((text, ""))
}

/// The case that a text says.
pub(crate) fn case_of(case: &str) -> Result<Case<'_>, Fail> {
    let (head, rest) = split(case, "\n");
    let (words, head) = split(head, "|");
    let (put, head) = split(head, "|");
    let (shown, head) = split(head, "|");
    let (code, reads) = split(head, "|");
    let (text, rest) = split(rest, "--\n");
    let (out, msg) = split(rest, "--\n");
    Ok(Case {
        words,
        put: put.parse()?,
        shown,
        code: code.parse()?,
        reads: reads.parse()?,
        text,
        out,
        msg,
    })
}

/// The cases: the words, the put that fails, the lines that are told, the exit status, and how many files are asked for;
/// then the text of `a.toml`, lines of the output, and the message.
pub(crate) const CASES: &str = r"run a.toml --host-ticks 4 --view journal|0|all|0|2
version = 1
factor = 2
slot = [{ capacity = 1 }]
guest = [
  { name = 'a', image = 'jump', format = 'flat', ram = 4096, rate = 2 },
]
--
diecast 1 factor 2 slots 1 guests 1 host 4
host 1
slot 0
run 0 units 1 done 0
host 2
slot 0
run 0 units 1 done 1
0 0 instr 80000000 0000006f
0 0 instr 80000000 0000006f
host 3
slot 0
run 0 units 1 done 1
host 4
slot 0
run 0 units 1 done 2
1 0 instr 80000000 0000006f
1 0 instr 80000000 0000006f
end 4
--
==
run a.toml --host-ticks 4 --view journal|0|all|0|2
version = 1
factor = 2
slot = [{ capacity = 1 }]
guest = [
  { name = 'a', image = 'elf', ram = 4096, rate = 2, slot = 0 },
]
--
diecast 1 factor 2 slots 1 guests 1 host 4
host 1
slot 0
run 0 units 1 done 0
host 2
slot 0
run 0 units 1 done 1
0 0 instr 80000000 0000006f
0 0 instr 80000000 0000006f
host 3
slot 0
run 0 units 1 done 1
host 4
slot 0
run 0 units 1 done 2
1 0 instr 80000000 0000006f
1 0 instr 80000000 0000006f
end 4
--
==
run a.toml --host-ticks 0 --view journal|0|all|0|2
version = 1
factor = 2
slot = [{ capacity = 1 }]
guest = [
  { name = 'a', image = 'jump', format = 'flat', ram = 4096, rate = 2, slot = 0 },
]
--
diecast 1 factor 2 slots 1 guests 1 host 0
end 0
--
==
run a.toml --host-ticks 2 --view journal|0|all|0|2
version = 1
factor = 1
slot = [{ capacity = 1 }, { capacity = 1 }]
guest = [
  { name = 'a', image = 'jump', format = 'flat', ram = 4096, rate = 1, slot = 0 },
]
--
diecast 1 factor 1 slots 2 guests 1 host 2
host 1
slot 0
run 0 units 1 done 1
0 0 instr 80000000 0000006f
slot 1
host 2
slot 0
run 0 units 1 done 2
1 0 instr 80000000 0000006f
slot 1
end 2
--
==
run a.toml --host-ticks 1 --view journal|0|all|0|2
version = 1
factor = 1
slot = [{ capacity = 1001 }]
guest = [
  { name = 'a', image = 'wait', format = 'flat', ram = 4096, rate = 5, slot = 0 },
]
--
diecast 1 factor 1 slots 1 guests 1 host 1
host 1
slot 0
run 0 units 1 done 1
0 0 instr 80000000 10500073
run 0 units 1000 done 1001
end 1
--
==
run a.toml --host-ticks 1 --view journal|0|all|0|2
version = 1
factor = 1
slot = [{ capacity = 510 }]
guest = [
  { name = 'a', image = 'alarm', format = 'flat', ram = 4096, rate = 7, slot = 0 },
]
--
diecast 1 factor 1 slots 1 guests 1 host 1
host 1
slot 0
run 0 units 7 done 1
0 0 instr 80000000 020040b7
0 0 instr 80000004 1f400113
0 0 instr 80000008 0020a023
0 0 instr 8000000c 0000a223
0 0 instr 80000010 08000193
0 0 instr 80000014 3041a073
0 0 instr 80000018 10500073
run 0 units 499 done 500
run 0 units 4 done 500
end 1
--
==
run a.toml --host-ticks 1 --view journal|0|all|0|2
version = 1
factor = 1
slot = [{ capacity = 2 }]
guest = [
  { name = 'a', image = 'misaligned', format = 'flat', ram = 4096, rate = 2, slot = 0 },
]
--
diecast 1 factor 1 slots 1 guests 1 host 1
host 1
slot 0
run 0 units 2 done 1
0 0 trap 00000000 80000000
0 0 trap 00000001 00000000
end 1
--
==
run a.toml --host-ticks 1 --view journal|0|all|0|2
version = 1
factor = 1
slot = [{ capacity = 1 }]
guest = [
  { name = 'a', image = 'zeros', format = 'flat', ram = 4096, rate = 1, slot = 0 },
]
--
diecast 1 factor 1 slots 1 guests 1 host 1
host 1
slot 0
run 0 units 1 done 1
0 0 trap 00000002 80000000
end 1
--
==
run a.toml --host-ticks 2 --view journal|0|all|0|2
version = 1
factor = 1
slot = [{ capacity = 5 }]
guest = [
  { name = 'a', image = 'off', format = 'flat', ram = 4096, rate = 5, slot = 0 },
]
--
diecast 1 factor 1 slots 1 guests 1 host 2
host 1
slot 0
run 0 units 4 done 1
0 0 instr 80000000 001002b7
0 0 instr 80000004 00005337
0 0 instr 80000008 55530313
0 0 instr 8000000c 0062a023
0 0 halt
run 0 units 1 done 2
host 2
slot 0
run 0 units 5 done 7
end 2
--
==
run a.toml --host-ticks 1 --view journal|0|all|0|2
version = 1
factor = 1
slot = [{ capacity = 4 }]
guest = [
  { name = 'a', image = 'sends', format = 'flat', ram = 4096, rate = 4, slot = 0 },
]
--
diecast 1 factor 1 slots 1 guests 1 host 1
host 1
slot 0
run 0 units 4 done 1
0 0 instr 80000000 100002b7
0 0 instr 80000004 04100313
0 0 instr 80000008 00628023
0 0 uart 65
0 0 instr 8000000c 0000006f
end 1
--
==
run a.toml --host-ticks 4 --view journal|0|records|0|2
version = 1
factor = 1
slot = [{ capacity = 5 }]
guest = [
  { name = 'a', image = 'timer', format = 'flat', ram = 4096, rate = 5, slot = 0 },
]
--
0 0 instr 80000000 800002b7
0 0 instr 80000004 04028293
0 0 instr 80000008 30529073
0 0 instr 8000000c 02004337
0 0 instr 80000010 00300393
1 0 instr 80000014 00032223
1 0 instr 80000018 00732023
1 0 instr 8000001c 08000413
1 0 instr 80000020 30441073
1 0 instr 80000024 30046073
2 0 instr 80000028 0000006f
2 0 instr 80000028 0000006f
2 0 instr 80000028 0000006f
2 0 instr 80000028 0000006f
2 0 instr 80000028 0000006f
3 0 trap 80000007 80000028
3 0 instr 80000040 0000006f
3 0 instr 80000040 0000006f
3 0 instr 80000040 0000006f
3 0 instr 80000040 0000006f
--
==
run a.toml --host-ticks 40 --view journal|0|records|0|2
version = 1
factor = 10
slot = [{ capacity = 5 }]
guest = [
  { name = 'a', image = 'timer', format = 'flat', ram = 4096, rate = 5, slot = 0 },
]
--
0 0 instr 80000000 800002b7
0 0 instr 80000004 04028293
0 0 instr 80000008 30529073
0 0 instr 8000000c 02004337
0 0 instr 80000010 00300393
1 0 instr 80000014 00032223
1 0 instr 80000018 00732023
1 0 instr 8000001c 08000413
1 0 instr 80000020 30441073
1 0 instr 80000024 30046073
2 0 instr 80000028 0000006f
2 0 instr 80000028 0000006f
2 0 instr 80000028 0000006f
2 0 instr 80000028 0000006f
2 0 instr 80000028 0000006f
3 0 trap 80000007 80000028
3 0 instr 80000040 0000006f
3 0 instr 80000040 0000006f
3 0 instr 80000040 0000006f
3 0 instr 80000040 0000006f
--
==
plan a.toml|0|all|0|1
version = 1
factor = 2
slot = [{ capacity = 4 }]
guest = [
  { name = 'a', image = 'jump', format = 'flat', ram = 4096, rate = 3, slot = 0 },
  { name = 'b', image = 'jump', format = 'flat', ram = 4096, rate = 3, slot = 0 },
  { name = 'c', image = 'jump', format = 'flat', ram = 4096, rate = 2, slot = 0 },
]
--
plan factor 2 slots 1 guests 3
slot 0 need 8 have 8
guest 0 a slot 0 rate 3
guest 1 b slot 0 rate 3
guest 2 c slot 0 rate 2
least 2 slot 0
fits
--
==
run a.toml --host-ticks 4 --view journal|0|schedule|0|4
version = 1
factor = 2
slot = [{ capacity = 4 }]
guest = [
  { name = 'a', image = 'jump', format = 'flat', ram = 4096, rate = 3, slot = 0 },
  { name = 'b', image = 'jump', format = 'flat', ram = 4096, rate = 3, slot = 0 },
  { name = 'c', image = 'jump', format = 'flat', ram = 4096, rate = 2, slot = 0 },
]
--
diecast 1 factor 2 slots 1 guests 3 host 4
host 1
slot 0
run 0 units 3 done 1
run 1 units 1 done 0
host 2
slot 0
run 1 units 2 done 1
run 2 units 2 done 1
host 3
slot 0
run 0 units 3 done 2
run 1 units 1 done 1
host 4
slot 0
run 1 units 2 done 2
run 2 units 2 done 2
end 4
--
==
run a.toml --host-ticks 7 --view journal|0|schedule|0|3
version = 1
factor = 3
slot = [{ capacity = 2 }]
guest = [
  { name = 'a', image = 'jump', format = 'flat', ram = 4096, rate = 3, slot = 0 },
  { name = 'b', image = 'jump', format = 'flat', ram = 4096, rate = 3, slot = 0 },
]
--
diecast 1 factor 3 slots 1 guests 2 host 7
host 1
slot 0
run 0 units 2 done 0
host 2
slot 0
run 0 units 1 done 1
run 1 units 1 done 0
host 3
slot 0
run 1 units 2 done 1
host 4
slot 0
run 0 units 2 done 1
host 5
slot 0
run 0 units 1 done 2
run 1 units 1 done 1
host 6
slot 0
run 1 units 2 done 2
host 7
slot 0
run 0 units 2 done 2
end 7
--
==
plan a.toml|0|all|1|1
version = 1
factor = 1
slot = [{ capacity = 8 }, { capacity = 8 }]
guest = [
  { name = 'a', image = 'jump', format = 'flat', ram = 4096, rate = 6 },
  { name = 'b', image = 'jump', format = 'flat', ram = 4096, rate = 5 },
  { name = 'c', image = 'jump', format = 'flat', ram = 4096, rate = 4 },
]
--
plan factor 1 slots 2 guests 3
slot 0 need 6 have 8
slot 1 need 9 have 8
guest 0 a slot 0 rate 6
guest 1 b slot 1 rate 5
guest 2 c slot 1 rate 4
least 2 slot 1
over 1 need 9 have 8
--
diecast: overload: slot 1 needs 9, has 8
==
run a.toml --host-ticks 4 --view journal|0|all|1|1
version = 1
factor = 1
slot = [{ capacity = 8 }, { capacity = 8 }]
guest = [
  { name = 'a', image = 'jump', format = 'flat', ram = 4096, rate = 6 },
  { name = 'b', image = 'jump', format = 'flat', ram = 4096, rate = 5 },
  { name = 'c', image = 'jump', format = 'flat', ram = 4096, rate = 4 },
]
--
--
diecast: overload: slot 1 needs 9, has 8
==
run a.toml --host-ticks 4 --view journal|0|all|1|1
version = 1
factor = 2
slot = [{ capacity = 1 }]
guest = [
  { name = 'a', image = 'jump', format = 'flat', ram = 4096, rate = 3, slot = 0 },
]
--
--
diecast: overload: slot 0 needs 3, has 2
==
plan a.toml|1|all|6|1
version = 1
factor = 1
slot = [{ capacity = 8 }, { capacity = 8 }]
guest = [
  { name = 'a', image = 'jump', format = 'flat', ram = 4096, rate = 6 },
  { name = 'b', image = 'jump', format = 'flat', ram = 4096, rate = 5 },
  { name = 'c', image = 'jump', format = 'flat', ram = 4096, rate = 4 },
]
--
pla--
diecast: write fault
==
plan a.toml|2|all|6|1
version = 1
factor = 1
slot = [{ capacity = 8 }, { capacity = 8 }]
guest = [
  { name = 'a', image = 'jump', format = 'flat', ram = 4096, rate = 6 },
  { name = 'b', image = 'jump', format = 'flat', ram = 4096, rate = 5 },
  { name = 'c', image = 'jump', format = 'flat', ram = 4096, rate = 4 },
]
--
plan factor 1 slots 2 guests 3
slo--
diecast: write fault
==
plan a.toml|8|all|6|1
version = 1
factor = 1
slot = [{ capacity = 8 }, { capacity = 8 }]
guest = [
  { name = 'a', image = 'jump', format = 'flat', ram = 4096, rate = 6 },
  { name = 'b', image = 'jump', format = 'flat', ram = 4096, rate = 5 },
  { name = 'c', image = 'jump', format = 'flat', ram = 4096, rate = 4 },
]
--
plan factor 1 slots 2 guests 3
slot 0 need 6 have 8
slot 1 need 9 have 8
guest 0 a slot 0 rate 6
guest 1 b slot 1 rate 5
guest 2 c slot 1 rate 4
least 2 slot 1
ove--
diecast: write fault
==
run a.toml --host-ticks 4 --view journal|3|all|6|2
version = 1
factor = 2
slot = [{ capacity = 1 }]
guest = [
  { name = 'a', image = 'jump', format = 'flat', ram = 4096, rate = 2, slot = 0 },
]
--
diecast 1 factor 2 slots 1 guests 1 host 4
host 1
slo--
diecast: write fault
==
run a.toml --host-ticks  --view journal|0|all|2|0
--
--
diecast: usage: bad-number
==
run a.toml --host-ticks 04 --view journal|0|all|2|0
--
--
diecast: usage: bad-number
==
run a.toml --host-ticks 1000001 --view journal|0|all|2|0
--
--
diecast: usage: bad-number
==
plan |0|all|2|0
--
--
diecast: usage: empty-name
==
plan a.toml --view|0|all|2|0
--
--
diecast: usage: not-words
==
run a.toml 4|0|all|2|0
--
--
diecast: usage: not-words
==
plan b.toml|0|all|5|1
--
--
diecast: read fault: experiment
==
plan long|0|all|4|1
--
--
diecast: too long: experiment
==
plan a.toml|0|all|3|1
--
--
diecast: experiment: missing top 0 version
==
plan a.toml|0|all|3|1
version = 1
factor = 3
slot = [{ capacity = 2 }, { capacity = 0 }]
guest = [
  { name = 'a', image = 'jump', format = 'flat', ram = 4096, rate = 2, slot = 0 },
]
--
--
diecast: experiment: range slot 1 capacity
==
run a.toml --host-ticks 4 --view journal|0|all|3|1
version = 1
factor = 2
slot = [{ capacity = 1 }]
--
--
diecast: experiment: no-guest top 0 guest
==
run a.toml --host-ticks 4 --view journal|0|all|3|1
version = 1
factor = 2
slot = [{ capacity = 1 }]
guest = [
  { name = 'a', image = 'jump', format = 'flat', ram = 4096, rate = 2, slot = 0, zone = 1, area = 1 },
]
--
--
diecast: experiment: unknown guest 0 area
==
run a.toml --host-ticks 4 --view journal|0|all|3|1
version = 1
factor = 2
slot = [{ capacity = 1 }]
guest = [
  { name = 'a', image = 'jump', format = 'flat', ram = 5000, rate = 2, slot = 0 },
]
--
--
diecast: experiment: range guest 0 ram
==
plan a.toml|0|all|0|1
version = 1
factor = 2
slot = [{ capacity = 4 }]
guest = [
  { name = 'a', image = 'jump', format = 'flat', ram = 4096, rate = 3, slot = 0, nics = 2 },
  { name = 'b', image = 'jump', format = 'flat', ram = 4096, rate = 3, slot = 0, nics = 2 },
  { name = 'c', image = 'jump', format = 'flat', ram = 4096, rate = 2, slot = 0, nics = 2 },
]
link = [
  { a = 'a', a_nic = 0, b = 'b', b_nic = 0, bandwidth = 100, delay = 1, queue = 1 },
  { a = 'b', a_nic = 1, b = 'c', b_nic = 0, bandwidth = 100, delay = 1, queue = 1 },
  { a = 'c', a_nic = 1, b = 'a', b_nic = 1, bandwidth = 100, delay = 1, queue = 1 },
]
--
plan factor 2 slots 1 guests 3
slot 0 need 8 have 8
guest 0 a slot 0 rate 3
guest 1 b slot 0 rate 3
guest 2 c slot 0 rate 2
least 2 slot 0
fits
--
==
run a.toml --host-ticks 4 --view journal|0|schedule|0|4
version = 1
factor = 2
slot = [{ capacity = 4 }]
guest = [
  { name = 'a', image = 'jump', format = 'flat', ram = 4096, rate = 3, slot = 0, nics = 2 },
  { name = 'b', image = 'jump', format = 'flat', ram = 4096, rate = 3, slot = 0, nics = 2 },
  { name = 'c', image = 'jump', format = 'flat', ram = 4096, rate = 2, slot = 0, nics = 2 },
]
link = [
  { a = 'a', a_nic = 0, b = 'b', b_nic = 0, bandwidth = 100, delay = 1, queue = 1 },
  { a = 'b', a_nic = 1, b = 'c', b_nic = 0, bandwidth = 100, delay = 1, queue = 1 },
  { a = 'c', a_nic = 1, b = 'a', b_nic = 1, bandwidth = 100, delay = 1, queue = 1 },
]
--
diecast 1 factor 2 slots 1 guests 3 host 4
host 1
slot 0
run 0 units 3 done 1
run 1 units 1 done 0
host 2
slot 0
run 1 units 2 done 1
run 2 units 2 done 1
host 3
slot 0
run 0 units 3 done 2
run 1 units 1 done 1
host 4
slot 0
run 1 units 2 done 2
run 2 units 2 done 2
end 4
--
==
plan a.toml|0|all|0|1
version = 1
factor = 2
slot = [{ capacity = 4 }]
guest = [
  { name = 'a', image = 'jump', format = 'flat', ram = 4096, rate = 3, slot = 0, nics = 2 },
  { name = 'b', image = 'jump', format = 'flat', ram = 4096, rate = 3, slot = 0, nics = 2 },
  { name = 'c', image = 'jump', format = 'flat', ram = 4096, rate = 2, slot = 0, nics = 2 },
]
link = [
  { a = 'a', a_nic = 0, b = 'b', b_nic = 0, bandwidth = 100, delay = 10000, queue = 1 },
  { a = 'b', a_nic = 1, b = 'c', b_nic = 0, bandwidth = 100, delay = 10000, queue = 1 },
  { a = 'c', a_nic = 1, b = 'a', b_nic = 1, bandwidth = 100, delay = 10000, queue = 1 },
]
--
plan factor 2 slots 1 guests 3
slot 0 need 8 have 8
guest 0 a slot 0 rate 3
guest 1 b slot 0 rate 3
guest 2 c slot 0 rate 2
least 2 slot 0
fits
--
==
run a.toml --host-ticks 4 --view journal|0|schedule|0|4
version = 1
factor = 2
slot = [{ capacity = 4 }]
guest = [
  { name = 'a', image = 'jump', format = 'flat', ram = 4096, rate = 3, slot = 0, nics = 2 },
  { name = 'b', image = 'jump', format = 'flat', ram = 4096, rate = 3, slot = 0, nics = 2 },
  { name = 'c', image = 'jump', format = 'flat', ram = 4096, rate = 2, slot = 0, nics = 2 },
]
link = [
  { a = 'a', a_nic = 0, b = 'b', b_nic = 0, bandwidth = 100, delay = 10000, queue = 1 },
  { a = 'b', a_nic = 1, b = 'c', b_nic = 0, bandwidth = 100, delay = 10000, queue = 1 },
  { a = 'c', a_nic = 1, b = 'a', b_nic = 1, bandwidth = 100, delay = 10000, queue = 1 },
]
--
diecast 1 factor 2 slots 1 guests 3 host 4
host 1
slot 0
run 0 units 3 done 1
run 1 units 1 done 0
host 2
slot 0
run 1 units 2 done 1
run 2 units 2 done 1
host 3
slot 0
run 0 units 3 done 2
run 1 units 1 done 1
host 4
slot 0
run 1 units 2 done 2
run 2 units 2 done 2
end 4
--
==
run a.toml --host-ticks 2 --view journal|0|schedule|0|3
version = 1
factor = 1
slot = [{ capacity = 1 }, { capacity = 100 }]
guest = [
  { name = 'a', image = 'jump', format = 'flat', ram = 4096, rate = 1, slot = 0, nics = 1 },
  { name = 'b', image = 'jump', format = 'flat', ram = 4096, rate = 1, slot = 1, nics = 1 },
]
link = [{ a = 'a', b = 'b', bandwidth = 100, delay = 3, queue = 1 }]
--
diecast 1 factor 1 slots 2 guests 2 host 2
host 1
slot 0
run 0 units 1 done 1
slot 1
run 1 units 1 done 1
run 1 units 1 done 2
run 1 units 1 done 3
run 1 units 1 done 4
host 2
slot 0
run 0 units 1 done 2
slot 1
run 1 units 1 done 5
end 2
--
==
run a.toml --host-ticks 2 --view journal|0|schedule|0|3
version = 1
factor = 1
slot = [{ capacity = 1 }, { capacity = 100 }]
guest = [
  { name = 'a', image = 'jump', format = 'flat', ram = 4096, rate = 1, slot = 0, nics = 1 },
  { name = 'b', image = 'jump', format = 'flat', ram = 4096, rate = 1, slot = 1, nics = 1 },
]
link = [{ a = 'a', b = 'b', bandwidth = 100, delay = 1, queue = 1 }]
--
diecast 1 factor 1 slots 2 guests 2 host 2
host 1
slot 0
run 0 units 1 done 1
slot 1
run 1 units 1 done 1
run 1 units 1 done 2
host 2
slot 0
run 0 units 1 done 2
slot 1
run 1 units 1 done 3
end 2
--
==
run a.toml --host-ticks 1 --view journal|0|schedule|0|3
version = 1
factor = 1
slot = [{ capacity = 20 }, { capacity = 1 }]
guest = [
  { name = 'a', image = 'wait', format = 'flat', ram = 4096, rate = 1, slot = 0, nics = 1 },
  { name = 'b', image = 'wait', format = 'flat', ram = 4096, rate = 1, slot = 1, nics = 1 },
]
link = [{ a = 'a', b = 'b', bandwidth = 100, delay = 13, queue = 1 }]
--
diecast 1 factor 1 slots 2 guests 2 host 1
host 1
slot 0
run 0 units 1 done 1
run 0 units 12 done 13
slot 1
run 1 units 1 done 1
end 1
--
==
run a.toml --host-ticks 1 --view journal|0|schedule|0|3
version = 1
factor = 1
slot = [{ capacity = 100 }, { capacity = 40 }]
guest = [
  { name = 'a', image = 'sends-frame-60', format = 'flat', ram = 4096, rate = 100, slot = 0, nics = 1 },
  { name = 'b', image = 'wait', format = 'flat', ram = 4096, rate = 1, slot = 1, nics = 1 },
]
link = [{ a = 'a', b = 'b', bandwidth = 1000, delay = 12, queue = 1 }]
--
diecast 1 factor 1 slots 2 guests 2 host 1
host 1
slot 0
run 0 units 64 done 1
0 0 sent 0 60 000000000000000000000000000000000000000000000000000000000000000000000000000000000000000000000000000000000000000000000000
run 0 units 11 done 12
slot 1
run 1 units 1 done 1
run 1 units 11 done 12
run 1 units 1 done 13
run 1 units 11 done 24
end 1
--
==
run a.toml --host-ticks 4 --view journal|0|all|0|2
version = 1
factor = 2
slot = [{ capacity = 1 }]
guest = [
  { name = 'a', image = 'jump', format = 'flat', ram = 4096, rate = 2, slot = 0, nics = 2 },
]
link = [{ a = 'a', a_nic = 0, b = 'a', b_nic = 1, bandwidth = 100, delay = 1, queue = 1 }]
--
diecast 1 factor 2 slots 1 guests 1 host 4
host 1
slot 0
run 0 units 1 done 0
host 2
slot 0
run 0 units 1 done 1
0 0 instr 80000000 0000006f
0 0 instr 80000000 0000006f
host 3
slot 0
run 0 units 1 done 1
host 4
slot 0
run 0 units 1 done 2
1 0 instr 80000000 0000006f
1 0 instr 80000000 0000006f
end 4
--
==
run a.toml --host-ticks 4 --view journal|0|all|3|1
version = 1
factor = 2
slot = [{ capacity = 1 }]
guest = [
  { name = 'a', image = 'jump', format = 'flat', ram = 4096, rate = 2, slot = 0, nics = 2 },
]
link = [{ a = 'a', a_nic = 0, b = 'a', b_nic = 0, bandwidth = 100, delay = 1, queue = 1 }]
--
--
diecast: experiment: nic-taken link 0 b_nic
==
run a.toml --host-ticks 7 --view journal|0|devices|0|3
version = 1
factor = 1
slot = [{ capacity = 200 }]
guest = [
  { name = 'a', image = 'sends-frame', format = 'flat', ram = 4096, rate = 100, nics = 1 },
  { name = 'b', image = 'takes-frame', format = 'flat', ram = 4096, rate = 100, nics = 1 },
]
link = [{ a = 'a', b = 'b', bandwidth = 100, delay = 4, queue = 4 }]
--
0 0 sent 0 250 00000000000000000000000000000000000000000000000000000000000000000000000000000000000000000000000000000000000000000000000000000000000000000000000000000000000000000000000000000000000000000000000000000000000000000000000000000000000000000000000000000000000000000000000000000000000000000000000000000000000000000000000000000000000000000000000000000000000000000000000000000000000000000000000000000000000000000000000000000000000000000000000000000000000000000000000000000000000000000000000000000000000000000000
6 1 recv 0 250 00000000000000000000000000000000000000000000000000000000000000000000000000000000000000000000000000000000000000000000000000000000000000000000000000000000000000000000000000000000000000000000000000000000000000000000000000000000000000000000000000000000000000000000000000000000000000000000000000000000000000000000000000000000000000000000000000000000000000000000000000000000000000000000000000000000000000000000000000000000000000000000000000000000000000000000000000000000000000000000000000000000000000000000
--
==
run a.toml --host-ticks 1 --view journal|0|devices|0|2
version = 1
factor = 1
slot = [{ capacity = 100 }]
guest = [{ name = 'a', image = 'sends-frame-60', format = 'flat', ram = 4096, rate = 100, nics = 1 }]
--
0 0 drop 0 60
--
==
run a.toml --host-ticks 1 --view journal|0|devices|0|2
version = 1
factor = 1
slot = [{ capacity = 100 }]
guest = [{ name = 'a', image = 'sends-frame-8', format = 'flat', ram = 4096, rate = 100, nics = 1 }]
--
0 0 bad 0 8
--
==
run a.toml --host-ticks 4 --view journal|0|all|5|2
version = 1
factor = 2
slot = [{ capacity = 1 }]
guest = [
  { name = 'a', image = 'lost', format = 'flat', ram = 4096, rate = 2, slot = 0 },
]
--
--
diecast: read fault: image 0
==
run a.toml --host-ticks 4 --view journal|0|all|5|3
version = 1
factor = 1
slot = [{ capacity = 2 }]
guest = [
  { name = 'a', image = 'jump', format = 'flat', ram = 4096, rate = 1, slot = 0 },
  { name = 'b', image = 'lost', format = 'flat', ram = 4096, rate = 1, slot = 0 },
]
--
--
diecast: read fault: image 1
==
run a.toml --host-ticks 4 --view journal|0|all|4|2
version = 1
factor = 2
slot = [{ capacity = 1 }]
guest = [
  { name = 'a', image = 'long', format = 'flat', ram = 4096, rate = 2, slot = 0 },
]
--
--
diecast: too long: image 0
==
run a.toml --host-ticks 4 --view journal|0|all|7|2
version = 1
factor = 2
slot = [{ capacity = 1 }]
guest = [
  { name = 'a', image = 'full', format = 'flat', ram = 4096, rate = 2, slot = 0 },
]
--
--
diecast: out of memory
==
run a.toml --host-ticks 4 --view journal|0|all|4|2
version = 1
factor = 2
slot = [{ capacity = 1 }]
guest = [
  { name = 'a', image = 'more', format = 'flat', ram = 4096, rate = 2, slot = 0 },
]
--
--
diecast: image 0: too-long
==
run a.toml --host-ticks 4 --view journal|0|all|4|2
version = 1
factor = 2
slot = [{ capacity = 1 }]
guest = [
  { name = 'a', image = 'jump', ram = 4096, rate = 2, slot = 0 },
]
--
--
diecast: image 0: not-elf
==
run a.toml --host-ticks 4 --view journal|0|all|4|2
version = 1
factor = 2
slot = [{ capacity = 1 }]
guest = [
  { name = 'a', image = 'elf-3', ram = 4096, rate = 2, slot = 0 },
]
--
--
diecast: image 0: not-elf
==
run a.toml --host-ticks 4 --view journal|0|all|4|2
version = 1
factor = 2
slot = [{ capacity = 1 }]
guest = [
  { name = 'a', image = 'elf-51', ram = 4096, rate = 2, slot = 0 },
]
--
--
diecast: image 0: truncated
==
run a.toml --host-ticks 4 --view journal|0|all|4|2
version = 1
factor = 2
slot = [{ capacity = 1 }]
guest = [
  { name = 'a', image = 'elf-119', ram = 4096, rate = 2, slot = 0 },
]
--
--
diecast: image 0: bad-segment 1
==
run a.toml --host-ticks 4 --view journal|0|all|4|2
version = 1
factor = 2
slot = [{ capacity = 1 }]
guest = [
  { name = 'a', image = 'elf-outside', ram = 4096, rate = 2, slot = 0 },
]
--
--
diecast: image 0: outside-ram 1
==
run a.toml --host-ticks 4 --view journal|0|all|4|2
version = 1
factor = 2
slot = [{ capacity = 1 }]
guest = [
  { name = 'a', image = 'elf-entry', ram = 4096, rate = 2, slot = 0 },
]
--
--
diecast: image 0: bad-entry
==
run a.toml --host-ticks 1 --view journal|0|all|0|3
version = 1
factor = 1
slot = [{ capacity = 1 }]
guest = [{ name = 'a', image = 'jump', format = 'flat', ram = 4096, rate = 1 }]
disk = [{ guest = 'a', sectors = 1, base = 1 }, { guest = 'a', sectors = 9, image = 'more', base = 1 }]
--
diecast 1 factor 1 slots 1 guests 1 host 1
host 1
slot 0
run 0 units 1 done 1
0 0 instr 80000000 0000006f
end 1
--
==
plan a.toml|0|all|0|1
version = 1
factor = 1
slot = [{ capacity = 1 }]
guest = [{ name = 'a', image = 'jump', format = 'flat', ram = 4096, rate = 1 }]
disk = [{ guest = 'a', sectors = 1, image = 'lost', base = 1 }]
--
plan factor 1 slots 1 guests 1
slot 0 need 1 have 1
guest 0 a slot 0 rate 1
least 1 slot 0
fits
--
==
run a.toml --host-ticks 1 --view journal|0|all|5|3
version = 1
factor = 1
slot = [{ capacity = 1 }]
guest = [{ name = 'a', image = 'jump', format = 'flat', ram = 4096, rate = 1 }]
disk = [{ guest = 'a', sectors = 1, base = 1 }, { guest = 'a', sectors = 1, image = 'lost', base = 1 }]
--
--
diecast: read fault: disk 1
==
run a.toml --host-ticks 1 --view journal|0|all|4|3
version = 1
factor = 1
slot = [{ capacity = 1 }]
guest = [{ name = 'a', image = 'jump', format = 'flat', ram = 4096, rate = 1 }]
disk = [{ guest = 'a', sectors = 1, image = 'long', base = 1 }]
--
--
diecast: too long: disk 0
==
run a.toml --host-ticks 1 --view journal|0|all|7|3
version = 1
factor = 1
slot = [{ capacity = 1 }]
guest = [{ name = 'a', image = 'jump', format = 'flat', ram = 4096, rate = 1 }]
disk = [{ guest = 'a', sectors = 1, image = 'full', base = 1 }]
--
--
diecast: out of memory
==
run a.toml --host-ticks 1 --view journal|0|all|4|3
version = 1
factor = 1
slot = [{ capacity = 1 }]
guest = [{ name = 'a', image = 'jump', format = 'flat', ram = 4096, rate = 1 }]
disk = [{ guest = 'a', sectors = 8, image = 'more', base = 1 }, { guest = 'a', sectors = 1, image = 'lost', base = 1 }]
--
--
diecast: disk 0: 4097 bytes, room 4096
==
run a.toml --host-ticks 1 --view journal|0|all|4|3
version = 1
factor = 1
slot = [{ capacity = 2 }]
guest = [{ name = 'a', image = 'jump', format = 'flat', ram = 4096, rate = 1 }, { name = 'b', image = 'more', format = 'flat', ram = 4096, rate = 1 }]
disk = [{ guest = 'a', sectors = 1, image = 'lost', base = 1 }]
--
--
diecast: image 1: too-long
==
run a.toml --host-ticks 1 --view traces|0|all|0|2
version = 1
factor = 1
slot = [{ capacity = 2 }]
guest = [
  { name = 'a', image = 'misaligned', format = 'flat', ram = 4096, rate = 2, slot = 0 },
]
--
traces guests 1 ticks 1
guest 0 a
0 0 trap 00000000 80000000
0 0 trap 00000001 00000000
end
--
==
run a.toml --host-ticks 4 --view journal|0|all|0|2
version = 1
factor = 1
slot = [{ capacity = 5 }]
guest = [
  { name = 'a', image = 'timer', format = 'flat', ram = 4096, rate = 5, slot = 0 },
]
--
diecast 1 factor 1 slots 1 guests 1 host 4
host 1
slot 0
run 0 units 5 done 1
0 0 instr 80000000 800002b7
0 0 instr 80000004 04028293
0 0 instr 80000008 30529073
0 0 instr 8000000c 02004337
0 0 instr 80000010 00300393
host 2
slot 0
run 0 units 5 done 2
1 0 instr 80000014 00032223
1 0 instr 80000018 00732023
1 0 instr 8000001c 08000413
1 0 instr 80000020 30441073
1 0 instr 80000024 30046073
host 3
slot 0
run 0 units 5 done 3
2 0 instr 80000028 0000006f
2 0 instr 80000028 0000006f
2 0 instr 80000028 0000006f
2 0 instr 80000028 0000006f
2 0 instr 80000028 0000006f
host 4
slot 0
run 0 units 5 done 4
3 0 trap 80000007 80000028
3 0 instr 80000040 0000006f
3 0 instr 80000040 0000006f
3 0 instr 80000040 0000006f
3 0 instr 80000040 0000006f
end 4
--
==
run a.toml --host-ticks 4 --view events|0|all|0|2
version = 1
factor = 1
slot = [{ capacity = 5 }]
guest = [
  { name = 'a', image = 'timer', format = 'flat', ram = 4096, rate = 5, slot = 0 },
]
--
diecast 1 factor 1 slots 1 guests 1 host 4
host 1
slot 0
run 0 units 5 done 1
host 2
slot 0
run 0 units 5 done 2
host 3
slot 0
run 0 units 5 done 3
host 4
slot 0
run 0 units 5 done 4
3 0 trap 80000007 80000028
end 4
--
==
run a.toml --host-ticks 4 --view traces|0|all|0|2
version = 1
factor = 1
slot = [{ capacity = 5 }]
guest = [
  { name = 'a', image = 'timer', format = 'flat', ram = 4096, rate = 5, slot = 0 },
]
--
traces guests 1 ticks 4
guest 0 a
0 0 instr 80000000 800002b7
0 0 instr 80000004 04028293
0 0 instr 80000008 30529073
0 0 instr 8000000c 02004337
0 0 instr 80000010 00300393
1 0 instr 80000014 00032223
1 0 instr 80000018 00732023
1 0 instr 8000001c 08000413
1 0 instr 80000020 30441073
1 0 instr 80000024 30046073
2 0 instr 80000028 0000006f
2 0 instr 80000028 0000006f
2 0 instr 80000028 0000006f
2 0 instr 80000028 0000006f
2 0 instr 80000028 0000006f
3 0 trap 80000007 80000028
3 0 instr 80000040 0000006f
3 0 instr 80000040 0000006f
3 0 instr 80000040 0000006f
3 0 instr 80000040 0000006f
end
--
==
run a.toml --host-ticks 40 --view traces|0|all|0|2
version = 1
factor = 10
slot = [{ capacity = 5 }]
guest = [
  { name = 'a', image = 'timer', format = 'flat', ram = 4096, rate = 5, slot = 0 },
]
--
traces guests 1 ticks 4
guest 0 a
0 0 instr 80000000 800002b7
0 0 instr 80000004 04028293
0 0 instr 80000008 30529073
0 0 instr 8000000c 02004337
0 0 instr 80000010 00300393
1 0 instr 80000014 00032223
1 0 instr 80000018 00732023
1 0 instr 8000001c 08000413
1 0 instr 80000020 30441073
1 0 instr 80000024 30046073
2 0 instr 80000028 0000006f
2 0 instr 80000028 0000006f
2 0 instr 80000028 0000006f
2 0 instr 80000028 0000006f
2 0 instr 80000028 0000006f
3 0 trap 80000007 80000028
3 0 instr 80000040 0000006f
3 0 instr 80000040 0000006f
3 0 instr 80000040 0000006f
3 0 instr 80000040 0000006f
end
--
==
run a.toml --host-ticks 4 --view summary|0|all|0|2
version = 1
factor = 1
slot = [{ capacity = 5 }]
guest = [
  { name = 'a', image = 'timer', format = 'flat', ram = 4096, rate = 5, slot = 0 },
]
--
summary guests 1 ticks 4
0 a instr 19 trap 1 disk 0 sent 0 drop 0 bad 0 recv 0 lost 0 uart 0 broken 0 halt 0
end
--
==
run a.toml --host-ticks 1 --view traces|0|all|0|2
version = 1
factor = 2
slot = [{ capacity = 1 }]
guest = [
  { name = 'a', image = 'jump', format = 'flat', ram = 4096, rate = 2 },
]
--
traces guests 1 ticks 0
guest 0 a
end
--
==
run a.toml --host-ticks 4|0|all|0|2
version = 1
factor = 2
slot = [{ capacity = 1 }]
guest = [
  { name = 'a', image = 'jump', format = 'flat', ram = 4096, rate = 2 },
]
--
summary guests 1 ticks 2
0 a instr 4 trap 0 disk 0 sent 0 drop 0 bad 0 recv 0 lost 0 uart 0 broken 0 halt 0
end
--
==
run --view journal a.toml --host-ticks=4|0|all|0|2
version = 1
factor = 2
slot = [{ capacity = 1 }]
guest = [
  { name = 'a', image = 'jump', format = 'flat', ram = 4096, rate = 2 },
]
--
diecast 1 factor 2 slots 1 guests 1 host 4
host 1
slot 0
run 0 units 1 done 0
host 2
slot 0
run 0 units 1 done 1
0 0 instr 80000000 0000006f
0 0 instr 80000000 0000006f
host 3
slot 0
run 0 units 1 done 1
host 4
slot 0
run 0 units 1 done 2
1 0 instr 80000000 0000006f
1 0 instr 80000000 0000006f
end 4
--
==
run a.toml --host-ticks 4 --view fast|0|all|2|0
--
--
diecast: usage: bad-view
==
run a.toml|0|all|2|0
--
--
diecast: usage: missing-option
==
plan a.toml --view journal|0|all|2|0
--
--
diecast: usage: extra-option
==
gen 1 --host-ticks 4|0|all|2|0
--
--
diecast: usage: bad-number
==
gen 33 --host-ticks 4|0|all|2|0
--
--
diecast: usage: bad-number
==
go a.toml|0|all|2|0
--
--
diecast: usage: unknown-command
==
|0|all|2|0
--
--
diecast: usage: not-words
==
gen 4 --host-ticks 400|0|all|0|0
--
summary guests 4 ticks 100
0 g0 instr 10000 trap 0 disk 0 sent 32 drop 32 bad 0 recv 32 lost 0 uart 0 broken 0 halt 0
1 g1 instr 10000 trap 0 disk 0 sent 32 drop 32 bad 0 recv 32 lost 0 uart 0 broken 0 halt 0
2 g2 instr 10000 trap 0 disk 0 sent 32 drop 32 bad 0 recv 32 lost 0 uart 0 broken 0 halt 0
3 g3 instr 10000 trap 0 disk 0 sent 32 drop 32 bad 0 recv 32 lost 0 uart 0 broken 0 halt 0
end
--
";

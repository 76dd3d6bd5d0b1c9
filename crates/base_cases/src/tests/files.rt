//! Files and what is said of them.
use exp_file::{ExpErr, ExpFault, read_experiment};
use std::alloc::Global;
use std::test::Fail;

/// A case a line: the parts that its file begins with, by their letters, the last line of the file, and the
/// first fault: why, section, index and key; or `Read` where the file is right.
const CASES: &str = "\
|version =|NotToml Top 0 \n\
||Missing Top 0 version\n\
vsgz|area = 1|Unknown Top 0 area\n\
vsg|area = 1|Unknown Top 0 area\n\
|area = 1|Unknown Top 0 area\n\
sg|factor = 2|Missing Top 0 version\n\
sg|version = 1.0|WrongKind Top 0 version\n\
sg|version = 0|Range Top 0 version\n\
sg|version = 2|Range Top 0 version\n\
sg|version = 1|Missing Top 0 factor\n\
nsg|factor = true|WrongKind Top 0 factor\n\
nsg|factor = 0|Range Top 0 factor\n\
nsg|factor = 1001|Range Top 0 factor\n\
vg||NoSlot Top 0 slot\n\
vg|slot = []|NoSlot Top 0 slot\n\
vg|slot = {}|WrongKind Top 0 slot\n\
vg|slot = [1,1,1,1,1,1,1,1,1,1,1,1,1,1,1,1,1,1,1,1,1,1,1,1,1,1,1,1,1,1,1,1,1]|Range Top 0 slot\n\
vs||NoGuest Top 0 guest\n\
vs|guest = []|NoGuest Top 0 guest\n\
vs|guest = 1|WrongKind Top 0 guest\n\
vs|guest = [1,1,1,1,1,1,1,1,1,1,1,1,1,1,1,1,1,1,1,1,1,1,1,1,1,1,1,1,1,1,1,1,1]|Range Top 0 guest\n\
vsg|disk = 'd'|WrongKind Top 0 disk\n\
vsg|disk = [1,1,1,1,1,1,1,1,1,1,1,1,1,1,1,1,1,1,1,1,1,1,1,1,1,1,1,1,1,1,1,1,1,1,1,1,1,1,1,1,1,1,1,1,1,1,1,1,1,1,1,1,1,1,1,1,1,1,1,1,1,1,1,1,1]|Range Top 0 disk\n\
vsg|link = {}|WrongKind Top 0 link\n\
vsg|link = [1,1,1,1,1,1,1,1,1,1,1,1,1,1,1,1,1,1,1,1,1,1,1,1,1,1,1,1,1,1,1,1,1,1,1,1,1,1,1,1,1,1,1,1,1,1,1,1,1,1,1,1,1,1,1,1,1,1,1,1,1,1,1,1,1]|Range Top 0 link\n\
vg|slot = [{ capacity = 1 }, 1]|WrongKind Slot 1 \n\
vg|slot = [{ zone = 1, area = 1 }]|Unknown Slot 0 area\n\
vg|slot = [{}]|Missing Slot 0 capacity\n\
vg|slot = [{ capacity = 'c' }]|WrongKind Slot 0 capacity\n\
vg|slot = [{ capacity = 0 }]|Range Slot 0 capacity\n\
vg|slot = [{ capacity = 1000001 }]|Range Slot 0 capacity\n\
vs|guest = [[]]|WrongKind Guest 0 \n\
vs|guest = [{ zone = 1, area = 1 }]|Unknown Guest 0 area\n\
vs|guest = [{ image = 'a', rate = 1 }]|Missing Guest 0 name\n\
vs|guest = [{ name = 1 }]|WrongKind Guest 0 name\n\
vs|guest = [{ name = '' }]|Range Guest 0 name\n\
vs|guest = [{ name = 'A' }]|Range Guest 0 name\n\
vs|guest = [{ name = 'aaaaaaaaaaaaaaaaaaaaaaaaaaaaaaaaa' }]|Range Guest 0 name\n\
vs|guest = [{ name = 'a' }]|Missing Guest 0 image\n\
vs|guest = [{ name = 'a', image = 1 }]|WrongKind Guest 0 image\n\
vs|guest = [{ name = 'a', image = '' }]|Range Guest 0 image\n\
vs|guest = [{ name = 'a', image = 'aaaaaaaaaaaaaaaaaaaaaaaaaaaaaaaaaaaaaaaaaaaaaaaaaaaaaaaaaaaaaaaaaaaaaaaaaaaaaaaaaaaaaaaaaaaaaaaaaaaaaaaaaaaaaaaaaaaaaaaaaaaaaaaaaaaaaaaaaaaaaaaaaaaaaaaaaaaaaaaaaaaaaaaaaaaaaaaaaaaaaaaaaaaaaaaaaaaaaaaaaaaaaaaaaaaaaaaaaaaaaaaaaaaaaaaaaaaaaaaaaaaaaaaaaaaaaaaa' }]|Range Guest 0 image\n\
vs|guest = [{ name = \"a\", image = \"\\u0000\" }]|Range Guest 0 image\n\
vs|guest = [{ name = 'a', image = 'a', format = 1 }]|WrongKind Guest 0 format\n\
vs|guest = [{ name = 'a', image = 'a', format = 'raw' }]|Range Guest 0 format\n\
vs|guest = [{ name = 'a', image = 'a', ram = 1.0 }]|WrongKind Guest 0 ram\n\
vs|guest = [{ name = 'a', image = 'a', ram = 0 }]|Range Guest 0 ram\n\
vs|guest = [{ name = 'a', image = 'a', ram = 5000 }]|Range Guest 0 ram\n\
vs|guest = [{ name = 'a', image = 'a', ram = 16781312 }]|Range Guest 0 ram\n\
vs|guest = [{ name = 'a', image = 'a' }]|Missing Guest 0 rate\n\
vs|guest = [{ name = 'a', image = 'a', rate = 'r' }]|WrongKind Guest 0 rate\n\
vs|guest = [{ name = 'a', image = 'a', rate = 0 }]|Range Guest 0 rate\n\
vs|guest = [{ name = 'a', image = 'a', rate = 100001 }]|Range Guest 0 rate\n\
vs|guest = [{ name = 'a', image = 'a', rate = 1, nics = {} }]|WrongKind Guest 0 nics\n\
vs|guest = [{ name = 'a', image = 'a', rate = 1, nics = -1 }]|Range Guest 0 nics\n\
vs|guest = [{ name = 'a', image = 'a', rate = 1, nics = 5 }]|Range Guest 0 nics\n\
vs|guest = [{ name = 'a', image = 'a', rate = 1, slot = 'a' }]|WrongKind Guest 0 slot\n\
vs|guest = [{ name = 'a', image = 'a', rate = 1, slot = 1 }]|Range Guest 0 slot\n\
vs|guest = [{ name = 'a', image = 'a', rate = 1 }, { name = 'a', image = 'a', rate = 1 }]|Twice Guest 1 name\n\
vsg|disk = [0]|WrongKind Disk 0 \n\
vsg|disk = [{ zone = 1, area = 1 }]|Unknown Disk 0 area\n\
vsg|disk = [{ sectors = 1 }]|Missing Disk 0 guest\n\
vsg|disk = [{ guest = 0 }]|WrongKind Disk 0 guest\n\
vsg|disk = [{ guest = 'b' }]|Missing Disk 0 sectors\n\
vsg|disk = [{ guest = 'b', sectors = 'b' }]|WrongKind Disk 0 sectors\n\
vsg|disk = [{ guest = 'b', sectors = 0 }]|Range Disk 0 sectors\n\
vsg|disk = [{ guest = 'b', sectors = 32769 }]|Range Disk 0 sectors\n\
vsg|disk = [{ guest = 'b', sectors = 1, image = 1 }]|WrongKind Disk 0 image\n\
vsg|disk = [{ guest = 'b', sectors = 1, image = '' }]|Range Disk 0 image\n\
vsg|disk = [{ guest = 'b', sectors = 1 }]|Missing Disk 0 base\n\
vsg|disk = [{ guest = 'b', sectors = 1, base = 'b' }]|WrongKind Disk 0 base\n\
vsg|disk = [{ guest = 'b', sectors = 1, base = 0 }]|Range Disk 0 base\n\
vsg|disk = [{ guest = 'b', sectors = 1, base = 1000001 }]|Range Disk 0 base\n\
vsg|disk = [{ guest = 'a', sectors = 1, base = 1, per_sector = 'b' }]|WrongKind Disk 0 per_sector\n\
vsg|disk = [{ guest = 'a', sectors = 1, base = 1, per_sector = 1000001 }]|Range Disk 0 per_sector\n\
vsg|disk = [{ guest = 'a', sectors = 1, base = 1, seek_num = 'b' }]|WrongKind Disk 0 seek_num\n\
vsg|disk = [{ guest = 'a', sectors = 1, base = 1, seek_num = 1000001 }]|Range Disk 0 seek_num\n\
vsg|disk = [{ guest = 'a', sectors = 1, base = 1, seek_den = 'b' }]|WrongKind Disk 0 seek_den\n\
vsg|disk = [{ guest = 'a', sectors = 1, base = 1, seek_den = 0 }]|Range Disk 0 seek_den\n\
vsg|disk = [{ guest = 'a', sectors = 1, base = 1, seek_den = 1000001 }]|Range Disk 0 seek_den\n\
vsg|disk = [{ guest = 'b', sectors = 1, base = 1 }]|NoSuchGuest Disk 0 guest\n\
vsg|disk = [{ guest = 'a', sectors = 1, base = 1 }, { guest = 'a', sectors = 1, base = 1 }, { guest = 'a', sectors = 1, base = 1 }]|Range Disk 2 guest\n\
vsg|link = [0]|WrongKind Link 0 \n\
vsg|link = [{ zone = 1, area = 1 }]|Unknown Link 0 area\n\
vsg|link = [{ b = 'b' }]|Missing Link 0 a\n\
vsg|link = [{ a = 0 }]|WrongKind Link 0 a\n\
vsg|link = [{ a = 'b', a_nic = 'b' }]|WrongKind Link 0 a_nic\n\
vsg|link = [{ a = 'b', a_nic = 4 }]|Range Link 0 a_nic\n\
vsg|link = [{ a = 'b' }]|Missing Link 0 b\n\
vsg|link = [{ a = 'b', b = 0 }]|WrongKind Link 0 b\n\
vsg|link = [{ a = 'b', b = 'c', b_nic = 'b' }]|WrongKind Link 0 b_nic\n\
vsg|link = [{ a = 'b', b = 'c', b_nic = 4 }]|Range Link 0 b_nic\n\
vsg|link = [{ a = 'b', b = 'c' }]|Missing Link 0 bandwidth\n\
vsg|link = [{ a = 'b', b = 'c', bandwidth = 'b' }]|WrongKind Link 0 bandwidth\n\
vsg|link = [{ a = 'b', b = 'c', bandwidth = 0 }]|Range Link 0 bandwidth\n\
vsg|link = [{ a = 'b', b = 'c', bandwidth = 1000001 }]|Range Link 0 bandwidth\n\
vsg|link = [{ a = 'b', b = 'c', bandwidth = 1 }]|Missing Link 0 delay\n\
vsg|link = [{ a = 'b', b = 'c', bandwidth = 1, delay = 'b' }]|WrongKind Link 0 delay\n\
vsg|link = [{ a = 'b', b = 'c', bandwidth = 1, delay = 0 }]|Range Link 0 delay\n\
vsg|link = [{ a = 'b', b = 'c', bandwidth = 1, delay = 10001 }]|Range Link 0 delay\n\
vsg|link = [{ a = 'b', b = 'c', bandwidth = 1, delay = 1 }]|Missing Link 0 queue\n\
vsg|link = [{ a = 'b', b = 'c', bandwidth = 1, delay = 1, queue = 'b' }]|WrongKind Link 0 queue\n\
vsg|link = [{ a = 'b', b = 'c', bandwidth = 1, delay = 1, queue = 0 }]|Range Link 0 queue\n\
vsg|link = [{ a = 'b', b = 'c', bandwidth = 1, delay = 1, queue = 1001 }]|Range Link 0 queue\n\
vsg|link = [{ a = 'b', b = 'c', bandwidth = 1, delay = 1, queue = 1 }]|NoSuchGuest Link 0 a\n\
vsg|link = [{ a = 'a', b = 'c', bandwidth = 1, delay = 1, queue = 1 }]|NoSuchGuest Link 0 b\n\
vsg|link = [{ a = 'a', a_nic = 2, b = 'c', bandwidth = 1, delay = 1, queue = 1 }]|NicRange Link 0 a_nic\n\
vsg|link = [{ a = 'a', b = 'a', b_nic = 2, bandwidth = 1, delay = 1, queue = 1 }]|NicRange Link 0 b_nic\n\
vsg|link = [{ a = 'a', b = 'a', bandwidth = 1, delay = 1, queue = 1 }]|NicTaken Link 0 b_nic\n\
vsg|link = [{ a = 'a', b = 'a', b_nic = 1, bandwidth = 1, delay = 1, queue = 1 }, { a = 'a', a_nic = 1, b = 'a', bandwidth = 1, delay = 1, queue = 1 }]|NicTaken Link 1 a_nic\n\
vsp|link = [{ a = 'a', b = 'b', bandwidth = 1, delay = 1, queue = 1 }, { a = 'a', a_nic = 1, b = 'b', bandwidth = 1, delay = 1, queue = 1 }]|NicTaken Link 1 b_nic\n\
vsg||Read\n\
vs|guest = [{ name = 'a', image = 'a', rate = 1, nics = 4 }]|Read\n\
vsg|disk = [{ guest = 'a', sectors = 1, base = 1 }]|Read\n\
vsg|disk = [{ guest = 'a', sectors = 32768, image = 'a', base = 1000000, per_sector = 1000000, seek_num = 1000000, seek_den = 1000000 }, { guest = 'a', sectors = 1, base = 1, per_sector = 0, seek_num = 0, seek_den = 1 }]|Read\n\
vsg|link = [{ a = 'a', b = 'a', b_nic = 1, bandwidth = 100, delay = 1, queue = 1 }]|Read\n\
vsp|link = [{ a = 'a', a_nic = 1, b = 'b', bandwidth = 1000000, delay = 10000, queue = 1000 }]|Read\n\
vs|guest = [{ name = \"a\", image = \"a.bin\", format = \"flat\", ram = 4096, rate = 2, slot = 0 }]|Read\n\
vs|guest = [{ name = \"a\", image = \"a.bin\", format = \"flat\", ram = 4096, rate = 2 }]|Read\n\
vs|guest = [{ name = \"a\", image = \"a.bin\", ram = 4096, rate = 2, slot = 0 }]|Read\n\
";

/// The lines of a letter.
fn part_of(letter: u8) -> &'static str {
    match letter {
        b'n' => "version = 1\n",
        b'v' => "version = 1\nfactor = 2\n",
        b'z' => "zone = 1\n",
        b's' => "slot = [{ capacity = 1 }]\n",
        b'g' => "guest = [{ name = 'a', image = 'a', rate = 1, nics = 2 }]\n",
        _ =>
            "guest = [{ name = 'a', image = 'a', rate = 1, nics = 2 }, { name = 'b', image = 'b', rate = 1, nics = 1 }]\n",
    }
}

fn file_of(alloc: Global, parts: &str, last: &str) -> Result<String, Fail> {
    let mut text = String::new(alloc);
    for letter in parts.as_bytes() {
        text.push_str(part_of(*letter))?;
    }
    text.push_str(last)?;
    Ok(text)
}

/// Whether a fault is the one that is told.
fn is_told(alloc: Global, fault: &ExpFault, told: &str) -> Result<bool, Fail> {
    let words = format!(in alloc; "{:?} {:?} {} ", fault.why, fault.section, fault.index)?;
    Ok(match told.strip_prefix(words.as_str()) {
        Some(key) => fault.key.as_slice() == key.as_bytes(),
        None => false,
    })
}

/// Whether a case's file is read, or refused, as the case tells.
fn is_right(alloc: Global, case: &str) -> Result<bool, Fail> {
    let Some((parts, rest)) = case.split_once('|') else {
        return Ok(false);
    };
    let Some((last, told)) = rest.split_once('|') else {
        return Ok(false);
    };
    let text = file_of(alloc, parts, last)?;
    match read_experiment(alloc, text.as_bytes()) {
        Ok(_) => Ok(told == "Read"),
        Err(ExpErr::Fault(fault)) => is_told(alloc, &fault, told),
        Err(ExpErr::NoMemory) => Ok(false),
    }
}

#[test]
fn tells_the_first_fault(rt: HostRuntime) -> Result<(), Fail> {
    for case in CASES.lines() {
        let right = is_right(rt.alloc(), case)?;
        assert!(rt; right, "at {case}");
    }
    Ok(())
}

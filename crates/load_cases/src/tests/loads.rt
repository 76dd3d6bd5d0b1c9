//! Generated loads.
use exp_file::{Experiment, Format};
use gen_load::{GenErr, Load, generate};
use std::alloc::Global;
use std::test::Fail;

/// A load of four guests.
fn load_of_four(alloc: Global) -> Result<Load, Fail> {
    match generate(alloc, 4) {
        Ok(load) => Ok(load),
        Err(_) => Err(Fail::new("no load")),
    }
}

#[test]
fn loads_have_two_to_32_guests(rt: HostRuntime) {
    for n in [0, 1, 33, u32::MAX] {
        let refused = matches!(generate(rt.alloc(), n), Err(GenErr::Range));
        assert!(rt; refused, "at {n}");
    }
    for n in [2, 3, 32] {
        let count = match generate(rt.alloc(), n) {
            Ok(load) => load.images.len(),
            Err(_) => 0,
        };
        assert!(rt; count == n as usize, "at {n}");
    }
}

/// The links of a load, one a line: a guest and its nic, and the other guest and its nic.
fn links_told(alloc: Global, experiment: &Experiment) -> Result<String, Fail> {
    let mut text = String::new(alloc);
    for link in experiment.links.as_slice() {
        let line = format!(in alloc; "{} {} {} {}\n", link.a, link.a_nic, link.b, link.b_nic)?;
        text.push_str(line.as_str())?;
    }
    Ok(text)
}

/// The guests of a load, one a line: name, image, RAM, rate, nics.
fn guests_told(alloc: Global, experiment: &Experiment) -> Result<String, Fail> {
    let mut text = String::new(alloc);
    for guest in experiment.guests.as_slice() {
        let line = format!(in alloc;
            "{} {} {} {} {}\n",
            guest.name.as_str(),
            guest.image.as_str(),
            guest.ram,
            guest.rate,
            guest.nics
        )?;
        text.push_str(line.as_str())?;
    }
    Ok(text)
}

#[test]
fn four_guests_make_a_ring(rt: HostRuntime) -> Result<(), Fail> {
    let load = load_of_four(rt.alloc())?;
    let guests = guests_told(rt.alloc(), &load.experiment)?;
    assert!(rt;
        guests.as_str()
            == "g0 g0.bin 65536 100 2\ng1 g1.bin 65536 100 2\ng2 g2.bin 65536 100 2\ng3 g3.bin 65536 100 2\n"
    );
    let links = links_told(rt.alloc(), &load.experiment)?;
    assert!(rt; links.as_str() == "0 1 1 0\n1 1 2 0\n2 1 3 0\n3 1 0 0\n");
    Ok(())
}

#[test]
fn slots_have_room_for_half_of_the_guests(rt: HostRuntime) {
    for (n, capacity) in [(2, 25), (3, 50), (4, 50), (31, 400), (32, 400)] {
        let right = match generate(rt.alloc(), n) {
            Ok(load) => load.experiment.factor == 4
                && load.experiment.slots.len() == 2
                && load
                    .experiment
                    .slots
                    .as_slice()
                    .iter()
                    .all(|slot| slot.capacity == capacity),
            Err(_) => false,
        };
        assert!(rt; right, "at {n}");
    }
}

/// The program, as words of 32 bits.
const PROGRAM: [u32; 8] = [
    0x8000_12b7,
    0x0002_a303,
    0x0003_0a63,
    0x0042_a383,
    0x0073_2023,
    0x0082_8293,
    0xfedf_f06f,
    0x0000_006f,
];

/// The FNV-1a hash of the image of guest 3 of 4, as a program in another language made the image from
/// what is stated of it.
const HASH: u32 = 0xda99_4fd9;

/// The bytes of the last frame of guest 3 of 4 with 12 zeros before it, up to its mark.
const LAST_FRAME: [u8; 27] = [
    0, 0, 0, 0, 0, 0, 0, 0, 0, 0, 0, 0, 2, 0, 0, 0, 0, 0, 2, 0, 0, 0, 3, 1, 0x88, 0xb5, 15,
];

/// Whether these bytes stand at a place.
fn stands(image: &[u8], at: usize, bytes: &[u8]) -> bool {
    match image.get(at..) {
        Some(rest) => rest.starts_with(bytes),
        None => false,
    }
}

/// The FNV-1a hash of 32 bits.
fn hash_of(bytes: &[u8]) -> u32 {
    let mut hash: u32 = 0x811c_9dc5;
    for byte in bytes {
        hash = (hash ^ u32::from(*byte)).wrapping_mul(0x0100_0193);
    }
    hash
}

#[test]
fn images_are_as_stated(rt: HostRuntime) -> Result<(), Fail> {
    let load = load_of_four(rt.alloc())?;
    let Some(image) = load.images.get(3) else {
        return Err(Fail::new("no image"));
    };
    let image = image.as_slice();
    assert!(rt; image.len() == 0x5800);
    for (number, word) in PROGRAM.iter().enumerate() {
        let right = stands(image, 4 * number, &word.to_le_bytes());
        assert!(rt; right, "at {number}");
    }
    assert!(rt; stands(image, 0x5780, &LAST_FRAME));
    assert!(rt; hash_of(image) == HASH);
    Ok(())
}

/// All guests have format flat and no slot of their own.
#[test]
fn guests_are_placed_freely(rt: HostRuntime) -> Result<(), Fail> {
    let load = load_of_four(rt.alloc())?;
    let right = load.experiment.guests.as_slice().iter().all(|guest| guest.format == Format::Flat
        && guest.slot.is_none());
    assert!(rt; right);
    Ok(())
}

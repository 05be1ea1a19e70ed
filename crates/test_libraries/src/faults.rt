//! The order of faults, and their numbers and names.
use grid_core::cell::CellId;
use grid_core::token::{TokenFault, parse_token};
use grid_core::volume::{Area, Volume};
use grid_core::volume_fault::VolumeFault;
use std::alloc::Global;
use token_conf::conf_fault::ConfFault;

// Returns the same cell so many times.
fn cells(alloc: Global, count: u32) -> Option<Vec<CellId>> {
    let cell = parse_token("89c25904").ok()?;
    let mut cells = Vec::new(alloc);
    for _ in 0..count {
        cells.push(cell).ok()?;
    }
    Some(cells)
}

// Returns true if that is the first fault of so many cells with these bounds, for an area and for a
// volume.
fn is_first(
    alloc: Global,
    count: u32,
    altitude: (i64, i64),
    time: (u64, u64),
    fault: Option<VolumeFault>,
) -> bool {
    let (Some(given), Some(again)) = (cells(alloc, count), cells(alloc, count)) else {
        return false;
    };
    let altitudes = (Some(altitude.0), Some(altitude.1));
    let area = Area::new(given, altitudes, (Some(time.0), Some(time.1)));
    area.err() == fault && Volume::new(again, altitude, time).err() == fault
}

#[test]
fn the_first_fault_of_an_extent(rt: HostRuntime) {
    for (count, altitude, time, fault) in &[
        (0, (8, 7), (8, 7), Some(VolumeFault::Empty)),
        (513, (8, 7), (8, 7), Some(VolumeFault::TooMany)),
        (1, (8, 7), (8, 7), Some(VolumeFault::Altitude)),
        (1, (7, 7), (8, 7), Some(VolumeFault::Time)),
        (512, (7, 7), (7, 7), None),
    ] {
        let alloc = rt.alloc();
        assert!(rt;
            is_first(alloc, *count, *altitude, *time, *fault),
            "of {count} cells"
        );
    }
}

#[test]
fn faults_of_volumes(rt: HostRuntime) {
    for (fault, number, name) in &[
        (VolumeFault::Empty, 1, "Empty"),
        (VolumeFault::TooMany, 2, "TooMany"),
        (VolumeFault::Altitude, 3, "Altitude"),
        (VolumeFault::Time, 4, "Time"),
    ] {
        assert!(rt;
            fault.number() == *number && fault.name() == *name,
            "{name}"
        );
    }
}

#[test]
fn faults_by_number(rt: HostRuntime) {
    assert!(rt; TokenFault::Length.number() == 1 && TokenFault::Length.name() == "Length");
    assert!(rt; ConfFault::Memory.number() == 7 && ConfFault::Memory.name() == "Memory");
    assert!(rt; CellId::from_raw(0).is_none());
}

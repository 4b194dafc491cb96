//! The epochs of a storm under switchings.
use crate::worked::CASE_P;
use gic_base::OutOfMemory;
use gic_case_reader::read_case;
use gic_storm::read_storm;
use gic_switch::{Epoch, epochs, read_switchings};
use std::alloc::Global;
use std::test::Fail;

/// A field to the north that turns, at three steps.
const TURNING: &str = "time,north,east\n0,-3000,0\n60,1000,0\n120,2000,0\n";

/// The line of the case P is open at the second step of the storm, as two rows tell.
const LINE_SWITCHED: &str = "time,item,action\n60,L,open\n60,L,open\n120,L,close\n";

/// The epochs of the storm.
fn epochs_of_the_storm(alloc: Global) -> Result<Vec<Epoch>, Fail> {
    let case = read_case(alloc, CASE_P.as_bytes())?;
    let storm = read_storm(alloc, TURNING.as_bytes(), &case)?;
    let switchings = read_switchings(alloc, LINE_SWITCHED.as_bytes(), &case)?;
    Ok(epochs(alloc, &storm, &switchings)?)
}

#[test]
fn cuts_a_storm_into_epochs(rt: HostRuntime) -> Result<(), Fail> {
    let found = epochs_of_the_storm(rt.alloc())?;
    let wanted = [(1, 1, 0), (2, 2, 2), (3, 3, 3)];
    assert_eq!(rt; found.len(), wanted.len());
    for ((first, last, through), epoch) in wanted.into_iter().zip(found.as_slice()) {
        assert_eq!(rt;
            (epoch.first, epoch.last, epoch.through),
            (first, last, through)
        );
    }
    Ok(())
}

// What no contract says: that memory is found, and the answers of one worked row.
use super::*;
use std::test::Fail;

#[test]
fn gate_of_one(rt: HostRuntime) -> Result<(), Fail> {
    let (gate, mut first) = Gate::new(rt.alloc(), 1)?;
    let mut second = gate.split_seat(&mut first);
    let entry = gate.try_enter(&mut first);
    assert!(rt; entry == Entry::Entered { place: 0 });
    assert!(rt; gate.try_enter(&mut second) == Entry::Busy);
    if let Entry::Entered { place } = entry {
        gate.leave(&mut first, place);
    }
    assert!(rt; gate.try_enter(&mut second) == Entry::Entered { place: 0 });
    gate.join_seat(&mut first, second);
    assert!(rt; gate.try_enter(&mut first) == Entry::Busy);
    Ok(())
}

//! Which grant permits, and which one is removed.
use std::test::Fail;
use tc_model::Primitive;
use tc_policy::{Grant, Roles};

fn grant(role: u32, centre: u32, primitive: Primitive) -> Grant {
    Grant {
        role,
        centre,
        primitive,
    }
}

#[test]
fn the_first_grant_permits(rt: HostRuntime) -> Result<(), Fail> {
    let mut roles = Roles::new(rt.alloc());
    roles.add(grant(0, 1, Primitive::Out))?;
    roles.add(grant(0, 1, Primitive::In))?;
    roles.add(grant(0, 1, Primitive::Out))?;
    roles.add(grant(2, 1, Primitive::GetSpec))?;
    assert_eq!(rt; roles.permits(0, 1, Primitive::Out), Some(1));
    assert_eq!(rt; roles.permits(0, 1, Primitive::In), Some(2));
    assert_eq!(rt; roles.permits(2, 1, Primitive::GetSpec), Some(4));
    assert_eq!(rt; roles.permits(1, 2, Primitive::Out), None);

    let mut fewer = roles.copy(rt.alloc())?;
    fewer.remove(&grant(0, 1, Primitive::Out));
    assert_eq!(rt; fewer.permits(0, 1, Primitive::In), Some(1));
    assert_eq!(rt; fewer.permits(0, 1, Primitive::Out), Some(2));
    fewer.remove(&grant(0, 1, Primitive::Out));
    fewer.remove(&grant(0, 1, Primitive::Out));
    assert_eq!(rt; fewer.permits(0, 1, Primitive::Out), None);
    assert_eq!(rt; fewer.permits(2, 1, Primitive::GetSpec), Some(2));
    assert_eq!(rt; fewer.grants().len(), 2);
    assert_eq!(rt; roles.grants().len(), 4);
    Ok(())
}

#[test]
fn absence_has_grants_of_its_own(rt: HostRuntime) -> Result<(), Fail> {
    let mut roles = Roles::new(rt.alloc());
    roles.add(grant(0, 1, Primitive::Rdp))?;
    roles.add(grant(0, 1, Primitive::No))?;
    roles.add(grant(0, 2, Primitive::Nop))?;
    assert_eq!(rt; roles.permits(0, 1, Primitive::No), Some(2));
    assert_eq!(rt; roles.permits(0, 1, Primitive::Nop), None);
    assert_eq!(rt; roles.permits(0, 2, Primitive::Nop), Some(3));
    assert_eq!(rt; roles.permits(0, 2, Primitive::No), None);
    assert_eq!(rt; roles.permits(0, 2, Primitive::SetSpec), None);
    Ok(())
}

// General registers, and tables with their first and last users.
use register::{Entry, General, Register, Table, User};
use std::process::Abort;
use std::test::Fail;
use text::{Fault, Layer};

fn entry(user: u32, limit: u8) -> Entry {
    Entry {
        user: User(user),
        limit,
    }
}

// The limit of a user in any register.
fn limit<R: Register>(register: &R, user: u32) -> u8 {
    register.limit_of(User(user))
}

// The limit of a user in the table of these entries.
fn listed(entries: &[Entry], user: u32) -> Result<u8, Fault> {
    let table = Table::new(entries)?;
    Ok(limit(&table, user))
}

fn refused(rt: &impl Abort, entries: &[Entry], number: u8) {
    assert_eq!(rt; listed(entries, 1), Err(Fault::new(Layer::Making, number)));
}

#[test]
fn one_limit_for_everybody(rt: HostRuntime) -> Result<(), Fail> {
    for n in 1..8u8 {
        let general = General::new(n)?;
        assert_eq!(rt; limit(&general, 1), n);
        assert_eq!(rt; limit(&general, 16_777_215), n);
    }
    for n in [0u8, 8, 255] {
        assert_eq!(rt; General::new(n).err(), Some(Fault::new(Layer::Making, 51)));
    }
    Ok(())
}

#[test]
fn limits_of_a_table(rt: HostRuntime) {
    let entries = [entry(1, 7), entry(2, 0), entry(16_777_215, 1)];
    assert_eq!(rt; listed(&entries, 1), Ok(7));
    assert_eq!(rt; listed(&entries, 2), Ok(0));
    assert_eq!(rt; listed(&entries, 3), Ok(0));
    assert_eq!(rt; listed(&entries, 16_777_215), Ok(1));
    assert_eq!(rt; listed(&[], 1), Ok(0));
}

#[test]
fn tables_refused(rt: HostRuntime) {
    refused(&rt, &[entry(1, 7), entry(2, 8)], 51);
    refused(&rt, &[entry(0, 1)], 52);
    refused(&rt, &[entry(16_777_216, 1)], 52);
    refused(&rt, &[entry(5, 1), entry(5, 1)], 52);
    refused(&rt, &[entry(6, 1), entry(5, 1)], 52);
    refused(&rt, &[entry(6, 1), entry(5, 1), entry(7, 8)], 51);
}

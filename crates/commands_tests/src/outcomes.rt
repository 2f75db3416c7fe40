//! The statuses and texts of outcomes that none of these commands has.

use commands::Outcome;
use plain_io::MemorySink;
use std::alloc::Global;
use std::test::Fail;
use tgap_model::{List, Memory};

/// Whether an outcome is put with this status and text.
fn is_put(alloc: Global, outcome: Outcome, status: u8, text: &str) -> Result<bool, Memory> {
    let mut out = MemorySink::new(alloc, 1000, List::new(alloc))?;
    let found = outcome.put(alloc, &mut out);
    Ok(found == status && out.bytes() == text.as_bytes())
}

#[test]
fn what_comes_of_a_journal(rt: HostRuntime) -> Result<(), Fail> {
    let alloc = rt.alloc();
    let fault = Outcome::JournalFault;
    assert!(rt; is_put(alloc, fault, 3, "load fault journal\n")?);
    let first = Outcome::BadEntry { place: 0 };
    assert!(rt; is_put(alloc, first, 4, "refused 22 journal-entry 0\n")?);
    let last = Outcome::BadEntry { place: u64::MAX };
    assert!(rt;
        is_put(
            alloc,
            last,
            4,
            "refused 22 journal-entry 18446744073709551615\n"
        )?
    );
    let long = Outcome::LongJournal { batches: 64 };
    assert!(rt; is_put(alloc, long, 4, "refused 23 journal-long 64\n")?);
    Ok(())
}

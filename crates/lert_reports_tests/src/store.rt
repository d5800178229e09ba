//! A store over each count table, under several secrets.

ghost use Rattle.std.specs.Prelude.{◌≡◌, []};

use crate::settings::settings_of;
use lert_base::{CountTable, Numbers, Report};
use lert_cqf::Cqf;
use lert_plain::PlainTable;
use lert_reports::ReportStore;
use std::alloc::Global;
use std::process::Abort;

const TWO_REPORTS: Numbers = Numbers {
    threshold: 3,
    bins: 3,
    ratio: 2,
    base: 4,
    levels: 2,
    cone_bits: 0,
    room: 2,
    packet: 8,
};

// That of everybody, and three others.
const SECRETS: [u64; 4] = [0, 1, 0x9e37_79b9_7f4a_7c15, u64::MAX];

// Whether a store has just these reports, and tells of each of the keys 7, 13 and 8 whether it is reported.
fn has_just<T: CountTable>(store: &ReportStore<T>, reports: &[Report], told: [bool; 3]) -> bool {
    let has = [store.has(7), store.has(13), store.has(8)];
    store.len() == reports.len() && store.list() == reports && has == told
}

// Whether a store without reports, which has room for two, is its list as they come and are cleared.
fn is_its_list<T: CountTable>(store: &mut ReportStore<T>) -> bool
    requires settings { store.old.settings ≡ TWO_REPORTS }
    requires none { store.old.reports ≡ [] }
{
    let seven = Report { key: 7, at: 3 };
    let thirteen = Report { key: 13, at: 3 };
    let at_first = has_just(store, &[], [false; 3]);
    store.put(seven);
    store.put(thirteen);
    let filled = has_just(store, &[seven, thirteen], [true, true, false]);
    store.clear();
    let cleared = has_just(store, &[], [false; 3]);
    store.put(thirteen);
    at_first && filled && cleared && has_just(store, &[thirteen], [false, true, false])
}

// The same of a store of its own under a secret.
fn is_filled_and_cleared<T: CountTable>(rt: &impl Abort, alloc: Global, secret: u64) -> bool {
    let settings = settings_of(rt, TWO_REPORTS);
    let store: ReportStore<T> = ReportStore::new(alloc, &settings).expect(rt, "memory");
    is_its_list(&mut store.with_secret(secret))
}

// The same of each secret.
fn is_its_list_whatever_the_secret<T: CountTable>(rt: &impl Abort, alloc: Global) -> bool {
    for secret in &SECRETS {
        if !is_filled_and_cleared::<T>(rt, alloc, *secret) {
            return false;
        }
    }
    true
}

#[test]
fn a_store_is_its_list_whatever_its_secret(rt: HostRuntime) {
    assert!(rt; is_its_list_whatever_the_secret::<PlainTable>(&rt, rt.alloc()));
}

#[test]
fn a_store_over_a_quotient_filter_is_its_list_whatever_its_secret(rt: HostRuntime) {
    assert!(rt; is_its_list_whatever_the_secret::<Cqf>(&rt, rt.alloc()));
}

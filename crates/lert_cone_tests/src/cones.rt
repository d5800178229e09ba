//! Cones over small settings, and packets for them.

ghost use Rattle.std.specs.Prelude.{◌≡◌, ◌*◌, ◌<◌, ◌≤◌, length};
ghost use Rattle.lert_spec.specs.Mix.{cone_of};
ghost use Rattle.lert_base.specs.Entries.{packet_of};
ghost use Rattle.lert_journal.specs.Payload.{IsJournaled};
ghost use Rattle.lert_cone.specs.History.{most_version};
ghost use Rattle.lert_cone.specs.Room.{IsRoom};

use lert_base::{Entry, KeyList, Numbers, Report, Settings};
use lert_bay::{Bay, MemBay};
use lert_cone::{Acked, Cone, ConeFault, ConeRoom, ConeState, CreateFault};
use lert_mixer::cone_of;
use lert_plain::PlainTable;
use std::alloc::Global;
use std::process::Abort;

pub const SMALL: Numbers = Numbers {
    threshold: 3,
    bins: 3,
    ratio: 2,
    base: 4,
    levels: 2,
    cone_bits: 0,
    room: 32,
    packet: 8,
};

// An entry with these keys, all of the only cone.
pub fn entry(rt: &impl Abort, alloc: Global, settings: &Settings, keys: &[u64]) -> Entry
    requires some { 0 < length keys.now }
    requires few { length keys.now ≤ 4 * settings.now.packet }
    ensures { IsJournaled most_version settings.now 0 (packet_of result) }
{
    let mut list = KeyList::with_room(alloc, keys.len()).expect(rt, "memory");
    for key in keys {
        assert_own(rt, settings, *key);
        list.push(*key, 1);
    }
    Entry::new(0, 0, list)
}

// Asserts that a key is of the only cone.
pub fn assert_own(rt: &impl Abort, settings: &Settings, key: u64)
    ensures { cone_of settings.now key ≡ 0 }
{
    assert!(rt; cone_of(settings, key) == 0);
}

pub fn settings_of(rt: &impl Abort, numbers: Numbers) -> Settings
    ensures { result ≡ numbers }
{
    Settings::new(numbers).expect(rt, "settings")
}

pub fn small(rt: &impl Abort, room: u64) -> Settings
    ensures { result.packet ≡ 8 }
{
    settings_of(rt, Numbers { room, ..SMALL })
}

pub fn created<B: Bay>(
    rt: &impl Abort,
    alloc: Global,
    settings: &Settings,
    bay: B,
) -> Cone<B, PlainTable>
where
    B: Drop,
    ensures settings { result.listing.settings ≡ settings.now }
    ensures cone { result.listing.cone ≡ 0 }
{
    let room = ConeRoom::new(alloc, settings).expect(rt, "memory");
    created_in(rt, room, bay)
}

// A cone in this room, over a bay without files.
fn created_in<B: Bay>(rt: &impl Abort, room: ConeRoom<PlainTable>, bay: B) -> Cone<B, PlainTable>
where
    B: Drop,
    requires { IsRoom room.settings room.zero room.levels room.store room.entry.keys (length room.buffer.items) }
    ensures settings { result.listing.settings ≡ room.settings }
    ensures cone { result.listing.cone ≡ 0 }
{
    match Cone::create(room, 0, bay) {
        Ok(cone) => cone,
        Err(_) => panic!(rt; "the files are empty"),
    }
}

// A room that was handed back makes a cone over a bay without files.
fn check_room(rt: &impl Abort, alloc: Global, room: ConeRoom<PlainTable>)
    requires { IsRoom room.settings room.zero room.levels room.store room.entry.keys (length room.buffer.items) }
{
    let _bay = created_in(rt, room, empty_bay(rt, alloc)).into_bay();
}

// Why a cone isn't made over a bay, with what was handed in: the packet size of the room's settings, and the bay. The
// room makes another cone.
pub fn refusal<B: Bay>(
    rt: &impl Abort,
    alloc: Global,
    settings: &Settings,
    bay: B,
) -> (CreateFault, u64, B)
where
    B: Drop,
{
    let room = ConeRoom::<PlainTable>::new(alloc, settings).expect(rt, "memory");
    match Cone::create(room, 0, bay) {
        Ok(_) => panic!(rt; "the cone is made"),
        Err(refused) => {
            let packet = refused.room.settings.numbers().packet;
            check_room(rt, alloc, refused.room);
            (refused.fault, packet, refused.bay)
        }
    }
}

// Gives these keys to the only cone in one packet, and tells what it answers.
pub fn give<B: Bay>(
    rt: &impl Abort,
    alloc: Global,
    settings: &Settings,
    cone: &mut Cone<B, PlainTable>,
    keys: &[u64],
) -> Result<Acked, ConeFault>
    requires some { 0 < length keys.now }
    requires few { length keys.now ≤ 32 }
    requires eight { settings.now.packet ≡ 8 }
    requires settings { cone.old.listing.settings ≡ settings.now }
    requires cone { cone.old.listing.cone ≡ 0 }
    ensures settings { cone.new.listing.settings ≡ settings.now }
    ensures cone { cone.new.listing.cone ≡ 0 }
{
    let packet = entry(rt, alloc, settings, keys);
    cone.admit(&packet)
}

// The only cone answers so to these keys in one packet.
pub fn check_given<B: Bay>(
    rt: &impl Abort,
    alloc: Global,
    settings: &Settings,
    cone: &mut Cone<B, PlainTable>,
    keys: &[u64],
    wanted: Result<Acked, ConeFault>,
)
    requires some { 0 < length keys.now }
    requires few { length keys.now ≤ 32 }
    requires eight { settings.now.packet ≡ 8 }
    requires settings { cone.old.listing.settings ≡ settings.now }
    requires cone { cone.old.listing.cone ≡ 0 }
    ensures settings { cone.new.listing.settings ≡ settings.now }
    ensures cone { cone.new.listing.cone ≡ 0 }
{
    let answer = give(rt, alloc, settings, cone, keys);
    assert!(rt; answer == wanted);
}

// The only cone takes these keys in one packet.
pub fn take<B: Bay>(
    rt: &impl Abort,
    alloc: Global,
    settings: &Settings,
    cone: &mut Cone<B, PlainTable>,
    keys: &[u64],
)
    requires eight { settings.now.packet ≡ 8 }
    requires settings { cone.old.listing.settings ≡ settings.now }
    requires cone { cone.old.listing.cone ≡ 0 }
    ensures settings { cone.new.listing.settings ≡ settings.now }
    ensures cone { cone.new.listing.cone ≡ 0 }
{
    let len = keys.len();
    assert!(rt; 0 < len && len <= 32);
    let answer = give(rt, alloc, settings, cone, keys);
    assert!(rt; answer.is_ok());
}

// Gives each key to the only cone in a packet of its own, which it takes.
pub fn give_all<B: Bay>(
    rt: &impl Abort,
    alloc: Global,
    settings: &Settings,
    cone: &mut Cone<B, PlainTable>,
    keys: &[u64],
)
    requires eight { settings.now.packet ≡ 8 }
    requires settings { cone.old.listing.settings ≡ settings.now }
    requires cone { cone.old.listing.cone ≡ 0 }
    ensures settings { cone.new.listing.settings ≡ settings.now }
    ensures cone { cone.new.listing.cone ≡ 0 }
{
    for key in keys {
        take(rt, alloc, settings, cone, &[*key]);
    }
}

// Ends the cone. Its callers want no more than these clauses, and their proofs are short so.
pub fn end<B: Bay>(cone: &mut Cone<B, PlainTable>) -> Result<u64, ConeFault>
    ensures settings { cone.new.listing.settings ≡ cone.old.listing.settings }
    ensures cone { cone.new.listing.cone ≡ cone.old.listing.cone }
{
    cone.finish()
}

// The cone answers its end so.
pub fn check_end<B: Bay>(
    rt: &impl Abort,
    cone: &mut Cone<B, PlainTable>,
    wanted: Result<u64, ConeFault>,
)
    ensures settings { cone.new.listing.settings ≡ cone.old.listing.settings }
    ensures cone { cone.new.listing.cone ≡ cone.old.listing.cone }
{
    assert!(rt; end(cone) == wanted);
}

// The cone is in this state, and has taken so many keys.
pub fn check_state<B: Bay>(
    rt: &impl Abort,
    cone: &Cone<B, PlainTable>,
    state: ConeState,
    events: u64,
) {
    assert!(rt; cone.state() == state && cone.events() == events);
}

pub fn check_listed<B: Bay>(rt: &impl Abort, cone: &Cone<B, PlainTable>, reports: &[Report]) {
    assert!(rt; cone.reports().list() == reports);
}

// A copy of these bytes, with others at some places.
pub fn changed(rt: &impl Abort, alloc: Global, bytes: &[u8], others: &[(usize, u8)]) -> Vec<u8> {
    let mut copy = bytes.to_vec(alloc).expect(rt, "memory");
    for (at, byte) in others {
        *copy.get_mut(*at).expect(rt, "the bytes have the place") = *byte;
    }
    copy
}

// A bay in memory without files.
pub fn empty_bay(rt: &impl Abort, alloc: Global) -> MemBay {
    MemBay::new(alloc).expect(rt, "memory")
}

// A bay in memory of which one file has these bytes.
pub fn with_file(rt: &impl Abort, alloc: Global, file: u8, bytes: &[u8]) -> MemBay
    requires { file < 3 }
{
    let mut bay = empty_bay(rt, alloc);
    bay.load(file, bytes).expect(rt, "memory");
    bay
}

// Keys 1 to `last` of which those at these positions are 7, and each other is a key of its own.
pub fn sevens_at(rt: &impl Abort, alloc: Global, last: u64, places: &[u64]) -> Vec<u64>
    requires { last < 1000 }
{
    let mut keys = Vec::new(alloc);
    for m in 1..last + 1 {
        let key = if places.contains(&m) { 7 } else { 1_000 + m };
        keys.push(key).expect(rt, "memory");
    }
    keys
}

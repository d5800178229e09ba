//! Tables that are sorted lists.

ghost use Rattle.std.specs.Prelude.{◌≡◌, ◌^◌, ◌≤◌};
ghost use Rattle.lert_spec.specs.Table.{total};

use lert_base::{CountTable, Piece};
use lert_plain::PlainTable;

#[test]
fn counts_are_those_of_the_vector(rt: HostRuntime) {
    let mut table = PlainTable::new(rt.alloc(), 6, 8, 8).expect(&rt, "memory");
    table.add(773, 1);
    table.add(777, 2);
    table.add(1025, 1);
    let before = table.count(773);
    table.add(773, 1);
    assert_eq!(rt; [before, table.count(773), table.count(774)], [1, 2, 0]);
    assert_eq!(rt;
        [table.count(777), table.count(1025), table.adds()],
        [2, 1, 4]
    );
}

#[test]
fn pieces_come_in_ascending_tails(rt: HostRuntime) {
    let mut table = PlainTable::new(rt.alloc(), 6, 8, 3).expect(&rt, "memory");
    table.add(9, 1);
    table.add(4, 2);
    let mut cursor = table.start();
    let pieces = [
        table.step(&mut cursor),
        table.step(&mut cursor),
        table.step(&mut cursor),
    ];
    assert_eq!(rt;
        pieces,
        [
            Some(Piece { tail: 4, count: 2 }),
            Some(Piece { tail: 9, count: 1 }),
            None
        ]
    );
    table.clear();
    let mut cursor = table.start();
    assert_eq!(rt; (table.adds(), table.step(&mut cursor)), (0, None));
}

// The sum of the counts of any table, piece by piece.
fn sum_of<T: CountTable>(table: &T) -> u64
    requires { T.room table.now ≤ 2 ^ 39 }
    ensures { result ≡ total (T.pieces table.now) }
{
    let _few = table.adds();
    let mut cursor = table.start();
    let mut sum = 0;
    while let Some(piece) = table.step(&mut cursor) {
        sum += piece.count;
    }
    sum
}

#[test]
fn any_table_is_walked_by_its_cursor(rt: HostRuntime) {
    let mut table = PlainTable::new(rt.alloc(), 6, 8, 10).expect(&rt, "memory");
    table.add(9, 3);
    table.add(4, 2);
    assert_eq!(rt; sum_of(&table), 5);
}
